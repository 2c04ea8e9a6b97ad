// The entries of a term, with the sizes of the terms that begin at them.
ghost use Rattle.terms.specs.TermGraph.{SizesOf};

use terms::entry::SIZES;

#[derive(Clone, Copy)]
pub struct SizedTerm<'a> {
    pub e: &'a [u8],
    pub z: &'a [u8; SIZES],
    pub ghost sized: { SizesOf e.now z.now },
}
