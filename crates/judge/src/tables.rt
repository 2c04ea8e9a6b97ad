// A file, and the tables of what it lists.
ghost use Rattle.judge.specs.Listed.{SizesIn, RootsOf};

use crate::listed::{LISTED_SIZES, ROOT_SLOTS};

// The sizes of the listed terms and what is noted of them stand in `sizes`, and the roots of the secrets are flagged in `roots`.
#[derive(Clone, Copy)]
pub struct Tables<'a> {
    pub file: &'a [u8],
    pub sizes: &'a [u8; LISTED_SIZES],
    pub roots: &'a [u8; ROOT_SLOTS],
    pub ghost sized: { ∥ SizesIn file.now sizes.now ∥₁ },
    pub ghost rooted: { ∥ RootsOf file.now roots.now ∥₁ },
}
