// The entries of a block as terms: four bytes an entry, parents before children, left before right.
ghost use Rattle.std.specs.Prelude.{◌≡◌, ◌+◌, ◌*◌, ◌≤◌, ◌<◌, length};
ghost use Rattle.blocks.specs.Limits.{most_term_bytes};
ghost use Rattle.terms.specs.Entry.{Begins, term_of, size, value_at, from};
ghost use Rattle.terms.specs.Tag.{signature_tag, children_of};
ghost use Rattle.terms.specs.TermGraph.{size_in, SizesOf};
ghost use Rattle.terms.specs.Sizes.{SizedFrom, KeptBelow};
ghost use Rattle.terms.specs.PlaceEntries.{next_place};

use crate::tag::{HASH, LAST, PAIR};
use blocks::wide;

// Room for the sizes of the terms at the entries of one term.
pub const SIZES: usize = 64;

// The value of the entry that stands first.
pub fn value(e: &[u8]) -> usize
    requires { 4 ≤ length e.now }
    ensures { (result ≡ value_at e.now) × (result ≤ 65535) }
{
    blocks::word(e, 2)
}

// For each tag, how many children an entry of it has.
const CHILDREN: [u8; LAST + 1] = [0, 0, 2, 1, 0, 0, 0, 0, 1, 1];

// How many children an entry of this tag has: a pair two, what is put around a term one.
pub fn children(tag: u8) -> usize
    requires { tag ≤ signature_tag }
    ensures { (result ≡ children_of tag) × (result ≤ 2) }
{
    wide(CHILDREN[wide(tag)])
}

// How many entries the term has that stands first, walked child by child.
pub fn term_size(e: &[u8]) -> usize
    requires { Begins e.now }
    ensures { (result ≡ size (term_of e.now)) × (4 * result ≤ length e.now) }
{
    let tag = e[0];
    if tag == PAIR {
        let right = 1 + term_size(&e[4..]);
        right + term_size(&e[4 * right..])
    } else if children(tag) == 1 {
        1 + term_size(&e[4..])
    } else {
        1
    }
}

// Where the walk over the places of a term goes on behind entry k: what a hash holds is passed over.
pub fn next_place(e: &[u8], k: usize) -> usize
    requires { Begins (from (4 * k) e.now) × (4 * k < length e.now) × (length e.now ≤ most_term_bytes) }
    ensures { (result ≡ next_place e.now k) × (k < result) × (4 * result ≤ length e.now) }
{
    if e[4 * k] == HASH {
        k + term_size(&e[4 * k..])
    } else {
        k + 1
    }
}

// The size of the term at entry k, by those of the entries behind it; the table has them from `base` on.
fn size_by_children(e: &[u8], z: &[u8], base: usize, k: usize) -> u8
    requires { Begins e.now × (length e.now ≤ most_term_bytes) × (base ≤ 4096) × (4 * k < length e.now) × SizedFrom e.now z.now base (k + 1) }
    ensures { result ≡ size_in e.now k }
{
    let tag = e[4 * k];
    if tag == PAIR {
        let left = wide(z[base + k + 1]);
        (1 + left + wide(z[base + k + 1 + left])) as u8
    } else if children(tag) == 1 {
        (1 + wide(z[base + k + 1])) as u8
    } else {
        1
    }
}

// Fills in the sizes of the terms at e's entries, the last first, from `base` on.
pub fn fill_sizes(e: &[u8], z: &mut [u8], base: usize)
    requires { Begins e.now × (length e.now ≤ most_term_bytes) × (base ≤ 4096) × (4 * base + length e.now ≤ 4 * length z.old) }
    ensures { SizedFrom e.now z.new base 0 × KeptBelow base z.old z.new }
{
    for k in (0..e.len() / 4).rev() {
        z[base + k] = size_by_children(e, z, base, k);
    }
}

// For each entry, how many entries the term has that begins there.
pub fn sizes(e: &[u8]) -> [u8; SIZES]
    requires { Begins e.now × (length e.now ≤ most_term_bytes) }
    ensures { SizesOf e.now result }
{
    let mut z = [0u8; SIZES];
    fill_sizes(e, &mut z, 0);
    z
}

// The entry past the term at entry h, by the sizes.
pub fn end_of(e: &[u8], z: &[u8; SIZES], h: usize) -> usize
    requires { SizesOf e.now z.now × Begins (from (4 * h) e.now) × (4 * h < length e.now) × (length e.now ≤ most_term_bytes) }
    ensures { (result ≡ h + size (term_of (from (4 * h) e.now))) × (4 * result ≤ length e.now) }
{
    h + wide(z[h])
}
