// What is made of a verdict: its number, block and place, the packed answer and the refused part.
ghost use Rattle.std.specs.Prelude.{◌≡◌, ◌≤◌};
ghost use Rattle.blocks.specs.Block.{behind};
ghost use Rattle.judge.specs.Answer.{row_of, number_of, block_of, place_of, packed_of};
ghost use Rattle.judge.specs.Answer.{partless, block_or_none, block_start, part_of, part_start};

use crate::verdict::{Fault, Verdict};

// A fault's number, block and place.
#[derive(Clone, Copy)]
pub struct Row {
    pub number: u32,
    pub block: u8,
    pub place: u8,
}

// A row from its three columns.
fn columns(number: u32, block: u8, place: u8) -> Row
    ensures { result ≡ record { number = number; block = block; place = place } }
{
    Row {
        number,
        block,
        place,
    }
}

// The row of document 01's table for a fault. Its numbers stay codes: the packed answer, the C call and the line carry them.
fn row_of(f: Fault) -> Row
    ensures { result ≡ row_of f }
{
    match f {
        Fault::Length => columns(1, 0, 0),
        Fault::Check(b) => columns(2, b, 0),
        Fault::Kind(b) => columns(3, b, 0),
        Fault::Missing(n) => columns(4, n, 0),
        Fault::Layout(b) => columns(5, b, 0),
        Fault::AtomEntry(b, p) => columns(6, b, p),
        Fault::TermEntry(b, p) => columns(7, b, p),
        Fault::NotOneTerm(b, p) => columns(8, b, p),
        Fault::KnownSecret(b) => columns(9, b, 0),
        Fault::NotClosed(b) => columns(10, b, 0),
        Fault::KeyNotKept(b) => columns(11, b, 0),
        Fault::Uncovered(b, p) => columns(12, b, p),
        Fault::OpenSecret(b, p) => columns(15, b, p),
        Fault::Loader => columns(16, 0, 0),
    }
}

// The number of a fault.
pub fn number(f: Fault) -> u32
    ensures { (result ≡ number_of f) × (result ≤ 16) }
{
    row_of(f).number
}

// The block that a fault names.
pub fn block_of(f: Fault) -> u8
    ensures { result ≡ block_of f }
{
    row_of(f).block
}

// The place that a fault names.
pub fn place_of(f: Fault) -> u8
    ensures { result ≡ place_of f }
{
    row_of(f).place
}

// What the loader gets: number × 65,536 + block × 256 + place, 0 if accepted.
pub fn packed(v: Verdict) -> u32
    ensures { result ≡ packed_of v }
{
    match v {
        Verdict::Accepted(_) => 0,
        Verdict::Refused(f) => number(f) * 65536
            + u32::from(block_of(f)) * 256
            + u32::from(place_of(f)),
    }
}

// Is the part for this number empty, whatever block is named?
#[tactic(auto, unfolding(crate::specs::Answer::partless))]
fn is_partless(n: u32) -> bool
    ensures { result ≡ partless n }
{
    matches!(n, 1 | 4 | 16)
}

// Block i of the file, empty if the file lacks it.
#[tactic(auto, unfolding(crate::specs::Answer::block_or_none, crate::specs::Answer::block_start))]
fn block_or_none<'a>(file: &'a [u8], i: usize) -> &'a [u8]
    ensures part { result.now ≡ block_or_none file.now i }
    ensures place { result.ref_ptr ≡ behind (block_start file.now i) file.entry.ref_ptr }
{
    if blocks::has_block(file, i) {
        blocks::block(file, i)
    } else {
        &file[0..0]
    }
}

// The refused block, as a part of the file; empty on acceptance, for numbers 1, 4 and 16, and for a block that
// the file lacks.
#[tactic(auto, unfolding(crate::specs::Answer::part_of, crate::specs::Answer::part_start))]
pub fn refused_part<'a>(file: &'a [u8], v: Verdict) -> &'a [u8]
    ensures part { result.now ≡ part_of file.now v }
    ensures place { result.ref_ptr ≡ behind (part_start file.now v) file.entry.ref_ptr }
{
    match v {
        Verdict::Refused(f) if !is_partless(number(f)) => {
            block_or_none(file, usize::from(block_of(f)))
        }
        _ => &file[0..0],
    }
}
