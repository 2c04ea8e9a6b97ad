// The byte layer of the certificate checker: the blocks of a file, their parts, their check and their layout.

#![tactic(auto)]

mod columns;
pub mod kinds;
pub mod limits;

ghost use Rattle.std.specs.Prelude.{◌≡◌, ◌↔◌, IsTrue, ◌+◌, ◌*◌, ◌≤◌, ◌<◌, length};
ghost use Rattle.blocks.specs.Kinds.{secret_kind, bad_kind, byte_of};
ghost use Rattle.blocks.specs.Limits.{block_size};
ghost use Rattle.blocks.specs.Block.{HasBlock, has_block, block_at, word_at, kind_of, first_count, second_count};
ghost use Rattle.blocks.specs.Block.{first_entries, second_entries, behind, Fitting};
ghost use Rattle.blocks.specs.Check.{check_a, check_b, check_right, values_of, sealing, sealing_values, after_sealing};
ghost use Rattle.blocks.specs.Layout.{within, counts_right, all_zero, zero_from, layout_right};

use columns::{eight_sums, header_sums};
use kinds::Kind;

// Why a call that seals or prints wrote nothing; one that succeeds answers how many bytes it wrote.
#[derive(Clone, Copy, Debug, PartialEq, Eq)]
pub enum Unwritten {
    WrongLength,
    ShortBuffer,
}

// The two sums of a block, each modulo 65,521.
#[derive(Clone, Copy)]
pub struct Check {
    pub a: u32,
    pub b: u32,
}

// Document 01's number of an answer, 0 where the call succeeded.
pub fn number(answer: Result<usize, Unwritten>) -> usize
    ensures { result ≡ (values_of answer).number }
{
    match answer {
        Ok(_) => 0,
        Err(Unwritten::WrongLength) => 13,
        Err(Unwritten::ShortBuffer) => 14,
    }
}

// How many bytes the call wrote.
pub fn written(answer: Result<usize, Unwritten>) -> usize
    ensures { result ≡ (values_of answer).written }
{
    answer.unwrap_or(0)
}

// A byte, wider.
pub fn wide(x: u8) -> usize
    ensures { (result ≡ x) × (result ≤ 255) }
{
    usize::from(x)
}

// Whether the file has block i.
pub fn has_block(file: &[u8], i: usize) -> bool
    ensures { result ≡ has_block file.now i }
{
    i < file.len() / limits::BLOCK_SIZE
}

// Block i, as a part of the file.
pub fn block(file: &[u8], i: usize) -> &[u8]
    requires { HasBlock file.now i }
    ensures part { result.now ≡ block_at file.now i }
    ensures size { length result.now ≡ block_size }
    ensures place { result.ref_ptr ≡ behind (block_size * i) file.entry.ref_ptr }
{
    &file[512 * i..512 * i + 512]
}

// The little-endian number at i.
pub fn word(b: &[u8], i: usize) -> usize
    requires { i + 1 < length b.now }
    ensures { (result ≡ word_at b.now i) × (result ≤ 65535) }
{
    usize::from(u16::from_le_bytes([b[i], b[i + 1]]))
}

// Byte 0. That a block has 512 bytes stands in the clauses and in no type: it is lent as a part of a file, and a type would ask
// more of callers.
pub fn kind(block: &[u8]) -> u8
    requires { length block.now ≡ block_size }
    ensures { result ≡ kind_of block.now }
{
    block[0]
}

// Whether byte 0 names this kind.
pub fn is_kind(block: &[u8], kind: Kind) -> bool
    requires { length block.now ≡ block_size }
    ensures { IsTrue result ↔ (kind_of block.now ≡ byte_of kind) }
{
    u8::from(kind) == block[0]
}

// Byte 1.
pub fn first_count(block: &[u8]) -> usize
    requires { length block.now ≡ block_size }
    ensures { (result ≡ first_count block.now) × (result ≤ 255) }
{
    wide(block[1])
}

// Byte 2.
pub fn second_count(block: &[u8]) -> usize
    requires { length block.now ≡ block_size }
    ensures { (result ≡ second_count block.now) × (result ≤ 255) }
{
    wide(block[2])
}

// The atoms, the term of kinds 2 to 4 or the premise, as a part of the block.
pub fn first_entries(block: &[u8]) -> &[u8]
    requires { Fitting block.now }
    ensures part { result.now ≡ first_entries block.now }
    ensures size { length result.now ≡ 4 * first_count block.now }
    ensures place { result.ref_ptr ≡ behind 4 block.entry.ref_ptr }
{
    let end = 4 + 4 * first_count(block);
    &block[4..end]
}

// The conclusion, as the part after the premise.
pub fn second_entries(block: &[u8]) -> &[u8]
    requires { Fitting block.now }
    ensures part { result.now ≡ second_entries block.now }
    ensures size { length result.now ≡ 4 * second_count block.now }
    ensures place { result.ref_ptr ≡ behind (4 + 4 * first_count block.now) block.entry.ref_ptr }
{
    let start = 4 + 4 * first_count(block);
    let end = start + 4 * second_count(block);
    &block[start..end]
}

// A and B of a block. Neither sum overflows, so that one remainder at the end is enough.
pub fn check_of(block: &[u8]) -> Check
    requires { length block.now ≡ block_size }
    ensures a { result.a ≡ check_a block.now }
    ensures b { result.b ≡ check_b block.now }
    ensures small { (result.a < 65521) × (result.b < 65521) }
{
    let header = header_sums(block);
    let mut a = header.a;
    let mut b = header.b;
    for turn in 0..3 {
        let eight = eight_sums(block, 8 * turn);
        a += eight.a;
        b += eight.b;
    }
    Check {
        a: a % 65521,
        b: b % 65521,
    }
}

// Whether the block has 512 bytes and carries its own check: number 2 where it does not.
#[tactic(auto, unfolding(crate::specs::Check::check_right))]
pub fn check_right(block: &[u8]) -> bool
    ensures { result ≡ check_right block.now }
{
    if block.len() != limits::BLOCK_SIZE {
        return false;
    }
    let check = check_of(block);
    let a = check.a as usize;
    let b = check.b as usize;
    if word(block, 508) != a {
        return false;
    }
    word(block, 510) == b
}

// Writes the check of a block into its last four bytes; refuses other than 512 bytes, and then alters none.
#[tactic(auto, unfolding(crate::specs::Check::sealing, crate::specs::Check::sealing_values, crate::specs::Check::after_sealing))]
pub fn seal(block: &mut [u8]) -> Result<usize, Unwritten>
    ensures answer { result ≡ sealing block.old }
    ensures values { values_of result ≡ sealing_values block.old }
    ensures bytes { block.new ≡ after_sealing block.old }
{
    if block.len() != limits::BLOCK_SIZE {
        return Err(Unwritten::WrongLength);
    }
    let check = check_of(block);
    block[508..510].copy_from_slice(&(check.a as u16).to_le_bytes());
    block[510..512].copy_from_slice(&(check.b as u16).to_le_bytes());
    Ok(4)
}

fn is_within(low: usize, high: usize, x: usize) -> bool
    ensures { result ≡ within low high x }
{
    (low..=high).contains(&x)
}

// Whether blocks of this kind list one term each.
pub fn lists_term(kind: u8) -> bool
    ensures { result ≡ within secret_kind bad_kind kind }
{
    matches!(
        Kind::try_from(kind),
        Ok(Kind::Secret | Kind::Good | Kind::Bad)
    )
}

// Whether the kind allows the two counts.
#[tactic(auto, unfolding(crate::specs::Layout::counts_right))]
fn counts_right(kind: u8, first: usize, second: usize) -> bool
    ensures { result ≡ counts_right kind first second }
{
    match Kind::try_from(kind) {
        Ok(Kind::Atoms) => is_within(1, limits::MOST_ENTRIES, first) && second == 0,
        Ok(Kind::Rule) => {
            first <= limits::MOST_TERM_ENTRIES && is_within(1, limits::MOST_TERM_ENTRIES, second)
        }
        Ok(_) => is_within(1, limits::MOST_TERM_ENTRIES, first) && second == 0,
        Err(_) => false,
    }
}

// Whether all the bytes are zero. All are asked, which the compiler does many at a time.
fn all_zero(bytes: &[u8]) -> bool
    ensures { result ≡ all_zero bytes.now }
{
    let mut seen = 0;
    for i in 0..bytes.len() {
        seen |= bytes[i];
    }
    seen == 0
}

// Whether the bytes from `from` up to byte 507 are zero.
fn zero_from(block: &[u8], from: usize) -> bool
    requires { length block.now ≡ block_size }
    ensures { result ≡ zero_from block.now from }
{
    from >= 508 || all_zero(&block[from..508])
}

// Whether the counts, byte 3 and the unused entries are right: number 5.
#[tactic(auto, unfolding(crate::specs::Layout::layout_right))]
pub fn layout_right(block: &[u8]) -> bool
    ensures { result ≡ layout_right block.now }
{
    if block.len() != limits::BLOCK_SIZE {
        return false;
    }
    let first = first_count(block);
    let second = second_count(block);
    if !counts_right(kind(block), first, second) {
        return false;
    }
    if block[3] != 0 {
        return false;
    }
    zero_from(block, 4 + 4 * (first + second))
}
