// What is made of a verdict, for programs in other languages: the line, the refused part, the tally, and sealing.

#![tactic(auto)]

ghost use Rattle.std.specs.Prelude.{◌≡◌, length};
ghost use Rattle.blocks.specs.Check.{sealing, after_sealing};
ghost use Rattle.judge.specs.Verdict.{verdict_of};
ghost use Rattle.judge.specs.Line.{Room, Put, printing, after_printing};
ghost use Rattle.judge_tests.specs.Asked.{packed_writing, verdict_from, copying, after_copying};
ghost use Rattle.judge_tests.specs.Asked.{tally_numbers, tally_from, numbers_of, tallying, after_tallying};

use blocks::Unwritten;
use judge::answer::{packed, refused_part};
use judge::checking::{LOADERS, LoaderCounts, Tally, check};
use judge::judging::judge;
use judge::line::print_line;
use judge::verdict::{Counts, Fault, Verdict};

// A writing call's number × 65,536 and the count of bytes that it wrote.
#[tactic(auto, unfolding(crate::specs::Asked::packed_writing))]
fn writing(w: Result<usize, Unwritten>) -> u32
    ensures { result ≡ packed_writing w }
{
    match w {
        Ok(n) => (n % 65536) as u32,
        Err(Unwritten::WrongLength) => 13 * 65536,
        Err(Unwritten::ShortBuffer) => 14 * 65536,
    }
}

// The line of the file's verdict, into the buffer.
#[unsafe(no_mangle)]
pub extern "C" fn zepayong_line(file: &[u8], buffer: &mut [u8]) -> u32
    ensures answer { result ≡ packed_writing (printing (verdict_of file.now) buffer.old) }
    ensures bytes { buffer.new ≡ after_printing (verdict_of file.now) buffer.old }
{
    writing(print_line(judge(file), buffer))
}

// Seals a block.
#[unsafe(no_mangle)]
pub extern "C" fn zepayong_seal(block: &mut [u8]) -> u32
    ensures answer { result ≡ packed_writing (sealing block.old) }
    ensures bytes { block.new ≡ after_sealing block.old }
{
    writing(blocks::seal(block))
}

// How many numbers a tally has.
const NUMBERS: usize = 16;

// The tally of sixteen numbers: accepted and refused of loader 0, of loader 1, and so on.
fn tally_from(counts: &[u32]) -> Tally
    requires { length counts.now ≡ tally_numbers }
    ensures { result ≡ tally_from counts.now }
{
    let mut loaders = [LoaderCounts {
        accepted: 0,
        refused: 0,
    }; LOADERS];
    for k in 0..LOADERS {
        loaders[k] = LoaderCounts {
            accepted: counts[2 * k],
            refused: counts[2 * k + 1],
        };
    }
    Tally { loaders }
}

// Writes a tally as sixteen numbers.
fn put_tally(counts: &mut [u32], t: Tally)
    requires { length counts.old ≡ tally_numbers }
    ensures { counts.new ≡ numbers_of t }
{
    for k in 0..LOADERS {
        let pair = t.loaders[k];
        counts[2 * k] = pair.accepted;
        counts[2 * k + 1] = pair.refused;
    }
}

// Checks the file for this loader, with these sixteen numbers as the tally: leaves in them the tally after it, and answers
// as the C call does. If it is lent fewer numbers or more, it answers 4,294,967,295 and alters none.
#[unsafe(no_mangle)]
pub extern "C" fn zepayong_tally(file: &[u8], loader: u32, counts: &mut [u32]) -> u32
    ensures answer { result ≡ tallying file.now loader counts.old }
    ensures counts { counts.new ≡ after_tallying file.now loader counts.old }
{
    if counts.len() != NUMBERS {
        return 4_294_967_295;
    }
    let c = check(file, loader, tally_from(counts));
    put_tally(counts, c.tally);
    packed(c.verdict)
}

// A verdict whose part is that of this number: 0 accepted, 1, 4 and 16 without a part, any other with that block's.
fn verdict_from(number: u32, block: u8, place: u8) -> Verdict
    ensures { result ≡ verdict_from number block place }
{
    if number == 0 {
        return Verdict::Accepted(Counts {
            blocks: 0,
            secrets: 0,
            goods: 0,
            bads: 0,
            rules: 0,
        });
    }
    if number == 1 {
        return Verdict::Refused(Fault::Length);
    }
    if number == 4 {
        return Verdict::Refused(Fault::Missing(block));
    }
    if number == 16 {
        return Verdict::Refused(Fault::Loader);
    }
    Verdict::Refused(Fault::Uncovered(block, place))
}

// Copies a part to the buffer's start, and answers its length. (Byte by byte: with `copy_from_slice` the archive needs `memmove`
// from outside, too.)
fn copy(buffer: &mut [u8], part: &[u8]) -> usize
    requires { Room buffer.old 0 part.now }
    ensures { Put buffer.old 0 part.now buffer.new result }
{
    for i in 0..part.len() {
        buffer[i] = part[i];
    }
    part.len()
}

// The refused part of the file for the verdict with this number, block and place, copied to the buffer's start: its
// length; 65,536, and the buffer unaltered, if it is shorter than the part.
#[unsafe(no_mangle)]
pub extern "C" fn zepayong_part(
    file: &[u8],
    number: u32,
    block: u8,
    place: u8,
    buffer: &mut [u8],
) -> u32
    ensures answer { result ≡ copying file.now (verdict_from number block place) buffer.old }
    ensures bytes { buffer.new ≡ after_copying file.now (verdict_from number block place) buffer.old }
{
    let part = refused_part(file, verdict_from(number, block, place));
    if buffer.len() < part.len() {
        return 65536;
    }
    (copy(buffer, part) % 65536) as u32
}
