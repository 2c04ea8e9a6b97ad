// The verdict line, written into a lent buffer: fixed bytes and digits by hand, as document 01 has it, with no heap.
ghost use Rattle.std.specs.Prelude.{◌≡◌, ◌+◌, ◌≤◌, length};
ghost use Rattle.blocks.specs.Check.{values_of};
ghost use Rattle.judge.specs.Line.{digits_of, field_of, three_fields, accepted_line, refused_line, line_of};
ghost use Rattle.judge.specs.Line.{Room, Put, printing, printing_values, after_printing};

use crate::answer::{block_of, number, place_of};
use crate::verdict::{Counts, Verdict};
use blocks::Unwritten;

// How many digits a number has.
fn decimal_length(n: u32) -> usize
    ensures { (result ≡ length (digits_of n)) × (result ≤ 10) }
{
    if n < 10 {
        return 1;
    }
    1 + decimal_length(n / 10)
}

// The length of the line of these counts: its fixed bytes and its digits.
fn accepted_length(c: Counts) -> usize
    ensures { result ≡ length (accepted_line c) }
{
    44 + decimal_length(c.blocks as u32)
        + decimal_length(c.secrets as u32)
        + decimal_length(c.goods as u32)
        + decimal_length(c.bads as u32)
        + decimal_length(c.rules as u32)
}

// The length of the line of a fault.
fn refused_length(number: u32, block: u32, place: u32) -> usize
    ensures { result ≡ length (refused_line number block place) }
{
    23 + decimal_length(number) + decimal_length(block) + decimal_length(place)
}

// The length of a verdict's line.
fn line_length(v: Verdict) -> usize
    ensures { result ≡ length (line_of v) }
{
    match v {
        Verdict::Accepted(c) => accepted_length(c),
        Verdict::Refused(f) => refused_length(number(f), block_of(f) as u32, place_of(f) as u32),
    }
}

// Writes a text from `at` on, and answers the place after it. (Byte by byte: fixed texts are then numbers in the code. With
// `copy_from_slice` they were read-only data, more than loader/read-only-test states.)
fn put(buffer: &mut [u8], at: usize, text: &[u8]) -> usize
    requires { Room buffer.old at text.now }
    ensures { Put buffer.old at text.now buffer.new result }
{
    for i in 0..text.len() {
        buffer[at + i] = text[i];
    }
    at + text.len()
}

// Writes a number in decimal from `at` on, and answers the place after it.
fn put_decimal(buffer: &mut [u8], at: usize, n: u32) -> usize
    requires { Room buffer.old at (digits_of n) }
    ensures { Put buffer.old at (digits_of n) buffer.new result }
{
    if n < 10 {
        buffer[at] = (48 + n) as u8;
        return at + 1;
    }
    let last = put_decimal(buffer, at, n / 10);
    buffer[last] = (48 + n % 10) as u8;
    last + 1
}

// Writes a fixed text and a number behind it.
fn put_field(buffer: &mut [u8], at: usize, name: &[u8], n: u32) -> usize
    requires { Room buffer.old at (field_of name.now n) }
    ensures { Put buffer.old at (field_of name.now n) buffer.new result }
{
    let next = put(buffer, at, name);
    put_decimal(buffer, next, n)
}

// Writes three fields and a newline.
fn put_three(
    buffer: &mut [u8],
    at: usize,
    first: &[u8],
    a: u32,
    second: &[u8],
    b: u32,
    third: &[u8],
    c: u32,
) -> usize
    requires { Room buffer.old at (three_fields first.now a second.now b third.now c) }
    ensures { Put buffer.old at (three_fields first.now a second.now b third.now c) buffer.new result }
{
    let past_first = put_field(buffer, at, first, a);
    let past_second = put_field(buffer, past_first, second, b);
    let past_third = put_field(buffer, past_second, third, c);
    put(buffer, past_third, b"\n")
}

// Writes the line of these counts.
fn put_accepted(buffer: &mut [u8], c: Counts) -> usize
    requires { Room buffer.old 0 (accepted_line c) }
    ensures { Put buffer.old 0 (accepted_line c) buffer.new result }
{
    let goods = c.goods as u32;
    let bads = c.bads as u32;
    let rules = c.rules as u32;
    let past_first = put_field(buffer, 0, b"accepted blocks=", c.blocks as u32);
    let past_second = put_field(buffer, past_first, b" secrets=", c.secrets as u32);
    put_three(
        buffer,
        past_second,
        b" good=",
        goods,
        b" bad=",
        bads,
        b" rules=",
        rules,
    )
}

// Writes the line of a fault.
fn put_refused(buffer: &mut [u8], number: u32, block: u32, place: u32) -> usize
    requires { Room buffer.old 0 (refused_line number block place) }
    ensures { Put buffer.old 0 (refused_line number block place) buffer.new result }
{
    put_three(
        buffer,
        0,
        b"refused ",
        number,
        b" block=",
        block,
        b" place=",
        place,
    )
}

// Writes the line of a verdict, and answers its length.
fn put_line(buffer: &mut [u8], v: Verdict) -> usize
    requires { Room buffer.old 0 (line_of v) }
    ensures { Put buffer.old 0 (line_of v) buffer.new result }
{
    match v {
        Verdict::Accepted(c) => put_accepted(buffer, c),
        Verdict::Refused(f) => {
            put_refused(buffer, number(f), block_of(f) as u32, place_of(f) as u32)
        }
    }
}

// Prints the line of a verdict from the buffer's start on; refuses a buffer shorter than the line, and then alters none of it.
#[tactic(auto, unfolding(crate::specs::Line::printing, crate::specs::Line::printing_values, crate::specs::Line::after_printing, crate::specs::Line::pasted))]
pub fn print_line(v: Verdict, buffer: &mut [u8]) -> Result<usize, Unwritten>
    ensures answer { result ≡ printing v buffer.old }
    ensures values { values_of result ≡ printing_values v buffer.old }
    ensures bytes { buffer.new ≡ after_printing v buffer.old }
{
    if buffer.len() < line_length(v) {
        return Err(Unwritten::ShortBuffer);
    }
    Ok(put_line(buffer, v))
}
