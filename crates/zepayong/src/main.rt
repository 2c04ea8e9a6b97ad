// The check program: reads a certificate from standard input, at most 32,769 bytes, and prints the verdict line. Input
// that cannot be read to its end gets no verdict: half a file may be a right certificate.

#![tactic(auto)]

mod call;
mod transfer;

use judge::judging::judge;
use judge::line::print_line;
use std::io::{Error, Write};
use transfer::{read_all, write_all};

// Says on standard error what failed, and why; where that cannot be said, nobody is there to be told.
fn fail(rt: &impl Eprint, what: &str, error: Error) {
    if eprintln!(rt; "zepayong: {what}: {error}").is_err() {}
}

// Writes the line's first bytes.
fn write_line<W: Write>(rt: &impl Eprint, writer: &mut W, line: &[u8], count: usize) {
    if count <= line.len() {
        if let Err(error) = write_all(writer, &line[..count]) {
            fail(rt, "the verdict line cannot be written", error);
        }
    }
}

// Judges the file and writes its line, which has at most 64 bytes.
fn answer<W: Write>(rt: &impl Eprint, writer: &mut W, file: &[u8]) {
    let mut line = [0u8; 64];
    let printed = print_line(judge(file), &mut line);
    write_line(rt, writer, &line, blocks::written(printed));
}

fn main(rt: HostRuntime) {
    let mut buf = [0u8; 32769];
    match read_all(&mut rt.stdin(), &mut buf) {
        Ok(count) => answer(&rt, &mut rt.stdout(), &buf[..count]),
        Err(error) => fail(&rt, "standard input cannot be read", error),
    }
}
