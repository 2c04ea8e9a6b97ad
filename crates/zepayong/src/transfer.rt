// Reading and writing to the end.
ghost use Rattle.std.specs.Prelude.{IfOk};
ghost use Rattle.io.specs.Counts.{IsPrefixLen};

use crate::call::{Called, said};
use std::io::{self, Error, Read, Write};

// Reads until the buffer is full or a read says that the input has ended, and answers how many bytes came. An interrupted
// read is made again; the turns are counted because a loop has to end, and no run uses them up.
pub fn read_all<R: Read>(reader: &mut R, buf: &mut [u8]) -> io::Result<usize>
    ensures { IfOk result (λ n. IsPrefixLen n buf.new) }
{
    let mut done = 0;
    // Why the last call failed, as C's errno has it.
    let mut reason = no_reason();
    for _ in 0..u64::MAX {
        if done == buf.len() {
            break;
        }
        let answer = reader.read(&mut buf[done..]);
        if let Err(error) = answer {
            reason = error;
        }
        match said(answer)? {
            Called::Bytes(n) => done += n,
            Called::Nothing => return Ok(done),
            Called::Interrupted => {}
        }
    }
    if done < buf.len() {
        return Err(reason);
    }
    Ok(done)
}

// Writes all the bytes. (The loop of `read_all` with another call and another end: the call as a closure over the part that is
// left is no shorter.)
pub fn write_all<W: Write>(writer: &mut W, bytes: &[u8]) -> io::Result<()> {
    let mut done = 0;
    let mut reason = no_reason();
    for _ in 0..u64::MAX {
        if done == bytes.len() {
            break;
        }
        let answer = writer.write(&bytes[done..]);
        if let Err(error) = answer {
            reason = error;
        }
        match said(answer)? {
            Called::Bytes(n) => done += n,
            Called::Nothing => return Err(reason),
            Called::Interrupted => {}
        }
    }
    if done < bytes.len() {
        return Err(reason);
    }
    Ok(())
}

// Why a transfer failed where no call failed, in the words of C's errno 0.
fn no_reason() -> Error {
    Error::other("Success")
}
