// What one call of read or write did, as its answer says.
ghost use Rattle.std.specs.Prelude.{◌≡◌};
ghost use Rattle.std.specs.Result.{result_unwrap_or};
ghost use Rattle.zepayong.specs.Transfer.{called_of, CallWithin};

use std::io::{self, ErrorKind};

#[derive(Clone, Copy)]
pub enum Called {
    // It moved so many bytes.
    Bytes(usize),
    // It moved none: for a read, the input's end.
    Nothing,
    // A signal came before it moved a byte.
    Interrupted,
}

// What a call's answer says; an error that is no interruption stays one.
pub fn said(answer: io::Result<usize>) -> io::Result<Called>
    ensures value { result ≡ called_of answer }
    ensures call_within { CallWithin result (result_unwrap_or answer 0) }
{
    match answer {
        Ok(0) => Ok(Called::Nothing),
        Ok(count) => Ok(Called::Bytes(count)),
        Err(error) if error.kind() == ErrorKind::Interrupted => Ok(Called::Interrupted),
        Err(error) => Err(error),
    }
}
