// The check as a C program asks for it.

#![tactic(auto)]

ghost use Rattle.std.specs.Prelude.{◌≡◌};
ghost use Rattle.judge.specs.Verdict.{verdict_of};
ghost use Rattle.judge.specs.Answer.{packed_of};
ghost use Rattle.c_call.specs.Version.{version};

use judge::answer::packed;
use judge::judging::judge;

// 1 is document 01; each change request that lands raises it by 1, here, in specs/Version.antt and in the C header.
const VERSION: u32 = 8;

// The loader's call: number × 65,536 + block × 256 + place, 0 if the file is accepted.
#[unsafe(no_mangle)]
pub extern "C" fn zepayong_check(file: &[u8]) -> u32
    ensures { result ≡ packed_of (verdict_of file.now) }
{
    packed(judge(file))
}

// Which documents the archive follows: the header that a loader was compiled with has the same number.
#[unsafe(no_mangle)]
pub extern "C" fn zepayong_version() -> u32
    ensures { result ≡ version }
{
    VERSION
}
