// The check that counts: with a file go in the number of the loader that asks and the tally of all eight.
ghost use Rattle.std.specs.Prelude.{◌≡◌};
ghost use Rattle.judge.specs.Values.{verdict_values};
ghost use Rattle.judge.specs.Checked.{IsLoader, raised_of, counted_of, tallied_of, checked_of, checking_values};

use crate::judging::judge;
use crate::verdict::{Fault, Verdict};

// How many loaders share a tally; their numbers are 0 to 7.
pub const LOADERS: usize = 8;

// How many files of one loader were accepted and how many refused.
#[derive(Clone, Copy)]
pub struct LoaderCounts {
    pub accepted: u32,
    pub refused: u32,
}

// The counts of every loader.
#[derive(Clone, Copy)]
pub struct Tally {
    pub loaders: [LoaderCounts; LOADERS],
}

// A verdict, and the tally with it counted.
#[derive(Clone, Copy)]
pub struct Checked {
    pub verdict: Verdict,
    pub tally: Tally,
}

// One more; a full count stays.
fn raised(n: u32) -> u32
    ensures { result ≡ raised_of n }
{
    n.saturating_add(1)
}

// A loader's counts with the verdict counted.
fn counted(c: LoaderCounts, v: Verdict) -> LoaderCounts
    ensures { result ≡ counted_of c v }
{
    match v {
        Verdict::Accepted(_) => LoaderCounts {
            accepted: raised(c.accepted),
            ..c
        },
        Verdict::Refused(_) => LoaderCounts {
            refused: raised(c.refused),
            ..c
        },
    }
}

// The tally with the verdict counted for this loader.
#[tactic(auto, unfolding(crate::specs::Checked::tallied_of, crate::specs::Checked::pair_of))]
fn tallied(t: Tally, loader: usize, v: Verdict) -> Tally
    requires { IsLoader loader }
    ensures { result ≡ tallied_of t loader v }
{
    let mut loaders = t.loaders;
    loaders[loader] = counted(loaders[loader], v);
    Tally { loaders }
}

// Judges the file that a loader hands in, and counts the verdict for that loader. A number that no loader has is refused
// with 16: the file is not looked at, and every count stays.
#[tactic(auto, unfolding(crate::specs::Checked::checked_of, crate::specs::Checked::checking_values))]
pub fn check(file: &[u8], loader: u32, t: Tally) -> Checked
    ensures checked { result ≡ checked_of file.now loader t }
    ensures values { verdict_values result.verdict ≡ checking_values loader file.now }
{
    let n = loader as usize;
    if n >= LOADERS {
        return Checked {
            verdict: Verdict::Refused(Fault::Loader),
            tally: t,
        };
    }
    let v = judge(file);
    Checked {
        verdict: v,
        tally: tallied(t, n, v),
    }
}
