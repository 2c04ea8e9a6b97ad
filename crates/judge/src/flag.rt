// Flags for the entries of a term, of which it has at most 64, and what is remembered of them.
ghost use Rattle.std.specs.Prelude.{◌≡◌, ◌<◌, ◌≤◌, ◌||◌, false, get_or, set, MatchOption};
ghost use Rattle.terms.specs.Decisions.{Says};
ghost use Rattle.terms.specs.First.{FirstNot};
ghost use Rattle.judge.specs.CoverEntries.{entry_flags, On, Renewed, Painted, Cleared, Narrowed, SomeOn, SomeBoth};

// Room for the flags of a term.
pub const FLAGS: usize = 64;

// Gives the flags from `low` up to `high` this value.
pub fn paint(flags: &mut [bool; FLAGS], low: usize, high: usize, value: bool)
    requires { (low ≤ high) × (high ≤ entry_flags) }
    ensures { Painted flags.old flags.new low high value }
{
    flags[low..high].fill(value);
}

// Is a flag from `low` up to `high` on?
pub fn some_on(flags: &[bool; FLAGS], low: usize, high: usize) -> bool
    requires { high ≤ entry_flags }
    ensures { Says result (SomeOn flags.now low high) }
{
    for k in low..high {
        if flags[k] {
            return true;
        }
    }
    false
}

// Is a flag on in both? All are asked, which the compiler does many at a time.
pub fn some_both(flags: &[bool; FLAGS], others: &[bool; FLAGS]) -> bool
    ensures { Says result (SomeBoth flags.now others.now) }
{
    let mut found = false;
    for k in 0..FLAGS {
        found |= flags[k] & others[k];
    }
    found
}

// Puts flag k on, if that is asked, and says whether it was.
pub fn raise(flags: &mut [bool; FLAGS], k: usize, on: bool) -> bool
    requires { k < entry_flags }
    ensures { (result ≡ on) × (flags.new ≡ set flags.old k (get_or flags.old k false || on)) }
{
    flags[k] |= on;
    on
}

// Puts the flags off that are on in the other ones.
pub fn clear(flags: &mut [bool; FLAGS], off: &[bool; FLAGS])
    ensures { Cleared flags.old flags.new (On off.now) }
{
    for k in 0..FLAGS {
        flags[k] &= !off[k];
    }
}

// Puts the flags from `low` up to `high` off that are not on in the other ones.
pub fn narrow(flags: &mut [bool; FLAGS], low: usize, high: usize, kept: &[bool; FLAGS])
    requires { (low ≤ high) × (high ≤ entry_flags) }
    ensures { Narrowed flags.old flags.new low high kept.now }
{
    for k in low..high {
        flags[k] &= kept[k];
    }
}

// The first of `count` flags that is on, if there is one.
pub fn first_on(flags: &[bool; FLAGS], count: usize) -> Option<usize>
    requires { count ≤ entry_flags }
    ensures { FirstNot (λ k. ¬ On flags.now k) count result }
{
    for k in 0..count {
        if flags[k] {
            return Some(k);
        }
    }
    None
}

// The answer for entry k as it is remembered, or as it is asked, and then remembered. (`get_or_insert_with` was tried, and the
// proof didn't close; with `FnOnce` for `Fn` the proof is told nothing of a closure over `Tables`.)
pub fn recalled<F: Fn() -> bool>(memo: &mut [Option<bool>; FLAGS], k: usize, ask: F) -> bool
    requires inside { k < entry_flags }
    requires asked { F.pre ask }
    ensures answer { MatchOption (get_or memo.old k None) (F.post ask result) (λ known. result ≡ known) }
    ensures memo { memo.new ≡ set memo.old k (Some result) }
{
    if let Some(known) = memo[k] {
        return known;
    }
    let answer = ask();
    memo[k] = Some(answer);
    answer
}

// What is remembered stays, or nothing is known any more.
pub fn renew(memo: &mut [Option<bool>; FLAGS], keep: bool)
    ensures { Renewed keep memo.old memo.new }
{
    if !keep {
        *memo = [None; FLAGS];
    }
}
