// Equality of terms, and matching of a pattern, each by a walk over the entries left.
ghost use Rattle.std.specs.Prelude.{◌≡◌, true, ◌*◌, ◌<◌, ◌≤◌, length, set, List};
ghost use Rattle.blocks.specs.Limits.{most_term_bytes};
ghost use Rattle.terms.specs.Term.{variable, range_of};
ghost use Rattle.terms.specs.Entry.{Begins, term_of, from};
ghost use Rattle.terms.specs.declared.atom.Atom.{Atom};
ghost use Rattle.terms.specs.Nonces.{NoncesIn};
ghost use Rattle.terms.specs.Instance.{NonceTerm};
ghost use Rattle.terms.specs.Apart.{Common};
ghost use Rattle.terms.specs.Decisions.{Says};
ghost use Rattle.terms.specs.Decide.{answer, variable?, term?, match?};
ghost use Rattle.terms.specs.Slot.{slot_count, slot_of};
ghost use Rattle.terms.specs.Front.{SameFirst, Word, Comparable, Bindable, Front, Takes, Ready, NoncesBound, MayTake, Made, Ran, Goes};

use crate::tag::{ANY_SLOTS, ATOM, SLOTS, first_slot, is_variable};
use crate::{atom, entry};
use blocks::wide;

// The entry that stands first, as one number.
fn word(e: &[u8]) -> u32
    requires { 4 ≤ length e.now }
    ensures { Word e.now result }
{
    u32::from_le_bytes([e[0], e[1], e[2], e[3]])
}

// Do both begin with the same entry?
pub fn same_entry(s: &[u8], t: &[u8]) -> bool
    requires { Begins s.now × Begins t.now }
    ensures { Says result (SameFirst s.now t.now) }
{
    word(s) == word(t)
}

// Are the first `need` terms the same, symbol for symbol?
fn same_front(s: &[u8], t: &[u8], need: usize) -> bool
    requires { Front need s.now × Front need t.now }
    ensures { Says result (Takes variable need s.now t.now) }
{
    need == 0 || same_entry(s, t) && same_front(&s[4..], &t[4..], need - 1 + entry::children(s[0]))
}

// How far two terms begin with the same symbols, entry by entry, and how many terms are then left to compare.
#[derive(Clone, Copy)]
pub struct Run {
    pub count: usize,
    pub left: usize,
}

// Do both go on with the same symbol at entry k, with so many terms left?
fn goes_on(p: &[u8], t: &[u8], k: usize, left: usize) -> bool
    requires { (4 * k ≤ length p.now) × (4 * k ≤ length t.now) × Front left (from (4 * k) p.now) × Front left (from (4 * k) t.now) }
    ensures { Says result (Goes p.now t.now k left) }
{
    left != 0 && !is_variable(p[4 * k]) && same_entry(&p[4 * k..], &t[4 * k..])
}

// The symbols that both begin with, where the first `need` terms are compared.
pub fn run_on(p: &[u8], t: &[u8], need: usize) -> Run
    requires { Front need p.now × Front need t.now }
    ensures ran { Ran need p.now t.now result.count result.left }
    ensures stops { ¬ Goes p.now t.now result.count result.left }
{
    let mut count = 0;
    let mut left = need;
    while goes_on(p, t, count, left) {
        left = left - 1 + entry::children(p[4 * count]);
        count += 1;
    }
    Run { count, left }
}

// The symbols that both terms begin with.
pub fn same_run(p: &[u8], t: &[u8]) -> Run
    requires { Begins p.now × Begins t.now }
    ensures ran { Ran 1 p.now t.now result.count result.left }
    ensures stops { ¬ Goes p.now t.now result.count result.left }
{
    run_on(p, t, 1)
}

// Are the terms that stand first the same, symbol for symbol? Most differ in their first entries.
pub fn same(s: &[u8], t: &[u8]) -> bool
    requires { Begins s.now × Begins t.now }
    ensures { result ≡ answer (term? variable? (term_of s.now) (term_of t.now)) }
{
    if !same_entry(s, t) {
        return false;
    }
    let run = same_run(s, t);
    let at = 4 * run.count;
    same_front(&s[at..], &t[at..], run.left)
}

// The slot of the variable that stands first, eight for each sort; 32 where none does, as `slot_of` has it, and no Option.
pub fn slot(p: &[u8]) -> usize
    requires { Begins p.now }
    ensures { result ≡ slot_of (term_of p.now) }
{
    let tag = p[0];
    if is_variable(tag) {
        first_slot(tag) + entry::value(p)
    } else {
        SLOTS
    }
}

// May the term that stands first be put at a nonce variable? It is a nonce, or a nonce variable.
fn is_nonce_term(e: &[u8], nonces: &[u8]) -> bool
    requires { Begins e.now }
    ensures { (atoms : List Atom) → NoncesIn atoms nonces.now → Says result (NonceTerm atoms range_of (term_of e.now)) }
{
    let x = slot(e);
    if x < SLOTS {
        ANY_SLOTS <= x
    } else {
        e[0] == ATOM && atom::is_nonce(nonces, entry::value(e))
    }
}

// May the term at entry `at` be put at the variable of this slot?
fn may_take(x: usize, t: &[u8], at: usize, nonces: &[u8]) -> bool
    requires { Begins (from (4 * at) t.now) × (4 * at ≤ length t.now) × (length t.now ≤ most_term_bytes) }
    ensures { (atoms : List Atom) → NoncesIn atoms nonces.now → Says result (MayTake atoms x t.now at) }
{
    x < ANY_SLOTS || is_nonce_term(&t[4 * at..], nonces)
}

// May a variable that is bound to the term at entry `old`, if it is, stand for the term at entry `at`?
fn bindable(t: &[u8], old: Option<u8>, at: usize) -> bool
    requires { Comparable t.now old at }
    ensures { Says result (Bindable t.now old at) }
{
    match old {
        Some(old) => same(&t[4 * wide(old)..], &t[4 * at..]),
        None => true,
    }
}

// Binds this slot to the term at entry `at`.
fn bind(bound: &mut [Option<u8>; SLOTS], slot: usize, at: usize)
    requires { (slot < slot_count) × (at ≤ 62) }
    ensures { bound.new ≡ set bound.old slot (Some at) }
{
    bound[slot] = Some(at as u8);
}

// Can the first `need` terms of p become those of t from its entry `at` on, with its variables replaced as `bound` says?
fn match_front(
    p: &[u8],
    t: &[u8],
    at: usize,
    need: usize,
    bound: &mut [Option<u8>; SLOTS],
    nonces: &[u8],
) -> bool
    requires { Ready p.now t.now at need bound.old }
    ensures { (atoms : List Atom) → NoncesIn atoms nonces.now → NoncesBound atoms t.now bound.old
        → Says result (Made atoms p.now t.now at need bound.old) }
{
    if need == 0 {
        return true;
    }
    let x = slot(p);
    if x < SLOTS {
        if !may_take(x, t, at, nonces) || !bindable(t, bound[x], at) {
            return false;
        }
        if need == 1 {
            return true;
        }
        let past = at + entry::term_size(&t[4 * at..]);
        bind(bound, x, at);
        match_front(&p[4..], t, past, need - 1, bound, nonces)
    } else {
        same_entry(p, &t[4 * at..])
            && match_front(
                &p[4..],
                t,
                at + 1,
                need - 1 + entry::children(p[0]),
                bound,
                nonces,
            )
    }
}

// Do different symbols follow what both terms begin with?
pub fn differs(p: &[u8], t: &[u8], run: Run) -> bool
    requires { Begins p.now × Begins t.now × (length t.now ≤ most_term_bytes) × Ran 1 p.now t.now run.count run.left × ¬ Goes p.now t.now run.count run.left }
    ensures { result ≡ true → ¬ Common (term_of p.now) (term_of t.now) }
{
    let at = 4 * run.count;
    run.left != 0 && !is_variable(p[at]) && !is_variable(t[at])
}

// Is the term the pattern with its variables replaced by terms, behind what both begin with?
pub fn matches_behind(p: &[u8], t: &[u8], run: Run, nonces: &[u8]) -> bool
    requires { Begins p.now × Begins t.now × (length t.now ≤ most_term_bytes) × Ran 1 p.now t.now run.count run.left }
    ensures { (atoms : List Atom) → NoncesIn atoms nonces.now → result ≡ answer (match? atoms (term_of p.now) (term_of t.now)) }
{
    let at = run.count;
    match_front(&p[4 * at..], t, at, run.left, &mut [None; SLOTS], nonces)
}

// Is the term the pattern with its variables replaced by terms? Most tests end where the two first differ. `nonces` tells which
// atoms are nonces.
pub fn matches(p: &[u8], t: &[u8], nonces: &[u8]) -> bool
    requires { Begins p.now × Begins t.now × (length t.now ≤ most_term_bytes) }
    ensures { (atoms : List Atom) → NoncesIn atoms nonces.now → result ≡ answer (match? atoms (term_of p.now) (term_of t.now)) }
{
    let run = same_run(p, t);
    !differs(p, t, run) && matches_behind(p, t, run, nonces)
}
