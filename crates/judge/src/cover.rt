// Numbers 15 and 12, on the entries of a rule: the subterm of a place is the part from its entry on. What stands below a hash
// is at no place.
// Contracts say which flags are on. What is remembered is so (`Remembered`); which answers are remembered is left open, since
// one that is missing is asked for.
ghost use Rattle.std.specs.Prelude.{◌≡◌, true, ◌+◌, ◌*◌, ◌/◌, ◌<◌, ◌≤◌, length, get_or};
ghost use Rattle.blocks.specs.Kinds.{secret_kind, good_kind, bad_kind, ListsTerm, byte_of};
ghost use Rattle.blocks.specs.Block.{first_entries, second_entries};
ghost use Rattle.terms.specs.Entry.{Begins, term_of, size};
ghost use Rattle.terms.specs.First.{FirstNot};
ghost use Rattle.terms.specs.Decisions.{Says};
ghost use Rattle.terms.specs.TermGraph.{SizesOf};
ghost use Rattle.terms.specs.Tag.{signature_tag, children_of};
ghost use Rattle.judge.specs.Listed.{atoms_in, HoldsAt, AnyListed, Searching, IsSecret, NeverHat, SharesUnmarked, slot_at};
ghost use Rattle.judge.specs.File.{block_count, certificate_of, rule_of};
ghost use Rattle.judge.specs.Laid.{Laid, RuleBlock};
ghost use Rattle.judge.specs.Hat.{Marked};
ghost use Rattle.judge.specs.Cover.{Risky};
ghost use Rattle.judge.specs.CoverEntries.{sub_at, On, Raised, Cleared, MarkOver, MarkAround, Lays, LaysAround, Laying, LayingAround, Standing, HatOver, HatBelow, Flags, Entries, OpenAmong, OpenFlags};
ghost use Rattle.judge.specs.CoverEntries.{ClosedBelow, Flagged, FlaggedWith, SomeFlagged, IndexedBelow, Indexed, Remembered, RiskyEntry, AskedEntry, Wanted, WantedEntry, Concluded};
ghost use Rattle.judge.specs.Judgement.{rule_found};

use crate::flag::FLAGS;
use crate::listed::ROOT_SLOTS;
use crate::sized::SizedTerm;
use crate::tables::Tables;
use crate::{flag, listed};
use blocks::kinds::Kind;
use blocks::{limits, wide};
use terms::tag::{ENCRYPTION, PAIR, is_marked, is_variable};
use terms::{entry, matching};

// What is wrong with a rule: a listed secret at this open entry of the premise, or else a risky place at this entry of the
// conclusion that is not covered.
#[derive(Clone, Copy)]
pub enum RuleFault {
    PremiseAt(usize),
    ConclusionAt(usize),
}

// Lays the pattern p on the term at entry h: every entry at or below one of its marks is flagged.
fn mark_cover(p: &[u8], e: &[u8], h: usize, marked: &mut [bool; FLAGS])
    requires { Laying p.now e.now h }
    ensures { Raised marked.old marked.new (MarkOver (term_of p.now) (sub_at e.now h) h) }
{
    let tag = p[0];
    if tag == PAIR {
        mark_cover(&p[4..], e, h + 1, marked);
        let past = 1 + entry::term_size(&p[4..]);
        let right = h + 1 + entry::term_size(&e[4 * (h + 1)..]);
        mark_cover(&p[4 * past..], e, right, marked);
    } else if entry::children(tag) == 1 {
        mark_cover(&p[4..], e, h + 1, marked);
    } else if is_marked(tag) {
        flag::paint(marked, h, h + entry::term_size(&e[4 * h..]), true);
    }
}

// Lays the pattern of block i, if it is of this kind and matches the term at entry h.
fn lay_pattern(
    tables: &Tables,
    i: usize,
    kind: Kind,
    e: &[u8],
    h: usize,
    marked: &mut [bool; FLAGS],
)
    requires { Standing tables.now.file.now e.now h × ListsTerm (byte_of kind) × (i < block_count tables.now.file.now) }
    ensures { Raised marked.old marked.new (λ k. HoldsAt tables.now.file.now (byte_of kind) (Lays (atoms_in tables.now.file.now) (sub_at e.now h) h k) i) }
{
    if listed::is_kind(tables.file, i, kind) {
        let p = listed::term_at(tables.file, i);
        if matching::matches(p, &e[4 * h..], tables.nonces()) {
            mark_cover(p, e, h, marked);
        }
    }
}

// Lays every pattern of this kind that matches the term at entry h, from the last block back to the first of a lower kind.
// (`drop_exceptions` walks so too: the step as a closure that changes flags would tell the proof nothing of them.)
fn lay_patterns(tables: &Tables, kind: Kind, e: &[u8], h: usize, marked: &mut [bool; FLAGS])
    requires { Standing tables.now.file.now e.now h × ListsTerm (byte_of kind) }
    ensures { Raised marked.old marked.new (λ k. AnyListed (certificate_of tables.now.file.now) (byte_of kind) (Lays (atoms_in tables.now.file.now) (sub_at e.now h) h k)) }
{
    let count = tables.file.len() / limits::BLOCK_SIZE;
    for i in (0..count).rev() {
        lay_pattern(tables, i, kind, e, h, marked);
        if listed::kind_at(tables.file, i) < u8::from(kind) {
            return;
        }
    }
}

// The entries at or below a mark of a pattern of this kind that matches the term at entry h.
fn marked_places(tables: &Tables, kind: Kind, e: &[u8], h: usize) -> [bool; FLAGS]
    requires { Standing tables.now.file.now e.now h × ListsTerm (byte_of kind) }
    ensures { Flags result (λ k. AnyListed (certificate_of tables.now.file.now) (byte_of kind) (Lays (atoms_in tables.now.file.now) (sub_at e.now h) h k)) }
{
    let mut marked = [false; FLAGS];
    lay_patterns(tables, kind, e, h, &mut marked);
    marked
}

// Have entries of these tags as many children?
fn is_alike(tag: u8, other: u8) -> bool
    requires { (tag ≤ signature_tag) × (other ≤ signature_tag) }
    ensures { Says result (children_of tag ≡ children_of other) }
{
    tag == other || entry::children(tag) == entry::children(other)
}

// Lays the pattern's part at entry i of p on the term at entry h: every entry with a mark of it at, above or below is
// flagged. Where one has not as many children as the other, all marks of the part lie at or below the term's entry. From entry
// `last` on p has no marks. Has the part one?
fn mark_around(
    p: &[u8],
    y: &[u8],
    last: usize,
    i: usize,
    term: &SizedTerm,
    h: usize,
    around: &mut [bool; FLAGS],
) -> bool
    requires { LayingAround p.now y.now last i term.now.e.now term.now.z.now h }
    ensures marked { Says result (Marked (sub_at p.now i)) }
    ensures flags { Raised around.old around.new (MarkAround (sub_at p.now i) (sub_at term.now.e.now h) h) }
{
    if last <= i {
        return false;
    }
    let tag = p[4 * i];
    if is_marked(tag) {
        flag::paint(around, h, entry::end_of(term.e, term.z, h), true);
        return true;
    }
    if !is_alike(tag, term.e[4 * h]) {
        let hidden = listed::has_mark(p, i, i + wide(y[i]));
        return flag::raise(around, h, hidden);
    }
    if tag == PAIR {
        let left = mark_around(p, y, last, i + 1, term, h + 1, around);
        let past = i + 1 + wide(y[i + 1]);
        let right = mark_around(p, y, last, past, term, h + 1 + wide(term.z[h + 1]), around);
        return flag::raise(around, h, left | right);
    }
    if entry::children(tag) == 1 {
        let inner = mark_around(p, y, last, i + 1, term, h + 1, around);
        return flag::raise(around, h, inner);
    }
    false
}

// The entries of the term at entry h with a mark of the pattern p at, above or below them.
fn marks_around(p: &[u8], y: &[u8], last: usize, term: &SizedTerm, h: usize) -> [bool; FLAGS]
    requires { LayingAround p.now y.now last 0 term.now.e.now term.now.z.now h }
    ensures { Flags result (MarkAround (sub_at p.now 0) (sub_at term.now.e.now h) h) }
{
    let mut around = [false; FLAGS];
    mark_around(p, y, last, 0, term, h, &mut around);
    around
}

// Puts off the flags of the entries that have a mark of block i at, above or below them, if it is a bad pattern that shares an
// instance with the term at entry h. Whether it does is asked only if one of those flags is on.
fn drop_exception(tables: &Tables, i: usize, term: &SizedTerm, h: usize, hats: &mut [bool; FLAGS])
    requires { Standing tables.now.file.now term.now.e.now h × (i < block_count tables.now.file.now) }
    ensures { Cleared hats.old hats.new (λ k. HoldsAt tables.now.file.now bad_kind (LaysAround (atoms_in tables.now.file.now) (sub_at term.now.e.now h) h k) i) }
{
    if listed::is_kind(tables.file, i, Kind::Bad) {
        let last = tables.last_mark_of(i);
        if last != 0 {
            let p = listed::term_at(tables.file, i);
            let around = marks_around(p, tables.row(i), last, term, h);
            if flag::some_both(hats, &around) {
                let (e, z) = (term.e, term.z);
                if listed::shares_among(tables, Kind::Bad, i, i + 1, &e[4 * h..], &z[h..]) {
                    flag::clear(hats, &around);
                }
            }
        }
    }
}

// The same for every bad pattern, from the last block back to the first of a lower kind.
fn drop_exceptions(tables: &Tables, term: &SizedTerm, h: usize, hats: &mut [bool; FLAGS])
    requires { Standing tables.now.file.now term.now.e.now h }
    ensures { Cleared hats.old hats.new (λ k. AnyListed (certificate_of tables.now.file.now) bad_kind (LaysAround (atoms_in tables.now.file.now) (sub_at term.now.e.now h) h k)) }
{
    if !tables.some_marked() {
        return;
    }
    let count = tables.file.len() / limits::BLOCK_SIZE;
    for i in (0..count).rev() {
        drop_exception(tables, i, term, h, hats);
        if listed::kind_at(tables.file, i) < u8::from(Kind::Bad) {
            return;
        }
    }
}

// Does the encryption at entry h share an instance with a bad pattern without marks? The answer is remembered.
fn shares_bad(
    tables: &Tables,
    term: &SizedTerm,
    h: usize,
    shared: &mut [Option<bool>; FLAGS],
) -> bool
    requires { Standing tables.now.file.now term.now.e.now h × Remembered (SharesUnmarked (certificate_of tables.now.file.now)) term.now.e.now shared.old }
    ensures answer { Says result (SharesUnmarked (certificate_of tables.now.file.now) (sub_at term.now.e.now h)) }
    ensures memo { Remembered (SharesUnmarked (certificate_of tables.now.file.now)) term.now.e.now shared.new }
{
    let (e, z) = (term.e, term.z);
    let (t, part) = (&e[4 * h..], &z[h..]);
    flag::recalled(shared, h, || listed::shares_bad(tables, t, part))
}

// Puts the flags off for which the encryption at entry h is a sure hat.
fn take_hat(
    tables: &Tables,
    term: &SizedTerm,
    h: usize,
    shared: &mut [Option<bool>; FLAGS],
    bare: &mut [bool; FLAGS],
)
    requires { Standing tables.now.file.now term.now.e.now h × Remembered (SharesUnmarked (certificate_of tables.now.file.now)) term.now.e.now shared.old }
    ensures memo { Remembered (SharesUnmarked (certificate_of tables.now.file.now)) term.now.e.now shared.new }
    ensures flags { Cleared bare.old bare.new (HatOver (certificate_of tables.now.file.now) (sub_at term.now.e.now h) h) }
{
    if !shares_bad(tables, term, h, shared) {
        let mut hats = marked_places(tables, Kind::Good, term.e, h);
        drop_exceptions(tables, term, h, &mut hats);
        flag::clear(bare, &hats);
    }
}

// The same for any entry h: only an encryption with flags on below it is asked.
fn take_below(
    tables: &Tables,
    term: &SizedTerm,
    h: usize,
    shared: &mut [Option<bool>; FLAGS],
    bare: &mut [bool; FLAGS],
)
    requires { Standing tables.now.file.now term.now.e.now h × Remembered (SharesUnmarked (certificate_of tables.now.file.now)) term.now.e.now shared.old }
    ensures memo { Remembered (SharesUnmarked (certificate_of tables.now.file.now)) term.now.e.now shared.new }
    ensures flags { Cleared bare.old bare.new (HatOver (certificate_of tables.now.file.now) (sub_at term.now.e.now h) h) }
{
    if term.e[4 * h] == ENCRYPTION {
        if flag::some_on(bare, h + 1, entry::end_of(term.e, term.z, h)) {
            take_hat(tables, term, h, shared, bare);
        }
    }
}

// Puts the flags off for which there is a sure hat. (`close_places` is the same walk with another step: to hand the step in is
// no plainer, as the two promise different things.)
fn take_hats(
    tables: &Tables,
    e: &[u8],
    shared: &mut [Option<bool>; FLAGS],
    bare: &mut [bool; FLAGS],
)
    requires { Concluded tables.now.file.now e.now × Remembered (SharesUnmarked (certificate_of tables.now.file.now)) e.now shared.old }
    ensures memo { Remembered (SharesUnmarked (certificate_of tables.now.file.now)) e.now shared.new }
    ensures flags { Cleared bare.old bare.new (HatBelow (certificate_of tables.now.file.now) e.now (size (term_of e.now))) }
{
    let z = entry::sizes(e);
    let term = SizedTerm { e, z: &z };
    for h in 0..e.len() / 4 {
        take_below(tables, &term, h, shared, bare);
    }
}

// May every open place have the term above it?
fn never_hat(tables: &Tables, t: &[u8], z: &[u8]) -> bool
    requires { Searching tables.now.file.now good_kind t.now × SizesOf t.now z.now }
    ensures { Says result (NeverHat (certificate_of tables.now.file.now) (term_of t.now)) }
{
    !listed::shares_listed(tables, Kind::Good, t, z)
        || listed::is_listed_match(tables, Kind::Bad, t)
}

// The same of the encryption at entry h. The answer is remembered.
fn never_hat_at(
    tables: &Tables,
    term: &SizedTerm,
    h: usize,
    above: &mut [Option<bool>; FLAGS],
) -> bool
    requires { Standing tables.now.file.now term.now.e.now h × Remembered (NeverHat (certificate_of tables.now.file.now)) term.now.e.now above.old }
    ensures answer { Says result (NeverHat (certificate_of tables.now.file.now) (sub_at term.now.e.now h)) }
    ensures memo { Remembered (NeverHat (certificate_of tables.now.file.now)) term.now.e.now above.new }
{
    let (e, z) = (term.e, term.z);
    let (t, part) = (&e[4 * h..], &z[h..]);
    flag::recalled(above, h, || never_hat(tables, t, part))
}

// The entries that a marked bad pattern leaves open below the encryption at entry h.
fn excepted_places(tables: &Tables, e: &[u8], h: usize) -> [bool; FLAGS]
    requires { Standing tables.now.file.now e.now h }
    ensures { Flags result (λ k. AnyListed (certificate_of tables.now.file.now) bad_kind (Lays (atoms_in tables.now.file.now) (sub_at e.now h) h k)) }
{
    if tables.some_marked() {
        marked_places(tables, Kind::Bad, e, h)
    } else {
        [false; FLAGS]
    }
}

// Closes the entries strictly below the encryption at entry h that may not have it above, up to the end of its term.
fn close_under(
    tables: &Tables,
    term: &SizedTerm,
    h: usize,
    end: usize,
    above: &mut [Option<bool>; FLAGS],
    opened: &mut [bool; FLAGS],
)
    requires { Standing tables.now.file.now term.now.e.now h × Remembered (NeverHat (certificate_of tables.now.file.now)) term.now.e.now above.old × (get_or term.now.e.now (4 * h) 0 ≡ 3) × (end ≡ h + size (sub_at term.now.e.now h)) }
    ensures memo { Remembered (NeverHat (certificate_of tables.now.file.now)) term.now.e.now above.new }
    ensures flags { ClosedBelow (certificate_of tables.now.file.now) opened.old opened.new term.now.e.now h }
{
    if !never_hat_at(tables, term, h, above) {
        let kept = excepted_places(tables, term.e, h);
        flag::narrow(opened, h + 1, end, &kept);
    }
}

// The same for any entry h: only an encryption with flags on below it is asked.
fn close_below(
    tables: &Tables,
    term: &SizedTerm,
    h: usize,
    above: &mut [Option<bool>; FLAGS],
    opened: &mut [bool; FLAGS],
)
    requires { Standing tables.now.file.now term.now.e.now h × Remembered (NeverHat (certificate_of tables.now.file.now)) term.now.e.now above.old }
    ensures memo { Remembered (NeverHat (certificate_of tables.now.file.now)) term.now.e.now above.new }
    ensures flags { ClosedBelow (certificate_of tables.now.file.now) opened.old opened.new term.now.e.now h }
{
    if term.e[4 * h] == ENCRYPTION {
        let end = entry::end_of(term.e, term.z, h);
        if flag::some_on(opened, h + 1, end) {
            close_under(tables, term, h, end, above, opened);
        }
    }
}

// Puts the flags off of the entries that are not open places of e's term.
fn close_places(
    tables: &Tables,
    e: &[u8],
    above: &mut [Option<bool>; FLAGS],
    opened: &mut [bool; FLAGS],
)
    requires { Concluded tables.now.file.now e.now × Remembered (NeverHat (certificate_of tables.now.file.now)) e.now above.old × Flagged e.now opened.old }
    ensures memo { Remembered (NeverHat (certificate_of tables.now.file.now)) e.now above.new }
    ensures flags { OpenAmong (certificate_of tables.now.file.now) e.now opened.old (size (term_of e.now)) opened.new }
{
    let z = entry::sizes(e);
    let term = SizedTerm { e, z: &z };
    for h in 0..e.len() / 4 {
        close_below(tables, &term, h, above, opened);
    }
}

// Of the wanted entries of e's term, those that are open places.
fn open_places(
    tables: &Tables,
    e: &[u8],
    above: &mut [Option<bool>; FLAGS],
    wanted: [bool; FLAGS],
) -> [bool; FLAGS]
    requires { Laid tables.now.file.now × Flagged e.now wanted × Remembered (NeverHat (certificate_of tables.now.file.now)) e.now above.old }
    ensures memo { Remembered (NeverHat (certificate_of tables.now.file.now)) e.now above.new }
    ensures flags { OpenFlags (certificate_of tables.now.file.now) e.now wanted result }
{
    let mut opened = wanted;
    if flag::some_on(&opened, 0, FLAGS) {
        close_places(tables, e, above, &mut opened);
    }
    opened
}

// Is entry k flagged, and a listed secret there?
fn secret_at(tables: &Tables, e: &[u8], opened: &[bool; FLAGS], k: usize) -> bool
    requires { Laid tables.now.file.now × Flagged e.now opened.now × (4 * k < length e.now) }
    ensures { Says result (FlaggedWith e.now opened.now (IsSecret (certificate_of tables.now.file.now)) k) }
{
    opened[k] && is_secret(tables, &e[4 * k..])
}

// The first flagged entry at which a listed secret stands, if there is one.
fn first_secret(tables: &Tables, e: &[u8], opened: &[bool; FLAGS]) -> Option<usize>
    requires { Laid tables.now.file.now × Flagged e.now opened.now }
    ensures { FirstNot (λ k. ¬ FlaggedWith e.now opened.now (IsSecret (certificate_of tables.now.file.now)) k) (length e.now / 4) result }
{
    for k in 0..e.len() / 4 {
        if secret_at(tables, e, opened, k) {
            return Some(k);
        }
    }
    None
}

// Is entry k flagged, and the term t there?
fn same_at(e: &[u8], flags: &[bool; FLAGS], k: usize, t: &[u8]) -> bool
    requires { Flagged e.now flags.now × (4 * k < length e.now) × Begins t.now }
    ensures { Says result (FlaggedWith e.now flags.now (λ s. s ≡ term_of t.now) k) }
{
    flags[k] && matching::same(&e[4 * k..], t)
}

// Does the term t, symbol for symbol, stand at a flagged entry? All are asked.
fn stands_among(e: &[u8], flags: &[bool; FLAGS], t: &[u8]) -> bool
    requires { Flagged e.now flags.now × Begins t.now }
    ensures { Says result (SomeFlagged e.now flags.now (λ s. s ≡ term_of t.now)) }
{
    for k in 0..e.len() / 4 {
        if same_at(e, flags, k, t) {
            return true;
        }
    }
    false
}

// Notes entry k in the table of the flagged entries, if it is flagged.
fn note(e: &[u8], flags: &[bool; FLAGS], k: usize, index: &mut [u8; ROOT_SLOTS])
    requires { Flagged e.now flags.now × (4 * k < length e.now) × IndexedBelow e.now flags.now k index.old }
    ensures { IndexedBelow e.now flags.now (k + 1) index.new }
{
    if flags[k] {
        index[listed::root_slot(&e[4 * k..])] = (k + 1) as u8;
    }
}

// The flagged entries by the slots of their roots, counted from 1: an `Option` would double what is cleared for each rule. Which
// of several with one slot is noted is left open: any serves, as `stands_at` asks all entries where it is another.
fn index_of(e: &[u8], flags: &[bool; FLAGS]) -> [u8; ROOT_SLOTS]
    requires { Flagged e.now flags.now }
    ensures { Indexed e.now flags.now result }
{
    let mut index = [0u8; ROOT_SLOTS];
    for k in 0..e.len() / 4 {
        note(e, flags, k, &mut index);
    }
    index
}

// Does the term t, symbol for symbol, stand at a flagged entry? Most are found, or not, at the entry of their slot.
fn stands_at(e: &[u8], flags: &[bool; FLAGS], index: &[u8; ROOT_SLOTS], t: &[u8]) -> bool
    requires { Flagged e.now flags.now × Indexed e.now flags.now index.now × Begins t.now }
    ensures { Says result (SomeFlagged e.now flags.now (λ s. s ≡ term_of t.now)) }
{
    let n = wide(index[listed::root_slot(t)]);
    n != 0 && (matching::same(&e[4 * (n - 1)..], t) || stands_among(e, flags, t))
}

// Is the term a listed secret?
fn is_secret(tables: &Tables, t: &[u8]) -> bool
    requires { Searching tables.now.file.now secret_kind t.now }
    ensures { Says result (IsSecret (certificate_of tables.now.file.now) (term_of t.now)) }
{
    listed::may_be_secret(tables.roots, t) && listed::is_listed_secret(tables.file, t)
}

// Is the term a variable, or does it share an instance with a secret?
fn is_risky(tables: &Tables, t: &[u8]) -> bool
    requires { Searching tables.now.file.now secret_kind t.now }
    ensures { Says result (Risky (certificate_of tables.now.file.now) (term_of t.now)) }
{
    is_variable(t[0]) || listed::may_be_secret(tables.roots, t) && listed::shares_secret(tables, t)
}

// The risky entries of a conclusion, of those that stand at places.
fn risky_places(tables: &Tables, e: &[u8]) -> [bool; FLAGS]
    requires { Concluded tables.now.file.now e.now }
    ensures { Flags result (RiskyEntry (certificate_of tables.now.file.now) e.now) }
{
    let mut risky = [false; FLAGS];
    let count = e.len() / 4;
    // What lies below a hash is passed over, so k steps by `next_place`.
    let mut k = 0;
    while k < count {
        risky[k] = is_risky(tables, &e[4 * k..]);
        k = entry::next_place(e, k);
    }
    risky
}

// The same if they are asked for, and else none.
fn asked_places(tables: &Tables, e: &[u8], asked: bool) -> [bool; FLAGS]
    requires { Concluded tables.now.file.now e.now }
    ensures { Flags result (AskedEntry asked (certificate_of tables.now.file.now) e.now) }
{
    if asked {
        risky_places(tables, e)
    } else {
        [false; FLAGS]
    }
}

// Has neither table anything for the slot of the term's root?
fn is_absent(roots: &[u8; ROOT_SLOTS], index: &[u8; ROOT_SLOTS], t: &[u8]) -> bool
    requires { Begins t.now }
    ensures { Says result ((get_or roots.now (slot_at t.now) 0 ≡ 0) × (get_or index.now (slot_at t.now) 0 ≡ 0)) }
{
    let n = listed::root_slot(t);
    roots[n] == 0 && index[n] == 0
}

// Does it matter whether entry k of the premise is open?
fn is_wanted(
    tables: &Tables,
    premise: &[u8],
    conclusion: &[u8],
    risky: &[bool; FLAGS],
    index: &[u8; ROOT_SLOTS],
    k: usize,
) -> bool
    requires { Laid tables.now.file.now × Entries premise.now × (4 * k < length premise.now) × Flagged conclusion.now risky.now
        × Indexed conclusion.now risky.now index.now }
    ensures { Says result (Wanted (certificate_of tables.now.file.now) premise.now conclusion.now risky.now k) }
{
    let t = &premise[4 * k..];
    !is_absent(tables.roots, index, t)
        && (is_secret(tables, t) || stands_at(conclusion, risky, index, t))
}

// The entries of the premise for which it matters, of those that stand at places.
fn wanted_places(
    tables: &Tables,
    premise: &[u8],
    conclusion: &[u8],
    risky: &[bool; FLAGS],
) -> [bool; FLAGS]
    requires { Laid tables.now.file.now × Entries premise.now × Flagged conclusion.now risky.now }
    ensures { Flags result (WantedEntry (certificate_of tables.now.file.now) premise.now conclusion.now risky.now) }
{
    let index = index_of(conclusion, risky);
    let mut wanted = [false; FLAGS];
    let count = premise.len() / 4;
    let mut k = 0;
    while k < count {
        wanted[k] = is_wanted(tables, premise, conclusion, risky, &index, k);
        k = entry::next_place(premise, k);
    }
    wanted
}

// Is entry k of the conclusion flagged, and its subterm at a flagged entry of the premise?
fn is_open(
    premise: &[u8],
    opened: &[bool; FLAGS],
    conclusion: &[u8],
    risky: &[bool; FLAGS],
    index: &[u8; ROOT_SLOTS],
    k: usize,
) -> bool
    requires { Flagged premise.now opened.now × Flagged conclusion.now risky.now × (4 * k < length conclusion.now)
        × Indexed premise.now opened.now index.now }
    ensures { Says result (On risky.now k × SomeFlagged premise.now opened.now (λ s. s ≡ sub_at conclusion.now k)) }
{
    risky[k] && stands_at(premise, opened, index, &conclusion[4 * k..])
}

// Of the flagged entries of the conclusion, those whose subterm stands at no flagged entry of the premise.
fn bare_places(
    premise: &[u8],
    opened: &[bool; FLAGS],
    conclusion: &[u8],
    risky: &[bool; FLAGS],
) -> [bool; FLAGS]
    requires { Flagged premise.now opened.now × Flagged conclusion.now risky.now }
    ensures { Cleared risky.now result (λ k. SomeFlagged premise.now opened.now (λ s. s ≡ sub_at conclusion.now k)) }
{
    let index = index_of(premise, opened);
    let mut bare = *risky;
    for k in 0..conclusion.len() / 4 {
        bare[k] &= !is_open(premise, opened, conclusion, risky, &index, k);
    }
    bare
}

// What 15, and else 12 if it is asked, finds of a rule. Only what matters is looked for: whether an entry of the premise is
// open, once for both numbers, if a secret or a risky subterm stands there, and whether there is a sure hat for a risky
// entry that stands at no open place. What is known of the encryptions of the premise and the conclusion is handed in and on.
pub fn rule_found(
    tables: &Tables,
    above: &mut [Option<bool>; FLAGS],
    shared: &mut [Option<bool>; FLAGS],
    block: &[u8],
    asked: bool,
) -> Option<RuleFault>
    requires { Laid tables.now.file.now × RuleBlock block.now
        × Remembered (NeverHat (certificate_of tables.now.file.now)) (first_entries block.now) above.old
        × Remembered (SharesUnmarked (certificate_of tables.now.file.now)) (second_entries block.now) shared.old }
    ensures premise { Remembered (NeverHat (certificate_of tables.now.file.now)) (first_entries block.now) above.new }
    ensures conclusion { Remembered (SharesUnmarked (certificate_of tables.now.file.now)) (second_entries block.now) shared.new }
    ensures answer { result ≡ rule_found asked (certificate_of tables.now.file.now) (rule_of block.now) }
{
    let premise = blocks::first_entries(block);
    let conclusion = blocks::second_entries(block);
    let risky = asked_places(tables, conclusion, asked);
    let wanted = wanted_places(tables, premise, conclusion, &risky);
    let opened = open_places(tables, premise, above, wanted);
    if let Some(k) = first_secret(tables, premise, &opened) {
        return Some(RuleFault::PremiseAt(k));
    }
    if !asked {
        return None;
    }
    let mut bare = bare_places(premise, &opened, conclusion, &risky);
    take_hats(tables, conclusion, shared, &mut bare);
    flag::first_on(&bare, conclusion.len() / 4).map(RuleFault::ConclusionAt)
}
