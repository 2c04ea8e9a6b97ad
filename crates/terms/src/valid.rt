// What numbers 6, 7 and 8 ask of entries, four bytes each. The atoms are those of one block or two.
ghost use Rattle.std.specs.Prelude.{◌≡◌, ◌+◌, ◌/◌, ◌<◌, ◌≤◌, length, take};
ghost use Rattle.std.proofs.Math.Seq.{slice};
ghost use Rattle.terms.specs.Decisions.{Says};
ghost use Rattle.terms.specs.Decide.{answer};
ghost use Rattle.terms.specs.Entry.{Begins, term_of};
ghost use Rattle.terms.specs.Atom.{joined_atoms, listed, atom_at, NamedBack, AtomRight, wrong_atom};
ghost use Rattle.terms.specs.TermEntry.{wrong_entry};
ghost use Rattle.terms.specs.EntryTables.{listed_kind, plain_limit, marked_limit, limits_of, ByLimits};
ghost use Rattle.terms.specs.Each.{Each};
ghost use Rattle.terms.specs.OneTerm.{HasSymbol, encryption?};
ghost use Rattle.terms.specs.Reading.{one_term?};
ghost use Rattle.terms.specs.Count.{tags_of, SomeTags, are_terms};

use crate::atom::{Atom, NONCE, PRINCIPAL, PRIVATE, PUBLIC, SYMMETRIC, atom_at};
use crate::entry::{children, value};
use crate::tag::{ENCRYPTION, LAST, SIGNATURE, VARIABLES};
use blocks::kinds::Kind;
use blocks::wide;

// The atoms of one block or two: those of `more` are numbered on from those of `first`.
#[derive(Clone, Copy)]
struct Atoms<'a> {
    first: &'a [u8],
    more: &'a [u8],
}

impl Atoms<'_> {
    // How many there are.
    fn count(&self) -> usize
        ensures { result ≡ length (listed self.now) }
    {
        self.first.len() / 4 + self.more.len() / 4
    }

    // The atom of this number.
    fn at(&self, n: usize) -> Atom
        ensures { result ≡ atom_at (listed self.now) n }
    {
        atom_at(self.first, self.more, n)
    }

    // The partner of atom n is an atom of the other kind whose partner field is n.
    fn is_named_back(&self, n: usize, other: u8) -> bool
        requires { 0 < other }
        ensures { Says result (NamedBack (listed self.now) n other) }
    {
        let partner = self.at(self.at(n).partner);
        partner.kind == other && partner.partner == n
    }

    // Atom entry n is right.
    fn is_right(&self, n: usize) -> bool
        ensures { Says result (AtomRight (listed self.now) n) }
    {
        let atom = self.at(n);
        if 1 < atom.known {
            return false;
        }
        match atom.kind {
            PRINCIPAL | NONCE => atom.partner == 0,
            PUBLIC => self.is_named_back(n, PRIVATE),
            PRIVATE => self.is_named_back(n, PUBLIC),
            SYMMETRIC => atom.partner == n,
            _ => false,
        }
    }

    // The kind of atom n, 1 to 5; 0 for no atom and for no kind.
    fn listed_kind(&self, n: usize) -> u8
        ensures { result ≡ listed_kind (listed self.now) n }
    {
        let kind = self.at(n).kind;
        if kind <= SYMMETRIC { kind } else { 0 }
    }

    // The term entry that stands first is right: its value is below its tag's limit; that of an encryption is the number of a key,
    // an atom of kind 3 to 5, and that of a signature a private key's.
    fn is_right_entry(&self, limits: &[usize; LAST + 1], e: &[u8]) -> bool
        requires { 4 ≤ length e.now }
        ensures { Says result (ByLimits (listed self.now) limits.now e.now) }
    {
        let tag = e[0];
        if e[1] != 0 || SIGNATURE < tag {
            return false;
        }
        let n = value(e);
        if limits[wide(tag)] <= n {
            return false;
        }
        match tag {
            ENCRYPTION => PUBLIC <= self.listed_kind(n),
            SIGNATURE => self.listed_kind(n) == PRIVATE,
            _ => true,
        }
    }
}

// Number 6: the first atom entry that is not right, if there is one.
pub fn wrong_atom(atoms: &[u8], more: &[u8]) -> Option<usize>
    ensures { result ≡ wrong_atom (joined_atoms atoms.now more.now) }
{
    let all = Atoms { first: atoms, more };
    (0..all.count()).find(|&i| !all.is_right(i))
}

// How many plain variables a block of this kind may have, and plain nonce variables: a secret none.
#[tactic(auto, unfolding(crate::specs::EntryTables::plain_limit))]
fn plain_limit(kind: u8) -> usize
    ensures { result ≡ plain_limit kind }
{
    match Kind::try_from(kind) {
        Ok(Kind::Secret) => 0,
        _ => VARIABLES,
    }
}

// How many marked variables a block of this kind may have, and marked nonce variables: any but a pattern none.
#[tactic(auto, unfolding(crate::specs::EntryTables::marked_limit))]
fn marked_limit(kind: u8) -> usize
    ensures { result ≡ marked_limit kind }
{
    match Kind::try_from(kind) {
        Ok(Kind::Good | Kind::Bad) => VARIABLES,
        _ => 0,
    }
}

// For each tag, the limit that the values of its entries stay below.
fn limits(kind: u8, count: usize) -> [usize; LAST + 1]
    ensures { result ≡ limits_of kind count }
{
    let plain = plain_limit(kind);
    let marked = marked_limit(kind);
    [0, count, 1, count, plain, marked, plain, marked, 1, count]
}

// Number 7: the first entry that is not right, if there is one.
pub fn wrong_entry(atoms: &[u8], more: &[u8], kind: u8, e: &[u8]) -> Option<usize>
    ensures { result ≡ wrong_entry (joined_atoms atoms.now more.now) kind e.now }
{
    let all = Atoms { first: atoms, more };
    let limits = limits(kind, all.count());
    (0..e.len() / 4).find(|&i| !all.is_right_entry(&limits, &e[4 * i..]))
}

// Room for the tags of a block's entries.
const TAGS: usize = 128;

// The tags of the entries, a byte for each.
fn tags(e: &[u8]) -> [u8; TAGS]
    requires { length e.now ≤ 512 }
    ensures { take (length e.now / 4) result ≡ tags_of e.now }
{
    let mut tags = [0u8; TAGS];
    for k in 0..e.len() / 4 {
        tags[k] = e[4 * k];
    }
    tags
}

// The entries left, from entry `at` up to entry `count`, are so many terms.
fn are_terms(tags: &[u8; TAGS], at: usize, count: usize, need: usize) -> bool
    requires { (count ≤ 128) × (need ≤ at + 1) × SomeTags tags.now count }
    ensures { result ≡ are_terms (slice at count tags.now) need }
{
    if count <= at {
        return need == 0;
    }
    need != 0 && are_terms(tags, at + 1, count, need - 1 + children(tags[at]))
}

// Number 8: the entries are exactly one term, walked entry by entry.
pub fn is_one_term(e: &[u8]) -> bool
    requires { Each HasSymbol e.now × (length e.now ≤ 512) }
    ensures { result ≡ answer (one_term? e.now) }
{
    let tags = tags(e);
    are_terms(&tags, 0, e.len() / 4, 1)
}

// Number 8: the root is an encryption.
pub fn is_encryption(e: &[u8]) -> bool
    requires { Begins e.now }
    ensures { result ≡ answer (encryption? (term_of e.now)) }
{
    e[0] == ENCRYPTION
}
