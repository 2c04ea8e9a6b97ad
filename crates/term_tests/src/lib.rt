// The term layer's tests for programs in other languages: any bytes are taken, and what is no term is said to be none. `atoms`
// are atom entries, any bytes again, of which only the kinds count.

#![tactic(auto)]

ghost use Rattle.std.specs.Prelude.{◌≡◌, true, ◌&&◌};
ghost use Rattle.term_tests.specs.Asked.{is_term, Term, share_number, match_number, same_number};

use blocks::kinds::Kind;
use terms::atom::nonces;
use terms::entry::sizes;
use terms::matching::{matches, same};
use terms::sharing::shares;
use terms::valid::{is_one_term, wrong_entry};

// 252 atoms.
const MOST_ATOM_BYTES: usize = 1008;

// 63 entries.
const MOST_TERM_BYTES: usize = 252;

// What is answered where one of the two is no term, or there are more atoms.
const NO_TERM: u32 = 2;

// The bytes are one term of at most 63 entries, over these atoms, at most 252, with variables of all sorts.
#[tactic(auto, unfolding(crate::specs::Asked::is_term))]
fn is_term(atoms: &[u8], e: &[u8]) -> bool
    ensures { result ≡ is_term atoms.now e.now }
{
    atoms.len() <= MOST_ATOM_BYTES
        && e.len() <= MOST_TERM_BYTES
        && e.len() % 4 == 0
        && wrong_entry(atoms, &[], u8::from(Kind::Good), e).is_none()
        && is_one_term(e)
}

// Both are.
#[tactic(auto, using(crate::proofs::AskedLaws::term_is))]
fn are_terms(atoms: &[u8], s: &[u8], t: &[u8]) -> bool
    ensures answer { result ≡ (is_term atoms.now s.now && is_term atoms.now t.now) }
    ensures terms { result ≡ true → Term atoms.now s.now × Term atoms.now t.now }
{
    is_term(atoms, s) && is_term(atoms, t)
}

// 1 if the terms share an instance, 0 if not, 2 if one of them is no term or there are more than 252 atoms.
#[tactic(auto, unfolding(crate::specs::Asked::share_number))]
#[unsafe(no_mangle)]
pub extern "C" fn zepayong_shares(atoms: &[u8], s: &[u8], t: &[u8]) -> u32
    ensures { result ≡ share_number atoms.now s.now t.now }
{
    if !are_terms(atoms, s, t) {
        return NO_TERM;
    }
    let told = nonces(atoms, &[]);
    u32::from(shares(s, t, &sizes(s), &sizes(t), &told))
}

// 1 if t is the pattern p with its variables replaced by terms, 0 if not, 2 if one of them is no term or there are more than 252 atoms.
#[tactic(auto, unfolding(crate::specs::Asked::match_number))]
#[unsafe(no_mangle)]
pub extern "C" fn zepayong_matches(atoms: &[u8], p: &[u8], t: &[u8]) -> u32
    ensures { result ≡ match_number atoms.now p.now t.now }
{
    if !are_terms(atoms, p, t) {
        return NO_TERM;
    }
    let told = nonces(atoms, &[]);
    u32::from(matches(p, t, &told))
}

// 1 if the terms are the same, symbol for symbol, 0 if not, 2 if one of them is no term or there are more than 252 atoms.
#[tactic(auto, unfolding(crate::specs::Asked::same_number))]
#[unsafe(no_mangle)]
pub extern "C" fn zepayong_same(atoms: &[u8], s: &[u8], t: &[u8]) -> u32
    ensures { result ≡ same_number atoms.now s.now t.now }
{
    if !are_terms(atoms, s, t) {
        return NO_TERM;
    }
    u32::from(same(s, t))
}
