// Atom entries: four bytes an entry, and what they say of an atom.
ghost use Rattle.std.specs.Prelude.{◌≡◌, List, ◌↔◌, ◌+◌, ◌/◌, ◌≤◌, length};
ghost use Rattle.terms.specs.declared.atom.Atom as declared;
ghost use Rattle.terms.specs.Atom.{nonce_kind, atoms_of, joined_atoms, atom_at, Nonce};
ghost use Rattle.terms.specs.Nonces.{most_nonces, NoncesIn};
ghost use Rattle.terms.specs.Decisions.{Says};

use crate::entry::value;

// Kinds of atoms, as bytes of the entry, which may be any: number 6 judges them (`AtomRight`).
pub const PRINCIPAL: u8 = 1;

pub const NONCE: u8 = 2;

pub const PUBLIC: u8 = 3;

pub const PRIVATE: u8 = 4;

pub const SYMMETRIC: u8 = 5;

// Foreign atoms are numbered from here on; all are nonces.
const FOREIGN: usize = 1000;

// Room for a flag for each atom.
pub const NONCES: usize = 256;

// What an atom entry says; all zero where there is none, as `atom_at` of specs/Atom.antt has it, and no Option.
#[derive(Clone, Copy, Default)]
pub struct Atom {
    pub kind: u8,
    pub known: u8,
    pub partner: usize,
}

// The atom of this number among those of one block.
fn atom_of(atoms: &[u8], n: usize) -> Atom
    ensures { (result ≡ atom_at (atoms_of atoms.now) n) × (result.partner ≤ 65535) }
{
    if atoms.len() / 4 <= n {
        return Atom::default();
    }
    let e = &atoms[4 * n..];
    Atom {
        kind: e[0],
        known: e[1],
        partner: value(e),
    }
}

// The atom of this number. Those of a second block, `more`, are numbered on from those of the first.
pub fn atom_at(atoms: &[u8], more: &[u8], n: usize) -> Atom
    ensures { (result ≡ atom_at (joined_atoms atoms.now more.now) n) × (result.partner ≤ 65535) }
{
    let count = atoms.len() / 4;
    if n < count {
        atom_of(atoms, n)
    } else {
        atom_of(more, n - count)
    }
}

// The flag of an atom of this kind.
fn nonce_flag(kind: u8) -> u8
    ensures { (result ≡ 1) ↔ (kind ≡ nonce_kind) }
{
    u8::from(kind == NONCE)
}

// Flags for the atoms of two blocks: 1 for a nonce, 0 for any other; bytes, since the judge keeps them in a table of bytes.
pub fn nonces(atoms: &[u8], more: &[u8]) -> [u8; NONCES]
    requires { length atoms.now / 4 + length more.now / 4 ≤ most_nonces }
    ensures { NoncesIn (joined_atoms atoms.now more.now) result }
{
    let count = atoms.len() / 4 + more.len() / 4;
    let mut flags = [0u8; NONCES];
    for n in 0..count {
        flags[n] = nonce_flag(atom_at(atoms, more, n).kind);
    }
    flags
}

// Is the atom of this number a nonce, by the flags? One past them may be a foreign one.
pub fn is_nonce(nonces: &[u8], n: usize) -> bool
    ensures { (atoms : List declared.Atom) → NoncesIn atoms nonces.now → Says result (Nonce atoms n) }
{
    if n < nonces.len() {
        nonces[n] == 1
    } else {
        FOREIGN <= n
    }
}
