// Searches through the blocks of one kind, each a part of the file, and numbers 9, 10 and 11.
ghost use Rattle.std.specs.Prelude.{◌≡◌, false, ◌↔◌, ◌+◌, ◌*◌, ◌/◌, ◌<◌, ◌≤◌, length, get_or};
ghost use Rattle.blocks.specs.Kinds.{secret_kind, good_kind, bad_kind, ListsTerm, byte_of};
ghost use Rattle.blocks.specs.Limits.{most_blocks, most_term_bytes, most_term_entries};
ghost use Rattle.blocks.specs.Block.{block_at, kind_of};
ghost use Rattle.terms.specs.Term.{Message, atom, as_term};
ghost use Rattle.terms.specs.Instance.{Matches, Share};
ghost use Rattle.terms.specs.Entry.{Begins, term_of, from};
ghost use Rattle.terms.specs.OneTerm.{IsEncryption};
ghost use Rattle.terms.specs.TermGraph.{SizesOf};
ghost use Rattle.terms.specs.Sizes.{KeptBelow};
ghost use Rattle.terms.specs.Nonces.{NoncesIn};
ghost use Rattle.terms.specs.Decisions.{Says};
ghost use Rattle.terms.specs.Decide.{answer};
ghost use Rattle.judge.specs.Certificate.{Secret, inverse};
ghost use Rattle.judge.specs.File.{block_count, certificate_of};
ghost use Rattle.judge.specs.Laid.{Laid, TermBlock};
ghost use Rattle.judge.specs.Conditions.{KnownAtom, WeaklyClosed, KeptKey};
ghost use Rattle.judge.specs.Judgement.{judged_of};
ghost use Rattle.judge.specs.Verdict.{on_kind, kind_asked, Meets, fault_on, condition_at, condition_fault};
ghost use Rattle.judge.specs.Listed.{atoms_in, HeldAmong, HasAt, Searching, SearchingAt, AskedAt, SomeMet, TermPart, Everywhere, matches_everywhere?, shares_listed?, shares_everywhere?, is_secret?};
ghost use Rattle.judge.specs.Listed.{root_slots, slot_at, FlaggedMore, RootsOf, NoRoot, SizesBelow, SizesIn, SizeOf, row_size, listed_rows, nonce_slots, listed_sizes, mark_slot, MarkedBad, MarkTag, LastMark, up_to, Noted};

use crate::atoms::atom_at;
use crate::tables::Tables;
use crate::verdict::Fault;
use crate::{atoms, flag};
use blocks::kinds::Kind;
use blocks::{limits, wide};
use terms::atom::NONCES;
use terms::tag::{ATOM, HASH, PAIR, SLOTS, is_marked, is_variable};
use terms::{atom, entry, matching, sharing};

// What numbers 9, 10 and 11 ask of the blocks of one kind. It stays an enum that three functions match: specs/Verdict.antt
// defines `kind_asked`, `Meets` and `fault_on` by its cases.
#[derive(Clone, Copy)]
pub enum Condition {
    // 9: the secret is no known atom.
    NotKnown,
    // 10: the secret is weakly closed.
    Closed,
    // 11: the inverse of the good pattern's root key is a listed secret.
    Kept,
}

// The kind of block i.
pub fn kind_at(file: &[u8], i: usize) -> u8
    requires { i < block_count file.now }
    ensures { result ≡ kind_of (block_at file.now i) }
{
    blocks::kind(blocks::block(file, i))
}

// Is block i of this kind?
pub fn is_kind(file: &[u8], i: usize, kind: Kind) -> bool
    requires { i < block_count file.now }
    ensures { Says result (kind_of (block_at file.now i) ≡ byte_of kind) }
{
    blocks::is_kind(blocks::block(file, i), kind)
}

// The entries of the term of block i.
pub fn term_at(file: &[u8], i: usize) -> &[u8]
    requires { (i < block_count file.now) × TermBlock (block_at file.now i) }
    ensures { TermPart file.now i result.now }
{
    let block = blocks::block(file, i);
    blocks::first_entries(block)
}

impl Tables<'_> {
    // Where the last mark of block i stands, counted from 1; 0 if it is no marked bad pattern. No `Option`: the table has one
    // byte for it.
    pub fn last_mark_of(&self, i: usize) -> usize
        requires { i < most_blocks }
        ensures { result ≡ get_or self.now.sizes.now (mark_slot i) 0 }
    {
        wide(self.sizes[ROW * i + MARK_SLOT])
    }

    // The table from the row of block i on.
    pub fn row(&self, i: usize) -> &[u8]
        requires { i < most_blocks }
        ensures { result.now ≡ from (row_size * i) self.now.sizes.now }
    {
        let sizes = self.sizes;
        &sizes[ROW * i..]
    }

    // The flags of the nonces.
    pub fn nonces(&self) -> &[u8]
        ensures { result.now ≡ from nonce_slots self.now.sizes.now }
    {
        let sizes = self.sizes;
        &sizes[NONCE_SLOTS..]
    }

    // Is there a marked bad pattern?
    pub fn some_marked(&self) -> bool
        ensures { Says result (get_or self.now.sizes.now listed_rows 0 ≡ 1) }
    {
        self.sizes[ROWS] == 1
    }
}

// Is the test met at some block of this kind, from `low` up to `high`? Asked from the last one back to the first of a lower kind,
// as patterns stand behind secrets.
fn some_back<F: Fn(usize) -> bool>(file: &[u8], kind: Kind, low: usize, high: usize, met: F) -> bool
    requires { Laid file.now × (high ≤ block_count file.now) × AskedAt file.now (byte_of kind) high (F.pre met) }
    ensures { SomeMet file.now (byte_of kind) low high (F.post met) result }
{
    for i in (low..high).rev() {
        let here = kind_at(file, i);
        if here < u8::from(kind) {
            return false;
        }
        if here == u8::from(kind) && met(i) {
            return true;
        }
    }
    false
}

// The same for all blocks, from the first one to the first of a higher kind: a way of its own, as secrets stand in front, and a
// search from the end would pass over all patterns.
fn some_on<F: Fn(usize) -> bool>(file: &[u8], kind: Kind, met: F) -> bool
    requires { Laid file.now × AskedAt file.now (byte_of kind) (block_count file.now) (F.pre met) }
    ensures { SomeMet file.now (byte_of kind) 0 (block_count file.now) (F.post met) result }
{
    let count = file.len() / limits::BLOCK_SIZE;
    for i in 0..count {
        let here = kind_at(file, i);
        if here > u8::from(kind) {
            return false;
        }
        if here == u8::from(kind) && met(i) {
            return true;
        }
    }
    false
}

// Is e's term the pattern of block i, with its variables replaced, and does the pattern count for every place?
fn matches_at(tables: &Tables, i: usize, e: &[u8]) -> bool
    requires { SearchingAt tables.now.file.now i e.now }
    ensures { Says result (HasAt tables.now.file.now i (λ kind p. Everywhere kind p × Matches (atoms_in tables.now.file.now) p (term_of e.now))) }
{
    tables.last_mark_of(i) == 0 && matching::matches(term_at(tables.file, i), e, tables.nonces())
}

// Is the term that e begins with some listed pattern of this kind that counts for every place, with its variables replaced?
pub fn is_listed_match(tables: &Tables, kind: Kind, e: &[u8]) -> bool
    requires { Searching tables.now.file.now (byte_of kind) e.now }
    ensures { result ≡ answer (matches_everywhere? (certificate_of tables.now.file.now) (byte_of kind) (term_of e.now)) }
{
    let count = tables.file.len() / limits::BLOCK_SIZE;
    some_back(tables.file, kind, 0, count, |i| matches_at(tables, i, e))
}

// Does the term of block i share an instance with e's term?
fn shares_at(tables: &Tables, i: usize, e: &[u8], z: &[u8]) -> bool
    requires { SearchingAt tables.now.file.now i e.now × SizesOf e.now z.now }
    ensures { Says result (HasAt tables.now.file.now i (λ kind p. Share (atoms_in tables.now.file.now) p (term_of e.now))) }
{
    sharing::shares(
        term_at(tables.file, i),
        e,
        tables.row(i),
        z,
        tables.nonces(),
    )
}

// Does a listed term of this kind share an instance with the term that e begins with, in a block from `low` up to `high`?
// z has the sizes of the terms at e's entries: parts from an entry on, which are no `SizedTerm`, as that has the array of sizes
// that `entry::end_of` asks for.
pub fn shares_among(
    tables: &Tables,
    kind: Kind,
    low: usize,
    high: usize,
    e: &[u8],
    z: &[u8],
) -> bool
    requires { Searching tables.now.file.now (byte_of kind) e.now × SizesOf e.now z.now × (low ≤ high) × (high ≤ block_count tables.now.file.now) }
    ensures { Says result (HeldAmong tables.now.file.now (byte_of kind) (λ p. Share (atoms_in tables.now.file.now) p (term_of e.now)) low high) }
{
    some_back(tables.file, kind, low, high, |i| shares_at(tables, i, e, z))
}

// Does some listed term of this kind share an instance with the term that e begins with?
pub fn shares_listed(tables: &Tables, kind: Kind, e: &[u8], z: &[u8]) -> bool
    requires { Searching tables.now.file.now (byte_of kind) e.now × SizesOf e.now z.now }
    ensures { result ≡ answer (shares_listed? (certificate_of tables.now.file.now) (byte_of kind) (term_of e.now)) }
{
    let count = tables.file.len() / limits::BLOCK_SIZE;
    shares_among(tables, kind, 0, count, e, z)
}

// Does the pattern of block i, a bad one, count for every place and share an instance with e's term? Asked by `shares_among`,
// so that the sharing test has one caller and is compiled into its loop.
fn unmarked_shares(tables: &Tables, i: usize, e: &[u8], z: &[u8]) -> bool
    requires { Searching tables.now.file.now bad_kind e.now × (i < block_count tables.now.file.now) × (kind_of (block_at tables.now.file.now i) ≡ bad_kind) × SizesOf e.now z.now }
    ensures { Says result (HasAt tables.now.file.now i (λ kind p. Everywhere kind p × Share (atoms_in tables.now.file.now) p (term_of e.now))) }
{
    tables.last_mark_of(i) == 0 && shares_among(tables, Kind::Bad, i, i + 1, e, z)
}

// Does some bad pattern without marks share an instance with the term that e begins with? Asked one by one, as some are
// marked.
fn shares_unmarked(tables: &Tables, e: &[u8], z: &[u8]) -> bool
    requires { Searching tables.now.file.now bad_kind e.now × SizesOf e.now z.now }
    ensures { result ≡ answer (shares_everywhere? (certificate_of tables.now.file.now) bad_kind (term_of e.now)) }
{
    let count = tables.file.len() / limits::BLOCK_SIZE;
    some_back(
        tables.file,
        Kind::Bad,
        0,
        count,
        |i| unmarked_shares(tables, i, e, z),
    )
}

// The same, all at once if none is marked.
pub fn shares_bad(tables: &Tables, e: &[u8], z: &[u8]) -> bool
    requires { Searching tables.now.file.now bad_kind e.now × SizesOf e.now z.now }
    ensures { result ≡ answer (shares_everywhere? (certificate_of tables.now.file.now) bad_kind (term_of e.now)) }
{
    if tables.some_marked() {
        shares_unmarked(tables, e, z)
    } else {
        shares_listed(tables, Kind::Bad, e, z)
    }
}

// Is the secret of block i e's term, which has n entries, symbol for symbol?
fn same_at(file: &[u8], i: usize, e: &[u8], n: usize) -> bool
    requires { SearchingAt file.now i e.now × SizeOf e.now n }
    ensures { Says result (HasAt file.now i (λ kind p. p ≡ term_of e.now)) }
{
    let secret = term_at(file, i);
    secret.len() == 4 * n && matching::same(secret, e)
}

// Is the term that e begins with, symbol for symbol, a listed secret?
pub fn is_listed_secret(file: &[u8], e: &[u8]) -> bool
    requires { Searching file.now secret_kind e.now }
    ensures { result ≡ answer (is_secret? (certificate_of file.now) (term_of e.now)) }
{
    let n = entry::term_size(e);
    some_on(file, Kind::Secret, |i| same_at(file, i, e, n))
}

// Is the secret of block i an instance of e's term, which has n entries? A secret has no variables: they then share it. An
// instance has no fewer entries.
fn instance_at(tables: &Tables, i: usize, e: &[u8], n: usize) -> bool
    requires { SearchingAt tables.now.file.now i e.now × (kind_of (block_at tables.now.file.now i) ≡ secret_kind) × SizeOf e.now n }
    ensures { Says result (HasAt tables.now.file.now i (λ kind p. Share (atoms_in tables.now.file.now) p (term_of e.now))) }
{
    let secret = term_at(tables.file, i);
    4 * n <= secret.len() && matching::matches(e, secret, tables.nonces())
}

// Does a listed secret share an instance with the term that e begins with?
pub fn shares_secret(tables: &Tables, e: &[u8]) -> bool
    requires { Searching tables.now.file.now secret_kind e.now }
    ensures { result ≡ answer (shares_listed? (certificate_of tables.now.file.now) secret_kind (term_of e.now)) }
{
    let n = entry::term_size(e);
    some_on(tables.file, Kind::Secret, |i| instance_at(tables, i, e, n))
}

// Does block i list a term?
fn lists_term(file: &[u8], i: usize) -> bool
    requires { i < block_count file.now }
    ensures { Says result (ListsTerm (kind_of (block_at file.now i))) }
{
    blocks::lists_term(kind_at(file, i))
}

// Has an entry from `low` up to `high` the tag of a marked variable? No chain with `any`: that costs files with many marks up to
// 1.2 % more instructions.
pub fn has_mark(e: &[u8], low: usize, high: usize) -> bool
    requires { (4 * high ≤ length e.now) × (length e.now ≤ most_term_bytes) }
    ensures { Says result (MarkTag e.now low high) }
{
    for k in low..high {
        if is_marked(e[4 * k]) {
            return true;
        }
    }
    false
}

// Where the last marked variable stands.
fn last_mark(e: &[u8]) -> Option<usize>
    requires { (length e.now ≤ most_term_bytes) × (4 * (length e.now / 4) ≡ length e.now) }
    ensures { LastMark e.now (up_to result) × (up_to result ≤ most_term_entries) }
{
    for last in (0..e.len() / 4).rev() {
        if is_marked(e[4 * last]) {
            return Some(last);
        }
    }
    None
}

// Where the last mark of block i stands, counted from 1; 0 if it has none or is no bad pattern.
fn marks_of(file: &[u8], i: usize) -> u8
    requires { Laid file.now × (i < block_count file.now) }
    ensures { Noted file.now i result }
{
    if is_kind(file, i, Kind::Bad) {
        last_mark(term_at(file, i)).map_or(0, |k| (k + 1) as u8)
    } else {
        0
    }
}

// Fills in block i's row, if it lists a term, and tells whether it is a marked bad pattern.
fn fill_row(file: &[u8], i: usize, sizes: &mut [u8; LISTED_SIZES]) -> bool
    requires { Laid file.now × (i < block_count file.now) × SizesBelow file.now i sizes.old }
    ensures rows { SizesBelow file.now (i + 1) sizes.new }
    ensures marked { Says result (MarkedBad file.now i) }
{
    let marks = marks_of(file, i);
    let marked = marks != 0;
    if lists_term(file, i) {
        entry::fill_sizes(term_at(file, i), sizes, ROW * i);
        sizes[ROW * i + MARK_SLOT] = marks;
    }
    marked
}

// Puts the flags of the nonces in their place.
fn put_nonces(file: &[u8], sizes: &mut [u8; LISTED_SIZES])
    requires { Laid file.now }
    ensures { NoncesIn (atoms_in file.now) (from nonce_slots sizes.new) × KeptBelow nonce_slots sizes.old sizes.new }
{
    let flags = atom::nonces(atoms::first(file), atoms::more(file));
    sizes[NONCE_SLOTS..].copy_from_slice(&flags);
}

// Notes of a file the sizes of block i's term in its row, which bad patterns are marked, and which atoms are nonces. The table is
// lent: handed back by value it stood on the stack three times.
pub fn listed_sizes(file: &[u8], sizes: &mut [u8; LISTED_SIZES])
    requires { Laid file.now }
    ensures { SizesIn file.now sizes.new }
{
    let mut some = false;
    let count = file.len() / limits::BLOCK_SIZE;
    for i in 0..count {
        some |= fill_row(file, i, sizes);
    }
    sizes[ROWS] = u8::from(some);
    put_nonces(file, sizes);
}

// Room for what is noted of a file: a row of 64 for each block, with the sizes of its subterms and, in the last slot, where the
// last mark of a bad pattern stands; behind the rows whether any is marked; and then a flag for each atom.
const ROW: usize = 64;

const MARK_SLOT: usize = limits::MOST_TERM_ENTRIES;

const ROWS: usize = 4096;

const NONCE_SLOTS: usize = ROWS + 1;

pub const LISTED_SIZES: usize = NONCE_SLOTS + NONCES;

// The slots of roots: those of atoms from 0, then those of pairs, of what is put around a term, and of variables.
const PAIR_ROOTS: usize = 256;

const WRAPPER_ROOTS: usize = 512;

const VARIABLE_ROOTS: usize = 768;

pub const ROOT_SLOTS: usize = VARIABLE_ROOTS + SLOTS;

// The slot of the root of the term that e begins with. Atoms have 256 slots, pairs, and what is put around a term, by the
// root's value; a pair's value is always 0, so its left half's root is asked instead. Variables have 32.
pub fn root_slot(e: &[u8]) -> usize
    requires { Begins e.now }
    ensures { (result ≡ slot_at e.now) × (result < root_slots) }
{
    match e[0] {
        PAIR => PAIR_ROOTS + entry::value(&e[4..]) % PAIR_ROOTS,
        ATOM => entry::value(e) % PAIR_ROOTS,
        tag if is_variable(tag) => VARIABLE_ROOTS + entry::value(e) % SLOTS,
        _ => WRAPPER_ROOTS + entry::value(e) % PAIR_ROOTS,
    }
}

// Flags the root of block i's term, if it is a secret's.
fn flag_root(file: &[u8], i: usize, roots: &mut [u8; ROOT_SLOTS])
    requires { Laid file.now × (i < block_count file.now) }
    ensures { FlaggedMore file.now i roots.old roots.new }
{
    if is_kind(file, i, Kind::Secret) {
        let n = root_slot(term_at(file, i));
        roots[n] = 1;
    }
}

// The roots of all secrets, flagged, and no others.
pub fn secret_roots(file: &[u8]) -> [u8; ROOT_SLOTS]
    requires { Laid file.now }
    ensures { RootsOf file.now result }
{
    let mut roots = [0u8; ROOT_SLOTS];
    let count = file.len() / limits::BLOCK_SIZE;
    for i in 0..count {
        flag_root(file, i, &mut roots);
    }
    roots
}

// Might the term that e begins with be a secret or share an instance with one? A variable might, and a pair whose left
// half is one; any other term if a secret's root has its slot.
pub fn may_be_secret(roots: &[u8; ROOT_SLOTS], e: &[u8]) -> bool
    requires { Begins e.now }
    ensures { (result ≡ false) ↔ NoRoot roots.now e.now }
{
    let root = e[0];
    is_variable(root) || root == PAIR && is_variable(e[4]) || roots[root_slot(e)] != 0
}

// Is this atom a listed secret?
fn is_listed_atom(file: &[u8], a: usize) -> bool
    requires { Laid file.now × (a ≤ 65535) }
    ensures { Says result (Secret (certificate_of file.now) (atom a)) }
{
    let [low, high] = (a as u16).to_le_bytes();
    is_listed_secret(file, &[ATOM, 0, low, high])
}

// Is the term that e begins with, as a message, a known atom?
fn is_known(file: &[u8], e: &[u8]) -> bool
    requires { Searching file.now secret_kind e.now }
    ensures { (m : Message) → term_of e.now ≡ as_term m → Says result (KnownAtom (certificate_of file.now) m) }
{
    e[0] == ATOM && atom_at(file, entry::value(e)).known == 1
}

// Is the term that e begins with, as a message, weakly closed? With a pair, one half is listed; with {m}k or a signature, m or the
// key is; with a hash, m is.
fn is_closed(file: &[u8], e: &[u8]) -> bool
    requires { Searching file.now secret_kind e.now }
    ensures { (m : Message) → term_of e.now ≡ as_term m → Says result (WeaklyClosed (certificate_of file.now) m) }
{
    match e[0] {
        PAIR => {
            is_listed_secret(file, &e[4..])
                || is_listed_secret(file, &e[4 * (1 + entry::term_size(&e[4..]))..])
        }
        tag if entry::children(tag) == 1 => {
            is_listed_secret(file, &e[4..]) || tag != HASH && is_listed_atom(file, entry::value(e))
        }
        _ => true,
    }
}

// The inverse of a key: the partner field of its entry.
fn inverse_of(file: &[u8], k: usize) -> usize
    requires { Laid file.now }
    ensures { (result ≡ inverse (certificate_of file.now) k) × (result ≤ 65535) }
{
    atom_at(file, k).partner
}

// Is the inverse of the root key of the encryption that e begins with a listed secret?
fn is_kept(file: &[u8], e: &[u8]) -> bool
    requires { Searching file.now good_kind e.now × IsEncryption (term_of e.now) }
    ensures { Says result (KeptKey (certificate_of file.now) (term_of e.now)) }
{
    is_listed_atom(file, inverse_of(file, entry::value(e)))
}

// The kind of block that a condition asks.
fn kind_asked(condition: Condition) -> Kind
    ensures { byte_of result ≡ kind_asked condition }
{
    match condition {
        Condition::NotKnown => Kind::Secret,
        Condition::Closed => Kind::Secret,
        Condition::Kept => Kind::Good,
    }
}

// The fault of a block that does not meet it.
fn fault_on(condition: Condition, block: u8) -> Fault
    ensures { result ≡ fault_on condition block }
{
    match condition {
        Condition::NotKnown => Fault::KnownSecret(block),
        Condition::Closed => Fault::NotClosed(block),
        Condition::Kept => Fault::KeyNotKept(block),
    }
}

// Does block i, which is of the kind asked, meet the condition?
fn is_met(file: &[u8], condition: Condition, i: usize) -> bool
    requires { Laid file.now × (i < block_count file.now) × (kind_of (block_at file.now i) ≡ kind_asked condition) }
    ensures { Says result (Meets condition (certificate_of file.now) (block_at file.now i)) }
{
    match condition {
        Condition::NotKnown => !is_known(file, term_at(file, i)),
        Condition::Closed => is_closed(file, term_at(file, i)),
        Condition::Kept => is_kept(file, term_at(file, i)),
    }
}

// What the condition says of block i.
#[tactic(auto, unfolding(crate::specs::Verdict::on_kind, crate::specs::Verdict::condition_at, crate::specs::Judgement::judged_of))]
fn condition_at(file: &[u8], condition: Condition, i: usize) -> Result<(), Fault>
    requires { Laid file.now × (i < block_count file.now) }
    ensures { result ≡ judged_of (on_kind (kind_asked condition) (condition_at condition (certificate_of file.now)) file.now i) }
{
    if !is_kind(file, i, kind_asked(condition)) || is_met(file, condition, i) {
        Ok(())
    } else {
        Err(fault_on(condition, i as u8))
    }
}

// Number 9, 10 or 11: the first block that does not meet the condition.
#[tactic(auto, using(crate::proofs::Stages::FormLaws::first_step, crate::proofs::Stages::FormLaws::first_end), unfolding(crate::specs::Verdict::condition_fault, crate::specs::Verdict::kind_fault, crate::specs::Judgement::judged_of))]
pub fn condition_fault(file: &[u8], condition: Condition) -> Result<(), Fault>
    requires { Laid file.now }
    ensures { result ≡ judged_of (condition_fault condition (certificate_of file.now) file.now) }
{
    for i in 0..file.len() / limits::BLOCK_SIZE {
        condition_at(file, condition, i)?;
    }
    Ok(())
}
