// The first stage of judging a file: its length (1), block by block 2, 3, 5, 6 or 7, 8, then 4, and the counts.
ghost use Rattle.std.specs.Prelude.{◌≡◌, true, ℕ, ◌+◌, ◌*◌, ◌%◌, ◌<◌, ◌≤◌, length};
ghost use Rattle.blocks.specs.Kinds.{byte_of};
ghost use Rattle.blocks.specs.Block.{HasBlock, block_at, Fitting};
ghost use Rattle.terms.specs.Entry.{Begins};
ghost use Rattle.terms.specs.Atom.{joined_atoms};
ghost use Rattle.terms.specs.Decisions.{Says};
ghost use Rattle.blocks.specs.Limits.{block_size, most_blocks};
ghost use Rattle.judge.specs.File.{block_count, kind_count, counts_of};
ghost use Rattle.judge.specs.Meaning.{NotFirstOfTwo};
ghost use Rattle.judge.specs.Laid.{AtomsFit};
ghost use Rattle.judge.specs.Judgement.{judged_of, Reached, Spelled};
ghost use Rattle.judge.specs.Verdict.{length_right, kind_right, laid_out, atom_fault, atoms_fault, entry_fault, root_right, pattern_fault, conclusion_fault};
ghost use Rattle.judge.specs.Verdict.{rule_parts_fault, term_fault, entries_fault, block_fault, form_fault, missing_fault};

use crate::atoms;
use crate::verdict::{Counts, Fault};
use blocks::kinds::Kind;
use blocks::limits;
use terms::valid;

// Number 1: the length is not 0, a multiple of 512 and not above 32,768.
#[tactic(auto, unfolding(crate::specs::Verdict::length_right))]
pub fn length_right(file: &[u8]) -> bool
    ensures { result ≡ length_right file.now }
{
    let n = file.len();
    n >= 1 && n % limits::BLOCK_SIZE == 0 && n <= limits::MOST_BYTES
}

// Number 3: the first block has kind 1, and the second may; else a block after the first has a kind from 2 to 5, not below
// that of the block before it.
#[tactic(auto, unfolding(crate::specs::Verdict::kind_right, crate::specs::Verdict::later_kind))]
fn kind_right(file: &[u8], i: usize) -> bool
    requires { HasBlock file.now i }
    ensures { result ≡ kind_right file.now i }
{
    match Kind::try_from(blocks::kind(blocks::block(file, i))) {
        Ok(Kind::Atoms) => i < limits::MOST_ATOM_BLOCKS,
        Ok(kind) => i != 0 && blocks::kind(blocks::block(file, i - 1)) <= u8::from(kind),
        Err(_) => false,
    }
}

// Number 5: the layout of block i, and before a second atom block a full first one.
#[tactic(auto, unfolding(crate::specs::Verdict::laid_out))]
fn laid_out(file: &[u8], i: usize) -> bool
    requires { HasBlock file.now i }
    ensures { result ≡ laid_out file.now i }
{
    let block = blocks::block(file, i);
    blocks::layout_right(block)
        && (i != 1
            || !blocks::is_kind(block, Kind::Atoms)
            || blocks::first_count(blocks::block(file, 0)) == limits::MOST_ENTRIES)
}

// Number 6: the first atom entry that is wrong, by its block and its place there.
#[tactic(auto, using(crate::proofs::Stages::FormLaws::atom_small), unfolding(crate::specs::Verdict::atom_fault, crate::specs::File::file_atoms, crate::specs::Judgement::judged_of))]
fn atom_fault(file: &[u8]) -> Result<(), Fault>
    requires { AtomsFit file.now }
    ensures { result ≡ judged_of (atom_fault file.now) }
{
    match valid::wrong_atom(atoms::first(file), atoms::more(file)) {
        Some(n) => Err(Fault::AtomEntry(
            (n / limits::MOST_ENTRIES) as u8,
            (n % limits::MOST_ENTRIES) as u8,
        )),
        None => Ok(()),
    }
}

// Is atom block i the last one? Block 0 is if block 1 is no atom block.
fn is_last(file: &[u8], i: usize) -> bool
    requires { length file.now % block_size ≡ 0 }
    ensures { Says result (NotFirstOfTwo file.now i) }
{
    i != 0 || !atoms::are_two(file)
}

// Number 6 at atom block i: for all of them at the last one.
#[tactic(auto, unfolding(crate::specs::Verdict::atoms_fault, crate::specs::Judgement::judged_of))]
fn atoms_fault(file: &[u8], i: usize) -> Result<(), Fault>
    requires { (length file.now % block_size ≡ 0) × (NotFirstOfTwo file.now i → AtomsFit file.now) }
    ensures { result ≡ judged_of (atoms_fault file.now i) }
{
    if is_last(file, i) {
        atom_fault(file)
    } else {
        Ok(())
    }
}

// Number 7: the first entry in use that is wrong, premise and conclusion counted together.
#[tactic(auto, using(crate::proofs::Stages::FormLaws::used_part, crate::proofs::Stages::FormLaws::entry_small), unfolding(crate::specs::Verdict::entry_fault, crate::specs::Judgement::judged_of))]
fn entry_fault(atoms: &[u8], more: &[u8], i: u8, block: &[u8]) -> Result<(), Fault>
    requires { Fitting block.now }
    ensures { result ≡ judged_of (entry_fault (joined_atoms atoms.now more.now) i block.now) }
{
    let end = 4 + 4 * (blocks::first_count(block) + blocks::second_count(block));
    match valid::wrong_entry(atoms, more, blocks::kind(block), &block[4..end]) {
        Some(n) => Err(Fault::TermEntry(i, n as u8)),
        None => Ok(()),
    }
}

// The root of a pattern, of kind 3 or 4, is an encryption.
#[tactic(auto, unfolding(crate::specs::Verdict::root_right))]
fn root_right(kind: u8, e: &[u8]) -> bool
    requires { Begins e.now }
    ensures { result ≡ root_right kind e.now }
{
    match Kind::try_from(kind) {
        Ok(Kind::Good | Kind::Bad) => valid::is_encryption(e),
        _ => true,
    }
}

// Number 8, kinds 2 to 4: exactly one term, and a pattern's root is an encryption.
#[tactic(auto, using(crate::proofs::Stages::FormLaws::begins_one), unfolding(crate::specs::Verdict::pattern_fault, crate::specs::Judgement::judged_of))]
fn pattern_fault(i: u8, block: &[u8]) -> Result<(), Fault>
    requires { Spelled block.now }
    ensures { result ≡ judged_of (pattern_fault i block.now) }
{
    let e = blocks::first_entries(block);
    if valid::is_one_term(e) && root_right(blocks::kind(block), e) {
        Ok(())
    } else {
        Err(Fault::NotOneTerm(i, 0))
    }
}

// Number 8 for the conclusion of a rule.
#[tactic(auto, unfolding(crate::specs::Verdict::conclusion_fault, crate::specs::Judgement::judged_of))]
fn conclusion_fault(i: u8, block: &[u8]) -> Result<(), Fault>
    requires { Spelled block.now }
    ensures { result ≡ judged_of (conclusion_fault i block.now) }
{
    if valid::is_one_term(blocks::second_entries(block)) {
        Ok(())
    } else {
        Err(Fault::NotOneTerm(i, blocks::first_count(block) as u8))
    }
}

// Number 8 for a rule: premise before conclusion. A premise of no entries is none.
#[tactic(auto, unfolding(crate::specs::Verdict::rule_parts_fault, crate::specs::Judgement::judged_of))]
fn rule_parts_fault(i: u8, block: &[u8]) -> Result<(), Fault>
    requires { Spelled block.now }
    ensures { result ≡ judged_of (rule_parts_fault i block.now) }
{
    if blocks::first_count(block) == 0 || valid::is_one_term(blocks::first_entries(block)) {
        conclusion_fault(i, block)
    } else {
        Err(Fault::NotOneTerm(i, 0))
    }
}

// Number 8.
#[tactic(auto, unfolding(crate::specs::Verdict::term_fault, crate::specs::Judgement::judged_of))]
fn term_fault(i: u8, block: &[u8]) -> Result<(), Fault>
    requires { Spelled block.now }
    ensures { result ≡ judged_of (term_fault i block.now) }
{
    if blocks::is_kind(block, Kind::Rule) {
        rule_parts_fault(i, block)
    } else {
        pattern_fault(i, block)
    }
}

// Number 6 for the atoms, else 7 and then 8.
#[tactic(auto, using(crate::proofs::Stages::FormLaws::parts_are, crate::proofs::Stages::FormLaws::spelled), unfolding(crate::specs::Verdict::entries_fault, crate::specs::Judgement::judged_of))]
fn entries_fault(file: &[u8], i: usize) -> Result<(), Fault>
    requires { Reached file.now i }
    ensures { result ≡ judged_of (entries_fault file.now i) }
{
    let block = blocks::block(file, i);
    if blocks::is_kind(block, Kind::Atoms) {
        return atoms_fault(file, i);
    }
    let n = i as u8;
    entry_fault(atoms::first(file), atoms::more(file), n, block)?;
    term_fault(n, block)
}

// Numbers 2, 3, 5, then 6 to 8, of block i.
#[tactic(auto, unfolding(crate::specs::Verdict::block_fault, crate::specs::Judgement::judged_of))]
fn block_fault(file: &[u8], i: usize) -> Result<(), Fault>
    requires { (length file.now % block_size ≡ 0) × (HasBlock file.now i × ((i < most_blocks) × ((j : ℕ) → j < i → Fitting (block_at file.now j)))) }
    ensures { result ≡ judged_of (block_fault file.now i) }
{
    let n = i as u8;
    if !blocks::check_right(blocks::block(file, i)) {
        return Err(Fault::Check(n));
    }
    if !kind_right(file, i) {
        return Err(Fault::Kind(n));
    }
    if !laid_out(file, i) {
        return Err(Fault::Layout(n));
    }
    entries_fault(file, i)
}

// The first fault of the blocks, in file order.
#[tactic(auto, using(crate::proofs::Stages::FormLaws::first_step, crate::proofs::Stages::FormLaws::first_end, crate::proofs::Files::LaidLaws::long), unfolding(crate::specs::Verdict::form_fault, crate::specs::Verdict::form_from, crate::specs::Judgement::judged_of))]
pub fn form_fault(file: &[u8]) -> Result<(), Fault>
    requires { length_right file.now ≡ true }
    ensures { result ≡ judged_of (form_fault file.now) }
{
    for i in 0..file.len() / limits::BLOCK_SIZE {
        block_fault(file, i)?;
    }
    Ok(())
}

// How many blocks are of this kind.
pub fn count_kind(file: &[u8], kind: Kind) -> usize
    ensures { (result ≡ kind_count (byte_of kind) file.now) × (result ≤ block_count file.now) }
{
    let mut n: usize = 0;
    for i in 0..file.len() / limits::BLOCK_SIZE {
        if blocks::is_kind(blocks::block(file, i), kind) {
            n += 1;
        }
    }
    n
}

// Number 4: no secret or no rule.
#[tactic(auto, using(crate::proofs::Files::LaidLaws::long), unfolding(crate::specs::Verdict::missing_fault, crate::specs::Judgement::judged_of))]
pub fn missing_fault(file: &[u8]) -> Result<(), Fault>
    requires { length_right file.now ≡ true }
    ensures { result ≡ judged_of (missing_fault file.now) }
{
    if count_kind(file, Kind::Secret) < 1 || count_kind(file, Kind::Rule) < 1 {
        Err(Fault::Missing((file.len() / limits::BLOCK_SIZE) as u8))
    } else {
        Ok(())
    }
}

// The counts that are reported on acceptance.
#[tactic(auto, using(crate::proofs::Files::LaidLaws::long), unfolding(crate::specs::File::counts_of))]
pub fn counts(file: &[u8]) -> Counts
    requires { length_right file.now ≡ true }
    ensures { result ≡ counts_of file.now }
{
    Counts {
        blocks: (file.len() / limits::BLOCK_SIZE) as u8,
        secrets: count_kind(file, Kind::Secret) as u8,
        goods: count_kind(file, Kind::Good) as u8,
        bads: count_kind(file, Kind::Bad) as u8,
        rules: count_kind(file, Kind::Rule) as u8,
    }
}
