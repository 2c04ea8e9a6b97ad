// The atoms of a file: those of block 0 and, where it begins with two atom blocks, those of block 1, numbered on.
ghost use Rattle.std.specs.Prelude.{◌≡◌, ◌%◌, ◌≤◌, length};
ghost use Rattle.blocks.specs.Limits.{block_size};
ghost use Rattle.blocks.specs.Block.{block_at, first_entries};
ghost use Rattle.terms.specs.Atom.{atom_at};
ghost use Rattle.terms.specs.Decisions.{Says};
ghost use Rattle.judge.specs.File.{TwoAtomBlocks, more_entries, file_atoms};
ghost use Rattle.judge.specs.Laid.{AtomsFit};

use blocks::kinds::Kind;
use terms::atom;
use terms::atom::Atom;

// Is block 1 an atom block too? Its byte 0 says so, whatever its check.
#[tactic(auto, using(crate::proofs::Files::AtomBlocks::two_inside))]
pub fn are_two(file: &[u8]) -> bool
    requires { length file.now % block_size ≡ 0 }
    ensures { Says result (TwoAtomBlocks file.now) }
{
    blocks::has_block(file, 1) && blocks::is_kind(blocks::block(file, 1), Kind::Atoms)
}

// The entries of the first atom block.
#[tactic(auto, using(crate::proofs::Files::AtomBlocks::block_inside))]
pub fn first(file: &[u8]) -> &[u8]
    requires { AtomsFit file.now }
    ensures { result.now ≡ first_entries (block_at file.now 0) }
{
    blocks::first_entries(blocks::block(file, 0))
}

// The entries of the second atom block; none if there is none.
#[tactic(auto, using(crate::proofs::Files::AtomBlocks::two_inside), unfolding(crate::specs::File::more_entries))]
pub fn more(file: &[u8]) -> &[u8]
    requires { AtomsFit file.now }
    ensures { result.now ≡ more_entries file.now }
{
    if are_two(file) {
        blocks::first_entries(blocks::block(file, 1))
    } else {
        &file[0..0]
    }
}

// The atom of this number.
#[tactic(auto, unfolding(crate::specs::File::file_atoms))]
pub fn atom_at(file: &[u8], n: usize) -> Atom
    requires { AtomsFit file.now }
    ensures { (result ≡ atom_at (file_atoms file.now) n) × (result.partner ≤ 65535) }
{
    atom::atom_at(first(file), more(file), n)
}
