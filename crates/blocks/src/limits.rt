// The sizes and limits of files and blocks (specs/Limits.antt).
pub const BLOCK_SIZE: usize = 512;

pub const MOST_BYTES: usize = 32768;

pub const MOST_ENTRIES: usize = 126;

// Atom blocks that a file may begin with.
pub const MOST_ATOM_BLOCKS: usize = 2;

pub const MOST_TERM_ENTRIES: usize = 63;
