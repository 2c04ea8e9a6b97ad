// Verdicts: accepted with the file's own counts, or refused with the kind of fault inside.

// How many blocks, secrets, good patterns, bad patterns and rules a file has.
#[derive(Clone, Copy, Debug, PartialEq, Eq)]
pub struct Counts {
    pub blocks: u8,
    pub secrets: u8,
    pub goods: u8,
    pub bads: u8,
    pub rules: u8,
}

// Why a file is refused, with block and place where there is one.
#[derive(Clone, Copy, Debug, PartialEq, Eq)]
pub enum Fault {
    // 1: the length.
    Length,
    // 2: the check of this block.
    Check(u8),
    // 3: the kind of this block, out of order or unknown.
    Kind(u8),
    // 4: no secret or no rule, among so many blocks.
    Missing(u8),
    // 5: a count, byte 3 or an unused entry of this block, or a block of atoms before it that is not full.
    Layout(u8),
    // 6: an atom entry: block, entry.
    AtomEntry(u8, u8),
    // 7: a term entry: block, entry.
    TermEntry(u8, u8),
    // 8: entries that are not exactly one term, or a pattern's root that is no encryption: block, term's first entry.
    NotOneTerm(u8, u8),
    // 9: the secret of this block is a known atom.
    KnownSecret(u8),
    // 10: the secret of this block is not weakly closed.
    NotClosed(u8),
    // 11: the inverse of the root key of this block's good pattern is not a listed secret.
    KeyNotKept(u8),
    // 12: a risky place that is not covered: rule block, entry.
    Uncovered(u8, u8),
    // 15: a listed secret at an open place of a premise: rule block, entry.
    OpenSecret(u8, u8),
    // 16: no loader has this number. A check that names its loader says so; no file has this fault.
    Loader,
}

// An enum of its own, and no Result: document 01 asks for one whose refused case holds the fault.
#[derive(Clone, Copy, Debug, PartialEq, Eq)]
pub enum Verdict {
    Accepted(Counts),
    Refused(Fault),
}
