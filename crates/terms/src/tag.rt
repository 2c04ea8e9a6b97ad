// Tags of term entries (document 01, "Term entry"), and what code has to know of one. They stay bytes: entries are read in place,
// as the file has them, and an enum made of each would have a failing case at every step of a walk.
ghost use Rattle.terms.specs.Decisions.{Says};
ghost use Rattle.std.specs.Prelude.{◌≡◌, ◌*◌, ◌-◌, ◌≤◌};
ghost use Rattle.terms.specs.Tag.{VariableTag, MarkedTag, plain_tag, variables};

use blocks::wide;

pub const ATOM: u8 = 1;

pub const PAIR: u8 = 2;

pub const ENCRYPTION: u8 = 3;

// A marked variable, one that stands for any message and one that stands for a nonce.
pub const MARKED: u8 = 5;

pub const MARKED_NONCE: u8 = 7;

pub const HASH: u8 = 8;

pub const SIGNATURE: u8 = 9;

// The last tag.
pub const LAST: usize = 9;

// How many variables of each sort there are.
pub const VARIABLES: usize = 8;

// A number for each variable that a term may have; first those of the variables that stand for any message.
pub const SLOTS: usize = 4 * VARIABLES;

pub const ANY_SLOTS: usize = 2 * VARIABLES;

// The tag of the first sort of variables.
const PLAIN: usize = 4;

// Is it a variable's tag? Those from 4 to 7 are told by one bit: of the tags there are, no other one has it.
pub fn is_variable(tag: u8) -> bool
    ensures { Says result (VariableTag tag) }
{
    4 <= tag % 8
}

// Is it the tag of a marked variable?
pub fn is_marked(tag: u8) -> bool
    ensures { Says result (MarkedTag tag) }
{
    matches!(tag, MARKED | MARKED_NONCE)
}

// The first slot of the variables with this tag; at most 8 times 251.
pub fn first_slot(tag: u8) -> usize
    requires { VariableTag tag }
    ensures { (result ≡ variables * (tag - plain_tag)) × (result ≤ 2008) }
{
    VARIABLES * (wide(tag) - PLAIN)
}
