// The kinds of blocks, as byte 0 names them (specs/Kinds.antt).
ghost use Rattle.std.specs.Prelude.{◌≡◌};
ghost use Rattle.blocks.specs.Kinds.{byte_of, Names};

#[derive(Clone, Copy, Debug, PartialEq, Eq, PartialOrd, Ord)]
pub enum Kind {
    Atoms = 1,
    Secret = 2,
    Good = 3,
    Bad = 4,
    Rule = 5,
}

// Byte 0 of the blocks of a kind.
impl From<Kind> for u8 {
    ghost from_gives = { λ kind byte. byte ≡ byte_of kind };

    fn from(kind: Kind) -> u8 {
        kind as u8
    }
}

// A byte that names no kind.
#[derive(Clone, Copy, Debug, PartialEq, Eq)]
pub struct UnknownKind;

impl TryFrom<u8> for Kind {
    type Error = UnknownKind;

    ghost try_from_gives = { Names };

    fn try_from(byte: u8) -> Result<Kind, UnknownKind> {
        match byte {
            1 => Ok(Kind::Atoms),
            2 => Ok(Kind::Secret),
            3 => Ok(Kind::Good),
            4 => Ok(Kind::Bad),
            5 => Ok(Kind::Rule),
            _ => Err(UnknownKind),
        }
    }
}
