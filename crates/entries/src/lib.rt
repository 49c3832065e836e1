// What stands on the operand stack: kinds of plain values, and entries.
#![tactic(auto)]

ghost use Rattle.std.specs.Prelude.{◌≡◌};
ghost use Rattle.std.specs.Result.{result_ok};
ghost use Rattle.entries.specs.Kinds.{plain_kind, sized_kind};
ghost use Rattle.entries.specs.Sizes.{size_of};

mod asked;

// The kind of a parameter, of a result or of a plain stack entry.
#[derive(Clone, Copy, PartialEq, Eq, Debug)]
pub enum Kind {
    Byte,
    Char,
    Int,
}

impl Kind {
    // How many bytes a value of the kind takes: 1, 2 or 4.
    pub fn size(self) -> usize
        ensures { result ≡ size_of self }
    {
        match self {
            Kind::Byte => 1,
            Kind::Char => 2,
            Kind::Int => 4,
        }
    }
}

// A number that is no kind's size.
#[derive(Clone, Copy, PartialEq, Eq, Debug)]
pub struct UnknownKind(pub u32);

// Where a kind is told by a number, it is the size of its values.
impl TryFrom<u32> for Kind {
    type Error = UnknownKind;

    ghost try_from_gives = { λ size told. result_ok told ≡ sized_kind size };

    fn try_from(size: u32) -> Result<Kind, UnknownKind> {
        match size {
            1 => Ok(Kind::Byte),
            2 => Ok(Kind::Char),
            4 => Ok(Kind::Int),
            _ => Err(UnknownKind(size)),
        }
    }
}

// What an entry of the stack is: a plain value, the address of a local or of a global, or a text.
#[derive(Clone, Copy, PartialEq, Eq, Debug)]
pub enum EntryKind {
    Byte,
    Char,
    Int,
    Local,
    Global,
    Text,
}

impl From<Kind> for EntryKind {
    ghost from_gives = { λ kind plain. plain ≡ plain_kind kind };

    fn from(kind: Kind) -> EntryKind {
        match kind {
            Kind::Byte => EntryKind::Byte,
            Kind::Char => EntryKind::Char,
            Kind::Int => EntryKind::Int,
        }
    }
}

// An entry: its kind with the number that belongs to it. The number of a local address is its signed distance from the
// frame, as a 32-bit word in two's complement; of a global address the distance from the first global; of a text the
// count of its units; of a plain value 0. Two entries are the same where kinds and numbers are. Kind and number stand
// side by side, and not in an enum of values, since a shape is a table of kinds and numbers.
#[derive(Clone, Copy, Debug, PartialEq, Eq)]
pub struct Entry {
    pub kind: EntryKind,
    pub number: u32,
}
