// What an instruction does to the shape of the stack, how many bytes it touches, and where control goes.
ghost use Rattle.std.specs.Prelude.{◌≡◌, Some, None};
ghost use Rattle.instruction.specs.Effects.{acts, bytes_of, callee_of, displaced_by, effect_of, falls, operation_effect, reaches, target_of, text_entry};
ghost use Rattle.instruction.specs.declared.effects.Flow.TheVariants.{Next};

use super::operations::{Binary, Branch, Instruction, Opening, Operation, Return};
use entries::{Entry, EntryKind, Kind};

// What is wanted on a shape. Nothing is a case like the others: as an option it would be longer in every row below.
#[derive(Clone, Copy)]
pub enum Want {
    Nothing,
    // that entry
    Exactly(Entry),
    // an int, or the address of a local or of a global
    Address,
}

// Where control goes.
#[derive(Clone, Copy)]
pub enum Flow {
    // on to the next instruction
    Next,
    // nowhere: the program ends
    Halt,
    // to a target, given by its distance from the next instruction
    Jump(u32),
    // to a target, or on to the next instruction
    Fork(u32),
    // into a procedure, given by its distance from the next instruction, and then on to the next instruction
    Call(u32),
    // back to the caller, removing so many bytes of parameters
    Return(u32),
    // on to the next instruction, with so many bytes of variables
    Open(Opening, u32),
}

// The effect of an instruction. It takes `upper` from the top of the shape and then `lower`; it leaves at most one
// entry. Through the address that it takes as `lower` it touches so many bytes; 0 where it touches none. What a call
// and a return take is told by the procedures and not here.
#[derive(Clone, Copy)]
pub struct Effect {
    pub upper: Want,
    pub lower: Want,
    pub leaves: Option<Entry>,
    pub touches: u8,
    pub flow: Flow,
}

impl Return {
    // How many bytes of parameters it removes.
    pub fn bytes(self) -> u32
        ensures { result ≡ bytes_of self }
    {
        match self {
            Return::Bytes(count) => count,
            Return::Zero => 0,
            Return::Four => 4,
        }
    }
}

impl Effect {
    // Takes, touches and leaves nothing, and control goes on to the next instruction.
    const NONE: Effect = Effect {
        upper: Want::Nothing,
        lower: Want::Nothing,
        leaves: None,
        touches: 0,
        flow: Flow::Next,
    };

    // Takes from the shape, and does nothing else.
    fn taking(upper: Want, lower: Want) -> Effect
        ensures { result ≡ acts upper lower None Next }
    {
        Effect {
            upper,
            lower,
            ..Effect::NONE
        }
    }

    // Touches a value of a kind through an address.
    fn through(upper: Want, kind: Kind) -> Effect
        ensures { result ≡ reaches upper None kind }
    {
        Effect {
            upper,
            lower: Want::Address,
            touches: kind.size() as u8,
            ..Effect::NONE
        }
    }

    fn leaving(self, entry: Entry) -> Effect
        ensures { result ≡ record self { leaves = Some entry } }
    {
        Effect {
            leaves: Some(entry),
            ..self
        }
    }

    fn flowing(self, flow: Flow) -> Effect
        ensures { result ≡ record self { flow = flow } }
    {
        Effect { flow, ..self }
    }
}

impl Operation {
    pub fn effect(self) -> Effect
        ensures { result ≡ operation_effect self }
    {
        let nothing = Want::Nothing;
        let byte = Want::Exactly(Entry::from(Kind::Byte));
        let char = Want::Exactly(Entry::from(Kind::Char));
        let int = Want::Exactly(Entry::from(Kind::Int));
        match self {
            Operation::Halt => Effect::NONE.flowing(Flow::Halt),
            Operation::Load(kind) => Effect::through(nothing, kind).leaving(Entry::from(kind)),
            Operation::Store(kind) => Effect::through(Want::Exactly(Entry::from(kind)), kind),
            Operation::Constant(kind, _) | Operation::Allocate(kind) => {
                Effect::NONE.leaving(Entry::from(kind))
            }
            Operation::Text(count) => Effect::NONE.leaving(text_entry(count)),
            Operation::LocalAddress(number) => Effect::NONE.leaving(Entry {
                kind: EntryKind::Local,
                number,
            }),
            Operation::GlobalAddress(number) => Effect::NONE.leaving(Entry {
                kind: EntryKind::Global,
                number,
            }),
            Operation::Not => Effect::taking(nothing, byte).leaving(Entry::from(Kind::Byte)),
            Operation::Unary(_) => Effect::taking(nothing, int).leaving(Entry::from(Kind::Int)),
            Operation::Binary(Binary::Add) => {
                Effect::taking(int, Want::Address).leaving(Entry::from(Kind::Int))
            }
            Operation::Binary(_) => Effect::taking(int, int).leaving(Entry::from(Kind::Int)),
            Operation::Branch(Branch::Always, distance) => {
                Effect::NONE.flowing(Flow::Jump(distance))
            }
            Operation::Branch(Branch::When(_), distance) => {
                Effect::taking(int, int).flowing(Flow::Fork(distance))
            }
            Operation::Branch(Branch::Zero | Branch::NotZero, distance) => {
                Effect::taking(nothing, byte).flowing(Flow::Fork(distance))
            }
            Operation::ReadChar => Effect::through(nothing, Kind::Char),
            Operation::ReadInt => Effect::through(nothing, Kind::Int),
            Operation::WriteByte => Effect::taking(nothing, byte),
            Operation::WriteChar => Effect::taking(nothing, char),
            Operation::WriteInt => Effect::taking(nothing, int),
            Operation::WriteLine => Effect::NONE,
            Operation::WriteText(count) => {
                Effect::taking(nothing, Want::Exactly(text_entry(count)))
            }
        }
    }
}

// The entry of a text. Texts and addresses are made here alone, of operands.
pub fn text_entry(count: u8) -> Entry
    ensures { result ≡ text_entry count }
{
    Entry {
        kind: EntryKind::Text,
        number: u32::from(count),
    }
}

impl Instruction {
    pub fn effect(self) -> Effect
        ensures { result ≡ effect_of self }
    {
        match self {
            Instruction::Operation(operation) => operation.effect(),
            Instruction::Open(opening, size) => Effect::NONE.flowing(Flow::Open(opening, size)),
            Instruction::Call(distance) => Effect::NONE.flowing(Flow::Call(distance)),
            Instruction::Return(back) => Effect::NONE.flowing(Flow::Return(back.bytes())),
        }
    }
}

impl Flow {
    // Whether control can go on to the next instruction; after a call it does so when the callee returns.
    pub fn falls_through(self) -> bool
        ensures { result ≡ falls self }
    {
        matches!(
            self,
            Flow::Next | Flow::Fork(_) | Flow::Call(_) | Flow::Open(_, _)
        )
    }

    // Where a branch leads, given the offset of the next instruction.
    pub fn target(self, next: usize) -> Option<usize>
        ensures { result ≡ target_of next self }
    {
        match self {
            Flow::Jump(distance) | Flow::Fork(distance) => Some(displaced(next, distance)),
            _ => None,
        }
    }

    // Where a call leads, given the offset of the next instruction.
    pub fn callee(self, next: usize) -> Option<usize>
        ensures { result ≡ callee_of next self }
    {
        match self {
            Flow::Call(distance) => Some(displaced(next, distance)),
            _ => None,
        }
    }
}

// An offset and a distance from it, added in 32 bits; not by a cast of the offset, which would have to fit.
pub fn displaced(next: usize, distance: u32) -> usize
    ensures { result ≡ displaced_by next distance }
{
    next.wrapping_add(distance as usize) % 0x1_0000_0000
}
