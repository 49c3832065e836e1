// Decoding: the instruction at an offset of the code.
ghost use Rattle.std.specs.Prelude.{◌≡◌, ◌+◌, ◌≤◌, ◌-◌, ℕ, length, OnSome};
ghost use Rattle.instruction.specs.Decoding.{Within, decoded, line_at, read_to};
ghost use Rattle.instruction.specs.Table.{line_of};

use super::operand::{byte, count, kind, text, unit, word};
use super::operations::{Binary, Branch, Compare, Instruction, Opening, Operation, Return, Unary};
use entries::Kind;

// An instruction with the offset behind it.
#[derive(Clone, Copy)]
pub struct Decoded {
    pub instruction: Instruction,
    pub next: usize,
}

// The instruction at an offset of the code; none where its opcode is not listed, or its operand is cut or out of range.
#[tactic(auto, using(crate::proofs::Forward::within), unfolding(crate::specs::Decoding::decoded))]
pub fn decode(code: &[u8], at: usize) -> Option<Decoded>
    ensures is { result ≡ decoded code.now at }
    ensures within { Within code.now at result }
{
    let opcode = *code.get(at)?;
    let mut rest = &code[at + 1..];
    let instruction = with_operand(opcode, &mut rest)?;
    Some(Decoded {
        instruction,
        next: code.len() - rest.len(),
    })
}

// The instruction of an opcode, wherever it stands; the operand is taken off the front of the rest.
fn with_operand(opcode: u8, rest: &mut &[u8]) -> Option<Instruction>
    ensures shorter { OnSome result (length rest.new.now ≤ length rest.old.now) }
    ensures is { (at : ℕ) → read_to (at + 1 + (length rest.old.now - length rest.new.now)) result ≡ line_at (line_of opcode) at rest.old.now }
{
    let operation = match opcode {
        0 => Operation::Halt,
        10 => Operation::Load(Kind::Byte),
        11 => Operation::Load(Kind::Char),
        12 => Operation::Load(Kind::Int),
        20 => Operation::Constant(Kind::Byte, u32::from(byte(rest)?)),
        21 => Operation::Constant(Kind::Byte, 0),
        22 => Operation::Constant(Kind::Byte, 1),
        23 => Operation::Constant(Kind::Char, u32::from(unit(rest)?)),
        24 => Operation::Constant(Kind::Int, word(rest)?),
        25 => Operation::Constant(Kind::Int, 0),
        26 => Operation::Constant(Kind::Int, 1),
        27 => Operation::Text(text(rest)?),
        28 => Operation::LocalAddress(word(rest)?),
        29 => Operation::GlobalAddress(word(rest)?),
        31 => Operation::Store(Kind::Byte),
        32 => Operation::Store(Kind::Char),
        33 => Operation::Store(Kind::Int),
        40 => Operation::Allocate(kind(rest)?),
        42 => Operation::Not,
        44 => Operation::Unary(Unary::ShiftLeft(byte(rest)? % 32)),
        45 => Operation::Unary(Unary::ShiftRight(byte(rest)? % 32)),
        50 => Operation::Branch(Branch::Always, word(rest)?),
        51 => Operation::Branch(Branch::When(Compare::Equal), word(rest)?),
        52 => Operation::Branch(Branch::When(Compare::NotEqual), word(rest)?),
        53 => Operation::Branch(Branch::When(Compare::Greater), word(rest)?),
        54 => Operation::Branch(Branch::When(Compare::GreaterOrEqual), word(rest)?),
        55 => Operation::Branch(Branch::When(Compare::Less), word(rest)?),
        56 => Operation::Branch(Branch::When(Compare::LessOrEqual), word(rest)?),
        57 => Operation::Branch(Branch::Zero, word(rest)?),
        58 => Operation::Branch(Branch::NotZero, word(rest)?),
        70 => Operation::Binary(Binary::Add),
        71 => Operation::Binary(Binary::Subtract),
        72 => Operation::Binary(Binary::Multiply),
        73 => Operation::Binary(Binary::Divide),
        74 => Operation::Binary(Binary::Remainder),
        75 => Operation::Unary(Unary::Negate),
        76 => Operation::Unary(Unary::Increment),
        77 => Operation::Unary(Unary::Decrement),
        80 => Operation::ReadChar,
        81 => Operation::ReadInt,
        83 => Operation::WriteByte,
        84 => Operation::WriteChar,
        85 => Operation::WriteInt,
        86 => Operation::WriteLine,
        87 => Operation::WriteText(count(rest)?),
        90 => return Some(Instruction::Open(Opening::Program, word(rest)?)),
        91 => return Some(Instruction::Open(Opening::Procedure, word(rest)?)),
        92 => return Some(Instruction::Call(word(rest)?)),
        93 => return Some(Instruction::Return(Return::Bytes(word(rest)?))),
        94 => return Some(Instruction::Return(Return::Zero)),
        95 => return Some(Instruction::Return(Return::Four)),
        _ => return None,
    };
    Some(Instruction::Operation(operation))
}
