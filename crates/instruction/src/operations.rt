// The instructions, as enums.
use entries::Kind;

// How two integers compare: the one that was pushed first stands on the left.
#[derive(Clone, Copy)]
pub enum Compare {
    Equal,
    NotEqual,
    Greater,
    GreaterOrEqual,
    Less,
    LessOrEqual,
}

// When a branch is taken.
#[derive(Clone, Copy)]
pub enum Branch {
    Always,
    When(Compare),
    Zero,
    NotZero,
}

// From two integers to one.
#[derive(Clone, Copy)]
pub enum Binary {
    Add,
    Subtract,
    Multiply,
    Divide,
    Remainder,
}

// From an integer to an integer; a shift is by 0 to 31.
#[derive(Clone, Copy)]
pub enum Unary {
    Negate,
    Increment,
    Decrement,
    ShiftLeft(u8),
    ShiftRight(u8),
}

// Back to the caller: with a number of parameter bytes to remove, or with 0 or 4.
#[derive(Clone, Copy)]
pub enum Return {
    Bytes(u32),
    Zero,
    Four,
}

// What stands at a procedure's offset.
#[derive(Clone, Copy)]
pub enum Opening {
    Program,
    Procedure,
}

// What neither opens nor calls nor leaves a procedure.
#[derive(Clone, Copy)]
pub enum Operation {
    Halt,
    Load(Kind),
    Store(Kind),
    Constant(Kind, u32),
    // a text of so many units, which stand in the code
    Text(u8),
    LocalAddress(u32),
    GlobalAddress(u32),
    Allocate(Kind),
    Not,
    Unary(Unary),
    Binary(Binary),
    // with the distance of its target from the next instruction
    Branch(Branch, u32),
    ReadChar,
    ReadInt,
    WriteByte,
    WriteChar,
    WriteInt,
    WriteLine,
    WriteText(u8),
}

#[derive(Clone, Copy)]
pub enum Instruction {
    Operation(Operation),
    // with the bytes of variables
    Open(Opening, u32),
    // with the distance of the called procedure from the next instruction
    Call(u32),
    Return(Return),
}
