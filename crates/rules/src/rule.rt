// The rules by name.
ghost use Rattle.std.specs.Prelude.{◌≡◌};
ghost use Rattle.rules.specs.Numbers.{number_of};

// A rule that code may break at an offset.
#[derive(Clone, Copy, PartialEq, Eq, Debug)]
pub enum Rule {
    // The opcode is not listed, or its operand is cut or out of range.
    Undecoded,
    // A procedure's or a mark's offset where no instruction starts, a procedure that does not open as it must, an
    // opening elsewhere, or a mark at an opening.
    Misplaced,
    // Nothing falls into an instruction that has no mark.
    Unreached,
    // A mark differs from the shape that falls into it.
    UnlikeMark,
    // A branch does not lead to a mark of its procedure, or a call to a procedure.
    Astray,
    // The shape that is needed is not there.
    Missing,
    // An address out of its region, a local's address or a return in the program, or a return that removes too much or
    // too little.
    OutOfRegion,
    // More entries or bytes are left than may be.
    TooDeep,
    // The mark at a branch's target differs from the shape that is left.
    UnlikeTarget,
    // The last instruction of a procedure falls through.
    FallsOut,
}

impl Rule {
    // The number by which the rule is known.
    pub fn number(self) -> u8
        ensures { result ≡ number_of self }
    {
        match self {
            Rule::Undecoded => 7,
            Rule::Misplaced => 8,
            Rule::Unreached => 9,
            Rule::UnlikeMark => 10,
            Rule::Astray => 11,
            Rule::Missing => 12,
            Rule::OutOfRegion => 13,
            Rule::TooDeep => 14,
            Rule::UnlikeTarget => 15,
            Rule::FallsOut => 16,
        }
    }
}
