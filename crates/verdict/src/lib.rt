// What clearing answers, and the laws of its answers.
#![tactic(auto)]

ghost use Rattle.std.specs.Prelude.{◌≡◌, Some};
ghost use Rattle.package.specs.Printing.{refusal_text};
ghost use Rattle.verdict.specs.Numbers.{number, place};

use rules::Rule;
use std::error::Error;
use std::fmt;

// A refusal of clearing.
#[derive(Clone, Copy, PartialEq, Eq, Debug)]
pub enum ClearFault {
    // The work area is shorter than the code.
    WorkTooShort,
    // A rule is broken at an offset of the code.
    Broken(Rule, usize),
}

impl ClearFault {
    // The number by which authors know the refusal.
    pub fn number(&self) -> u8
        ensures { result ≡ number self.now }
    {
        match *self {
            ClearFault::WorkTooShort => 6,
            ClearFault::Broken(rule, _) => rule.number(),
        }
    }

    pub fn place(&self) -> usize
        ensures { result ≡ place self.now }
    {
        match *self {
            ClearFault::WorkTooShort => 0,
            ClearFault::Broken(_, place) => place,
        }
    }
}

// "refused", the number, "at" and the place, as refusals of reading print them. It is written for each type, since a
// derived `Display` has no contract.
impl fmt::Display for ClearFault {
    ghost output = { λ fault. Some (refusal_text (number fault) (place fault)) };

    fn fmt<W: fmt::Write>(&self, f: &mut fmt::Formatter<W>) -> fmt::Result {
        let number = self.number();
        let place = self.place();
        write!(f, "refused {number} at {place}")
    }
}

impl Error for ClearFault {}
