// Why bytes are no package.
ghost use Rattle.std.specs.Prelude.{◌≡◌, Some};
ghost use Rattle.package.specs.Printing.{refusal_text};
ghost use Rattle.package.specs.Reading.{number, place};

use std::error::Error;
use std::fmt;

// A refusal of reading, with the place of the bad field: where its tag stands, counted in bytes from the first.
#[derive(Clone, Copy, PartialEq, Eq, Debug)]
pub enum ReadFault {
    // The field runs past the end of the bytes.
    PastEnd(usize),
    // The tag is unknown, the first is not the code's, a later one is, or a procedure follows a mark.
    WrongTag(usize),
    // The field's length, or a count in it, breaks its layout or limit.
    WrongLength(usize),
    // Anything else in the field breaks a rule.
    WrongContent(usize),
    // There is no procedure, or more than 64, or more than 512 marks. The place is the number of bytes.
    WrongCount(usize),
}

impl ReadFault {
    // The number by which authors know the refusal.
    pub fn number(&self) -> u8
        ensures { result ≡ number self.now }
    {
        match self {
            ReadFault::PastEnd(_) => 1,
            ReadFault::WrongTag(_) => 2,
            ReadFault::WrongLength(_) => 3,
            ReadFault::WrongContent(_) => 4,
            ReadFault::WrongCount(_) => 5,
        }
    }

    pub fn place(&self) -> usize
        ensures { result ≡ place self.now }
    {
        match *self {
            ReadFault::PastEnd(place)
            | ReadFault::WrongTag(place)
            | ReadFault::WrongLength(place)
            | ReadFault::WrongContent(place)
            | ReadFault::WrongCount(place) => place,
        }
    }
}

// "refused", the number, "at" and the place.
impl fmt::Display for ReadFault {
    ghost output = { λ fault. Some (refusal_text (number fault) (place fault)) };

    fn fmt<W: fmt::Write>(&self, f: &mut fmt::Formatter<W>) -> fmt::Result {
        let number = self.number();
        let place = self.place();
        write!(f, "refused {number} at {place}")
    }
}

impl Error for ReadFault {}
