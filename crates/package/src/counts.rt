// What is counted of a package.
ghost use Rattle.std.specs.Prelude.{Some};
ghost use Rattle.package.specs.Printing.{counts_text};

use std::fmt;

// How many bytes of code a package has, how many procedures and how many marks.
#[derive(Clone, Copy, PartialEq, Eq, Debug)]
pub struct Counts {
    pub code: usize,
    pub procedures: usize,
    pub marks: usize,
}

// The three numbers, parted by spaces.
impl fmt::Display for Counts {
    ghost output = { λ counts. Some (counts_text counts) };

    fn fmt<W: fmt::Write>(&self, f: &mut fmt::Formatter<W>) -> fmt::Result {
        let Counts {
            code,
            procedures,
            marks,
        } = *self;
        write!(f, "{code} {procedures} {marks}")
    }
}
