// The lines of a table.
ghost use Rattle.case_table.specs.Lines.{IsLine};

// A line of a table: a case where it has a colon, cut at the first, and else a heading.
#[derive(Clone, Copy, PartialEq, Eq, Debug)]
pub enum Line<'a> {
    Heading(&'a str),
    Case { name: &'a str, text: &'a str },
}

impl<'a> From<&'a str> for Line<'a> {
    ghost from_gives = { λ line r. IsLine line.now r };

    fn from(line: &'a str) -> Line<'a> {
        match line.split_once(':') {
            Some((name, text)) => Line::Case { name, text },
            None => Line::Heading(line),
        }
    }
}
