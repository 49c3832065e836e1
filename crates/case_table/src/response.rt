// What is printed of the lines of a table.
ghost use Rattle.std.specs.Prelude.{IfOk, string_bytes};
ghost use Rattle.std.specs.Fn.{FnOnceReturnsAt};
ghost use Rattle.case_table.specs.Lines.{IsLine};
ghost use Rattle.case_table.specs.Responses.{Answers, Says, response_text};
ghost use Rattle.case_table.specs.declared.line.Line.{Line};

use crate::bytes::assemble;
use crate::error::CaseError;
use crate::line::Line;
use std::alloc::{AllocError, Global};
use std::fmt;
use std::fmt::Display;

// What a line of a table is answered: a heading as it stands; of a case its name, and that its text spells no bytes, or
// what was done with them and how they were judged. It prints itself, and copies nothing of the line, which may be long.
#[derive(Drop)]
pub enum Response<'a, T, E> {
    Heading(&'a str),
    NoCase {
        name: &'a str,
    },
    Judged {
        name: &'a str,
        done: &'a str,
        verdict: Result<T, E>,
    },
}

impl<'a, T: Display + Drop, E: Display + Drop> Response<'a, T, E> {
    // The response to a line, the bytes of a case being judged.
    pub fn of<F: FnOnce(&[u8]) -> Result<T, E>>(
        heap: Global,
        line: &'a str,
        done: &'a str,
        judge: F,
    ) -> Result<Response<'a, T, E>, AllocError>
        requires { F.IsAlwaysCallable judge }
        ensures { IfOk result (λ response. (read : Line) × IsLine line.now read
            × Answers done.now (FnOnceReturnsAt F.FnOnce judge) read response) }
    {
        match Line::from(line) {
            Line::Heading(heading) => Ok(Response::Heading(heading)),
            Line::Case { name, text } => match assemble(heap, text) {
                Ok(bytes) => Ok(Response::Judged {
                    name,
                    done,
                    verdict: judge(bytes.as_slice()),
                }),
                Err(CaseError::Alloc(error)) => Err(error),
                Err(CaseError::NotACase) => Ok(Response::NoCase { name }),
            },
        }
    }
}

impl<T: Display + Drop, E: Display + Drop> Display for Response<'_, T, E> {
    ghost output = { response_text T.output E.output };

    fn fmt<W: fmt::Write>(&self, f: &mut fmt::Formatter<W>) -> fmt::Result {
        match self {
            Response::Heading(heading) => write!(f, "{heading}"),
            Response::NoCase { name } => {
                let no_case = CaseError::NotACase;
                write!(f, "{name}: {no_case}")
            }
            Response::Judged {
                name,
                done,
                verdict,
            } => match verdict {
                Ok(passed) => write!(f, "{name}: {done} {passed}"),
                Err(refusal) => write!(f, "{name}: {refusal}"),
            },
        }
    }
}

// The text of the response to a line.
pub fn respond<T: Display + Drop, E: Display + Drop, F: FnOnce(&[u8]) -> Result<T, E>>(
    heap: Global,
    line: &str,
    done: &str,
    judge: F,
) -> Result<String, AllocError>
    requires { F.IsAlwaysCallable judge }
    ensures { IfOk result (λ said. (read : Line) × IsLine line.now read
        × Says T.output E.output done.now (FnOnceReturnsAt F.FnOnce judge) read (string_bytes said)) }
{
    let response = Response::of(heap, line, done, judge)?;
    format!(in heap; "{response}")
}
