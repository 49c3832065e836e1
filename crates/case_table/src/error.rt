// Why a text gives no bytes.
ghost use Rattle.std.specs.Prelude.{◌≡◌, ◌≢◌, Some};
ghost use Rattle.case_table.specs.Errors.{error_text};
ghost use Rattle.case_table.specs.declared.error.CaseError.TheVariants.{NotACase};

use std::alloc::{AllocError, AllocFailed};
use std::error::Error;
use std::fmt;
use std::num::ParseIntError;

#[derive(Clone, Copy, PartialEq, Eq, Debug)]
pub enum CaseError {
    // The text spells no bytes.
    NotACase,
    // There was no memory for the bytes.
    Alloc(AllocError),
}

impl fmt::Display for CaseError {
    ghost output = { λ error. Some (error_text error) };

    fn fmt<W: fmt::Write>(&self, f: &mut fmt::Formatter<W>) -> fmt::Result {
        match self {
            CaseError::NotACase => write!(f, "no case"),
            CaseError::Alloc(_) => write!(f, "out of memory"),
        }
    }
}

impl Error for CaseError {}

impl From<AllocFailed<u8>> for CaseError {
    ghost from_gives = { λ _ e. e ≢ NotACase };

    fn from(failed: AllocFailed<u8>) -> CaseError {
        CaseError::Alloc(AllocError::from(failed))
    }
}

// A count that is no number makes its group none.
impl From<ParseIntError> for CaseError {
    ghost from_gives = { λ _ e. e ≡ NotACase };

    fn from(_error: ParseIntError) -> CaseError {
        CaseError::NotACase
    }
}
