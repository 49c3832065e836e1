// Checking bytes: reading a package, and clearing it.
ghost use Rattle.std.specs.Prelude.{◌≡◌, length, Some};
ghost use Rattle.clearing.specs.Checking.{checked, fault_text, work_left};
ghost use Rattle.clearing.specs.declared.checking.CheckFault.TheVariants.{Clear, Read};

use super::cleared::ClearedPackage;
use super::clearing::clear;
use package::{ReadFault, read};
use std::error::Error;
use std::fmt;
use verdict::ClearFault;

// Why bytes do not clear: the refusal of reading or of clearing, as it was given.
#[derive(Clone, Copy, PartialEq, Eq, Debug)]
pub enum CheckFault {
    Read(ReadFault),
    Clear(ClearFault),
}

impl From<ReadFault> for CheckFault {
    ghost from_gives = { λ fault made. made ≡ Read fault };

    fn from(fault: ReadFault) -> CheckFault {
        CheckFault::Read(fault)
    }
}

impl From<ClearFault> for CheckFault {
    ghost from_gives = { λ fault made. made ≡ Clear fault };

    fn from(fault: ClearFault) -> CheckFault {
        CheckFault::Clear(fault)
    }
}

// What the refusal itself prints.
impl fmt::Display for CheckFault {
    ghost output = { λ fault. Some (fault_text fault) };

    fn fmt<W: fmt::Write>(&self, f: &mut fmt::Formatter<W>) -> fmt::Result {
        match *self {
            CheckFault::Read(fault) => write!(f, "{fault}"),
            CheckFault::Clear(fault) => write!(f, "{fault}"),
        }
    }
}

impl Error for CheckFault {}

// Reads a package and clears it, in a lent work area of at least as many bytes as the code has. Bytes that cannot be
// read leave the work area as it was.
pub fn check<'a>(bytes: &'a [u8], work: &mut [u8]) -> Result<ClearedPackage<'a>, CheckFault>
    ensures answers { result ≡ checked bytes.now (length work.old) }
    ensures work_area { work.new ≡ work_left bytes.now work.old }
{
    let package = read(bytes)?;
    let cleared = clear(package, work)?;
    Ok(cleared)
}
