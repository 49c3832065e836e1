// Clearing a package.
ghost use Rattle.std.specs.Prelude.{◌≡◌, length, replicate};
ghost use Rattle.verdict.specs.Answers.{ClearsExactly, FirstBroken, clearing};
ghost use Rattle.verdict.specs.Breaking.{verdict};
ghost use Rattle.clearing.specs.Passing.{passed, work_after};

use super::cleared::ClearedPackage;
use super::passes::check_rules;
use package::ReadPackage;
use start_table::StartTable;
use verdict::ClearFault;

// Clears a package that was read, in a lent work area of at least as many bytes as the code has.
#[tactic(auto, unfolding(start_table::specs::Wiping::wiped))]
pub fn clear<'a>(read: ReadPackage<'a>, work: &mut [u8]) -> Result<ClearedPackage<'a>, ClearFault>
    ensures answers { result ≡ clearing read.entry (length work.old) }
    ensures clears_exactly { ClearsExactly read.entry (length work.old) result }
    ensures first_broken { FirstBroken read.entry result }
    ensures work_area { work.new ≡ work_after (length read.entry.code) work.old }
{
    let size = read.code().len();
    if work.len() < size {
        return Err(ClearFault::WorkTooShort);
    }
    check_within(&read, &mut work[..size])?;
    Ok(ClearedPackage { read })
}

// All the rules, with the starts told in as many bytes as the code has; the table zeroes them again, whatever the
// answer is.
fn check_within(read: &ReadPackage<'_>, work: &mut [u8]) -> Result<(), ClearFault>
    requires { length read.now.code ≡ length work.old }
    ensures answers { result ≡ passed (verdict read.now) }
    ensures work_area { work.new ≡ replicate (length work.old) 0 }
{
    let mut table = StartTable::new(work);
    check_rules(read, &mut table)
}
