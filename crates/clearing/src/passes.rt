// The passes over the code. Package and table are two arguments, since the first pass is lent the table to write, and
// the others to read: a struct of both would be made twice. Each goes over the offsets, since these are what is asked
// about.
ghost use Rattle.std.specs.Prelude.{◌≡◌, [], ◌∷◌, length, Ok};
ghost use Rattle.rules.specs.declared.rule.Rule.TheVariants.{Misplaced, Undecoded};
ghost use Rattle.rules.specs.Sites.{instruction_rules};
ghost use Rattle.start_table.specs.Table.{Kept, size};
ghost use Rattle.verdict.specs.Breaking.{first_breach, verdict};
ghost use Rattle.clearing.specs.Passing.{Blank, TellsStarts, passed};

use instruction::decode;
use package::ReadPackage;
use rules::Rule;
use rules::places::is_misplaced;
use rules::sites::judge;
use start_table::StartTable;
use verdict::ClearFault;

// All the rules, in three passes.
pub(crate) fn check_rules(
    read: &ReadPackage<'_>,
    table: &mut StartTable<'_>,
) -> Result<(), ClearFault>
    requires size { length read.now.code ≡ size table.old }
    requires blank { Blank table.old }
    ensures answers { result ≡ passed (verdict read.now) }
    ensures kept { Kept table.old table.new }
{
    find_starts(read, table)?;
    check_places(read, table)?;
    check_instructions(read, table)
}

// Tells each start in the table, or names the first at which no instruction decodes.
fn find_starts(read: &ReadPackage<'_>, table: &mut StartTable<'_>) -> Result<(), ClearFault>
    requires size { length read.now.code ≡ size table.old }
    requires blank { Blank table.old }
    ensures answers { result ≡ passed (first_breach read.now (Undecoded ∷ [])) }
    ensures starts { result ≡ Ok tt → TellsStarts read.now.code table.new (length read.now.code) }
    ensures kept { Kept table.old table.new }
{
    let code = read.code();
    let mut next = 0;
    for at in 0..code.len() {
        if at == next {
            table.set_start(at);
            let Some(found) = decode(code, at) else {
                return Err(ClearFault::Broken(Rule::Undecoded, at));
            };
            next = found.next;
        }
    }
    Ok(())
}

// The rule on places, at each offset.
fn check_places(read: &ReadPackage<'_>, table: &StartTable<'_>) -> Result<(), ClearFault>
    requires { TellsStarts read.now.code table.now (length read.now.code) }
    ensures answers { result ≡ passed (first_breach read.now (Misplaced ∷ [])) }
{
    for at in 0..read.code().len() {
        if is_misplaced(read, at, table.is_start(at)) {
            return Err(ClearFault::Broken(Rule::Misplaced, at));
        }
    }
    Ok(())
}

// The rules on instructions, at each start, with the shape that falls on from each to the next.
fn check_instructions(read: &ReadPackage<'_>, table: &StartTable<'_>) -> Result<(), ClearFault>
    requires { TellsStarts read.now.code table.now (length read.now.code) }
    ensures answers { result ≡ passed (first_breach read.now instruction_rules) }
{
    let mut carry = None;
    for at in 0..read.code().len() {
        if table.is_start(at) {
            match judge(read, at, carry) {
                Ok(left) => carry = left,
                Err(rule) => return Err(ClearFault::Broken(rule, at)),
            }
        }
    }
    Ok(())
}
