// The rule on places: where procedures open and where marks stand.
ghost use Rattle.std.specs.Prelude.{◌≡◌};
ghost use Rattle.instruction.specs.Decoding.{decoded};
ghost use Rattle.rules.specs.Places.{flow_in, is_opening, misplaced, opens_as, opens_with};

use instruction::{Flow, Opening, decode};
use package::ReadPackage;

// Whether the rule on places is broken at an offset, which is a start or not.
pub fn is_misplaced(read: &ReadPackage<'_>, at: usize, start: bool) -> bool
    ensures { result ≡ misplaced read.now at start }
{
    let owner = read.owner(at);
    let marked = read.mark_at(at).is_some();
    let flow = flow_at(read.code(), at);
    if usize::from(owner.offset) == at {
        marked || !(start && opens_as(flow, at, owner.locals))
    } else {
        marked && !start || start && is_opening(flow)
    }
}

// Where control goes from an offset; nowhere where no instruction decodes: what is not there opens nothing, like a
// halt.
fn flow_at(code: &[u8], at: usize) -> Flow
    ensures { result ≡ flow_in (decoded code.now at) }
{
    match decode(code, at) {
        Some(found) => found.instruction.effect().flow,
        None => Flow::Halt,
    }
}

fn is_opening(flow: Flow) -> bool
    ensures { result ≡ is_opening flow }
{
    matches!(flow, Flow::Open(_, _))
}

// Whether an instruction at an offset opens a procedure with so many bytes of variables.
fn opens_as(flow: Flow, at: usize, locals: u16) -> bool
    ensures { result ≡ opens_as at locals flow }
{
    match flow {
        Flow::Open(opening, size) => opens_with(opening, at) && size == u32::from(locals),
        _ => false,
    }
}

// The program, which opens at 0, has an instruction of its own for that.
fn opens_with(opening: Opening, at: usize) -> bool
    ensures { result ≡ opens_with opening at }
{
    match opening {
        Opening::Program => at == 0,
        Opening::Procedure => at != 0,
    }
}
