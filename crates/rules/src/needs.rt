// What an instruction needs on the shape before it.
ghost use Rattle.std.specs.Prelude.{◌≡◌};
ghost use Rattle.declarations.specs.Views.{mark_seen, procedure_seen};
ghost use Rattle.shape.specs.Shapes.{taken};
ghost use Rattle.rules.specs.Asking.{mark_shape, shape_of};
ghost use Rattle.rules.specs.Needs.{argument, called, emptied, over_result, shape_before, under_arguments, under_upper, unlike};

use declarations::marks::MarkView;
use declarations::procedures::ProcedureView;
use entries::{Entry, Kind};
use instruction::effects::displaced;
use instruction::{Effect, Flow, Want};
use package::ReadPackage;
use shape::{MOST_ENTRIES, Shape};

// The shape before an instruction: a mark's, or else what falls in; before an opening the empty one.
pub fn shape_before(opens: bool, mark: &Option<Shape>, carry: &Option<Shape>) -> Option<Shape>
    ensures { result ≡ shape_before opens mark.now carry.now }
{
    if opens {
        Some(Shape::empty())
    } else {
        mark.as_ref().or(carry.as_ref()).copied()
    }
}

// Whether a mark differs from what falls in.
pub fn is_unlike(mark: &Option<Shape>, carry: &Option<Shape>) -> bool
    ensures { result ≡ unlike mark.now carry.now }
{
    match (mark, carry) {
        (Some(told), Some(fallen)) => told != fallen,
        _ => false,
    }
}

// What a call needs for a parameter of a kind.
fn argument_of(kind: Kind) -> Want
    ensures { result ≡ argument kind }
{
    Want::Exactly(Entry::from(kind))
}

// A shape without what is wanted on top; none where it is not there.
pub fn without(shape: &Shape, want: Want) -> Option<Shape>
    ensures { result ≡ taken want shape.now }
{
    let mut rest = *shape;
    rest.take(want)?;
    Some(rest)
}

// The shape under the arguments of a call.
fn under_arguments(callee: &ProcedureView<'_>, shape: &Shape) -> Option<Shape>
    ensures { result ≡ under_arguments (procedure_seen callee.now).parameters shape.now }
{
    let mut rest = *shape;
    for kind in callee.parameters().rev() {
        rest = without(&rest, argument_of(kind))?;
    }
    Some(rest)
}

// The result's entry, if there is a result, stands under the arguments, and stays.
fn over_result(res: Option<Kind>, shape: Shape) -> Option<Shape>
    ensures { result ≡ over_result res shape }
{
    let Some(kind) = res else {
        return Some(shape);
    };
    let top = shape.top()?;
    top.is_plain(kind).then_some(shape)
}

fn under_call(callee: &ProcedureView<'_>, shape: &Shape) -> Option<Shape>
    ensures { result ≡ called (procedure_seen callee.now) shape.now }
{
    over_result(callee.result, under_arguments(callee, shape)?)
}

// A return needs an empty shape.
fn if_empty(shape: &Shape) -> Option<Shape>
    ensures { result ≡ emptied shape.now }
{
    shape.is_empty().then_some(*shape)
}

// A shape without the upper part of what an instruction needs; none where it is not there.
pub fn under_upper(
    read: &ReadPackage<'_>,
    next: usize,
    effect: Effect,
    shape: &Shape,
) -> Option<Shape>
    ensures { result ≡ under_upper read.now next effect.upper effect.flow shape.now }
{
    match effect.flow {
        Flow::Call(distance) => under_call(&read.owner(displaced(next, distance)), shape),
        Flow::Return(_) => if_empty(shape),
        _ => without(shape, effect.upper),
    }
}

// The shape that the mark at an offset tells, if there is a mark.
pub fn mark_shape(read: &ReadPackage<'_>, at: usize) -> Option<Shape>
    ensures { result ≡ mark_shape read.now at }
{
    let mark = read.mark_at(at)?;
    Some(shape_told(&mark))
}

// The shape that a mark tells: of more entries than a shape can hold, which reading refuses, the lowest would show.
fn shape_told(mark: &MarkView<'_>) -> Shape
    ensures { result ≡ shape_of (mark_seen mark.now) }
{
    let mut shape = Shape::empty();
    for entry in mark.entries().take(MOST_ENTRIES) {
        // There is room: no more are taken than a shape can hold.
        let _ = shape.push(entry);
    }
    shape
}
