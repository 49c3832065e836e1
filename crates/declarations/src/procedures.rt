// Procedures, as their fields declare them.
ghost use Rattle.std.specs.Prelude.{◌≡◌, ◌≤◌, length, take, drop};
ghost use Rattle.std.specs.Iterator.{YieldsFirst, YieldsLast, item_count};
ghost use Rattle.std.specs.List.{slice_get};
ghost use Rattle.declarations.specs.Kinds.{are_kinds, is_result, result_byte};
ghost use Rattle.declarations.specs.Procedures.{Procedure, opening_at, owner_of, program_of, blank, parameters_size, procedure_of};
ghost use Rattle.declarations.specs.Views.{parameters_left, procedure_found, procedure_seen, procedures_in};

use super::codes::{is_kind, kind_of, result_of};
use super::found::{FieldView, find_at};
use entries::Kind;
use fields::Fields;
use std::slice::Iter;

// A procedure: where it opens in the code, how many bytes of locals it has, how many bytes its operand stack may hold
// above them, its result and its parameters. The parameters' kinds stay in the package's bytes. It has no model, since
// a struct that borrows and has one cannot be copied: clauses see it through `procedure_seen`.
#[derive(Clone, Copy)]
pub struct ProcedureView<'a> {
    pub offset: u16,
    pub locals: u16,
    pub depth: u16,
    pub result: Option<Kind>,
    kinds: &'a [u8],
}

impl<'a> ProcedureView<'a> {
    // What stands for a procedure where there is none. Not an option, as the look-ups cannot fail: what was read has
    // one.
    fn blank() -> ProcedureView<'a>
        ensures { procedure_seen result ≡ blank }
    {
        ProcedureView {
            offset: 0,
            locals: 0,
            depth: 0,
            result: None,
            kinds: &[],
        }
    }

    // The procedure that a field's body declares; a blank one of a body that is too short, which reading
    // refuses, since this call cannot fail.
    pub fn of(body: &'a [u8]) -> ProcedureView<'a>
        ensures { procedure_seen result ≡ procedure_of body.now }
    {
        let [o1, o0, l1, l0, d1, d0, result, _, kinds @ ..] = body else {
            return ProcedureView::blank();
        };
        ProcedureView {
            offset: u16::from_be_bytes([*o1, *o0]),
            locals: u16::from_be_bytes([*l1, *l0]),
            depth: u16::from_be_bytes([*d1, *d0]),
            result: result_of(*result),
            kinds,
        }
    }

    // The kind bytes of the parameters. There are at most 8; of more, which reading refuses, 8 would show.
    fn kind_bytes(&self) -> &'a [u8]
        ensures { result.now ≡ take 8 self.now.kinds.now }
    {
        self.kinds.get(..8).unwrap_or(self.kinds)
    }

    pub fn parameter_count(&self) -> usize
        ensures { result ≡ length (procedure_seen self.now).parameters }
    {
        self.kind_bytes().len()
    }

    // The kind of a parameter, counted from 0 in the order of declaration; none past the last.
    pub fn parameter(&self, index: usize) -> Option<Kind>
        ensures { result ≡ slice_get (procedure_seen self.now).parameters index }
    {
        self.kind_bytes().get(index).map(|byte| kind_of(*byte))
    }

    // The kinds of the parameters, in the order of declaration.
    pub fn parameters(&self) -> Parameters<'a>
        ensures { parameters_left result ≡ (procedure_seen self.now).parameters }
    {
        Parameters {
            rest: self.kind_bytes().iter(),
        }
    }

    // How many bytes all parameters take together.
    pub fn parameters_size(&self) -> usize
        ensures { result ≡ parameters_size (procedure_seen self.now).parameters }
    {
        self.parameters().map(Kind::size).sum()
    }

    // How many bytes the result takes: 0 where there is none.
    pub fn result_size(&self) -> usize
        ensures { result ≡ result_byte (procedure_seen self.now).result }
    {
        self.result.map_or(0, Kind::size)
    }
}

impl<'a> FieldView<'a> for ProcedureView<'a> {
    ghost Meaning = { Procedure };

    ghost shown = { procedure_seen };

    ghost told = { procedure_of };

    ghost place = { λ it. it.offset };

    fn view(body: &'a [u8]) -> ProcedureView<'a> {
        ProcedureView::of(body)
    }

    fn place(body: &'a [u8]) -> usize {
        let [o1, o0, _, _, _, _, _, _, ..] = body else {
            return 0;
        };
        usize::from(u16::from_be_bytes([*o1, *o0]))
    }
}

// The kinds of a procedure's parameters, from either end. It is written beside `Entries`: one iterator for both would
// take a trait for what each decodes, and be longer.
#[derive(Clone, Drop)]
pub struct Parameters<'a> {
    rest: Iter<'a, u8>,
}

impl<'a> Iterator for Parameters<'a> {
    type Item = Kind;

    ghost next_gives = { YieldsFirst parameters_left };

    ghost remaining = { item_count parameters_left };

    fn next(&mut self) -> Option<Kind> {
        self.rest.next().map(|byte| kind_of(*byte))
    }
}

impl<'a> DoubleEndedIterator for Parameters<'a> {
    ghost next_back_gives = { YieldsLast parameters_left };

    fn next_back(&mut self) -> Option<Kind> {
        self.rest.next_back().map(|byte| kind_of(*byte))
    }
}

// The first of some procedures, whose fields stand one behind another: the program.
#[tactic(auto, unfolding(crate::specs::Procedures::program_of))]
pub fn first_procedure<'a>(procedures: &'a [u8]) -> ProcedureView<'a>
    ensures { procedure_seen result ≡ program_of (procedures_in procedures.now) }
{
    Fields::of(procedures)
        .next()
        .map(|first| ProcedureView::of(first.body))
        .unwrap_or(ProcedureView::blank())
}

// The procedure that owns an offset of the code, among procedure fields that stand one behind another.
pub fn find_owner<'a>(procedures: &'a [u8], offset: usize) -> ProcedureView<'a>
    ensures { procedure_seen result ≡ owner_of (procedures_in procedures.now) offset }
{
    // Bodies, and not views, since the latter take half as long again.
    let body = Fields::of(procedures)
        .map(|field| field.body)
        .take_while(|body| ProcedureView::place(body) <= offset)
        .last()
        .unwrap_or(&[]);
    ProcedureView::of(body)
}

// The procedure that opens at an offset of the code, among procedure fields that stand one behind another.
#[tactic(auto, unfolding(crate::specs::Procedures::opening_at))]
pub fn find_opening<'a>(procedures: &'a [u8], offset: usize) -> Option<ProcedureView<'a>>
    ensures { procedure_found result ≡ opening_at (procedures_in procedures.now) offset }
{
    find_at(procedures, offset)
}

// Whether each byte behind the eighth names a kind.
pub fn has_kinds(body: &[u8]) -> bool
    requires { 8 ≤ length body.now }
    ensures { result ≡ are_kinds (drop 8 body.now) }
{
    are_kinds(&body[8..])
}

// Whether each byte names a kind.
fn are_kinds(bytes: &[u8]) -> bool
    ensures { result ≡ are_kinds bytes.now }
{
    bytes.iter().all(|byte| is_kind(*byte))
}

// Whether a byte names a result: a kind, or 0 for none, which no conversion to a kind has.
pub fn is_result(byte: u8) -> bool
    ensures { result ≡ is_result byte }
{
    byte == 0 || is_kind(byte)
}
