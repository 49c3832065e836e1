// Reading: from bytes to a package, or to the first thing that is wrong with them.
ghost use Rattle.std.specs.Prelude.{◌≡◌, ◌+◌, ◌^◌, ◌<◌, ◌≤◌, length};
ghost use Rattle.fields.specs.Fields.{cut, seen_field};
ghost use Rattle.package.specs.Format.{Valid};
ghost use Rattle.package.specs.Reading.{AcceptsExactly, RefusesFirst, judged, reading};
ghost use Rattle.package.specs.Rules.{miscounted, misplaced, unfit, unfit_mark, unfit_procedure};
ghost use Rattle.package.specs.Tags.{tag_byte};
ghost use Rattle.package.specs.Judging.{field_told, package_within, tallied};
ghost use Rattle.declarations.specs.Views.{marks_in};

use super::faults::ReadFault;
use super::shaped::{Shaped, Tag};
use super::views::ReadPackage;
use declarations::marks::{find_mark, has_entries};
use declarations::procedures::{has_kinds, is_result};
use declarations::{MarkView, ProcedureView};
use fields::next_field;

// The limits of the format.
const MOST_PROCEDURES: usize = 64;

const MOST_MARKS: usize = 512;

const MOST_LOCALS: u16 = 4096;

const MOST_DEPTH: u16 = 2000;

// Reads a package: a view of the bytes, or the first bad field with the lowest number that is broken there.
pub fn read<'a>(bytes: &'a [u8]) -> Result<ReadPackage<'a>, ReadFault>
    ensures answers { result ≡ reading bytes.now }
    ensures accepts_exactly { AcceptsExactly bytes.now result }
    ensures refuses_first { RefusesFirst bytes.now result }
{
    let mut tally = Tally {
        at: 0,
        code: 0,
        procedures: 0,
        last: 0,
        marks: 0,
        fore: 0,
    };
    let mut rest = bytes;
    // Not a `for` over `Fields`: that ends where a field is cut, and here the cut is a refusal.
    while !rest.is_empty() {
        let marked = &bytes[tally.fore..tally.at];
        let shaped = judge(rest, &tally, marked)?;
        tally.include(&shaped);
        rest = shaped.field.rest;
    }
    if tally.miscounts() {
        return Err(ReadFault::WrongCount(tally.at));
    }
    Ok(view(bytes, &tally))
}

// The view of bytes that hold nothing but good fields.
fn view<'a>(bytes: &'a [u8], tally: &Tally) -> ReadPackage<'a>
    requires code { 3 + tally.now.code ≤ tally.now.fore }
    requires fore { tally.now.fore ≤ length bytes.now }
    requires valid { Valid (package_within bytes.now tally.now.code tally.now.fore) }
    ensures { result ≡ package_within bytes.now tally.now.code tally.now.fore }
{
    let opening = 3 + tally.code;
    let marking = tally.fore;
    ReadPackage {
        code: &bytes[3..opening],
        procedures: &bytes[opening..marking],
        marks: &bytes[marking..],
    }
}

// What the fields before a place hold, in numbers. The bytes of the marks go beside it as an argument: a definition
// makes these numbers anew for each field, and a borrow of the bytes has no place in it.
#[derive(Drop)]
struct Tally {
    // the place, in bytes from the first
    at: usize,
    // bytes of code, which has at least one; 0 while its field has not come
    code: usize,
    procedures: usize,
    // the offset of the last procedure; 0 before the first, as the rules take it
    last: usize,
    marks: usize,
    // where the first mark stands, or may stand next
    fore: usize,
}

impl Tally {
    // Whether a field with a tag may not stand here.
    fn misplaces(&self, tag: Tag) -> bool
        ensures { result ≡ misplaced self.now.code self.now.marks (tag_byte tag) }
    {
        match tag {
            Tag::Code => self.code > 0,
            Tag::Procedure => self.code == 0 || self.marks > 0,
            Tag::Mark => self.code == 0,
        }
    }

    // Whether a procedure does not fit here. Its length is right.
    fn rejects_procedure(&self, body: &[u8]) -> bool
        requires { 8 ≤ length body.now }
        ensures { result ≡ unfit_procedure self.now.code self.now.procedures self.now.last body.now }
    {
        let procedure = ProcedureView::of(body);
        let offset = usize::from(procedure.offset);
        if offset >= self.code || procedure.locals > MOST_LOCALS || procedure.depth > MOST_DEPTH {
            return true;
        }
        // The bytes and not the view, which tells a kind also of a byte that names none.
        let result = body[6];
        if !is_result(result) || !has_kinds(body) {
            return true;
        }
        if self.procedures == 0 {
            return offset != 0 || result != 0 || body[7] != 0;
        }
        offset <= self.last
    }

    // Whether a mark does not fit here. Its length is right; the marks before it are given.
    fn rejects_mark(&self, body: &[u8], marked: &[u8]) -> bool
        requires { 2 ≤ length body.now }
        ensures { result ≡ unfit_mark self.now.code (marks_in marked.now) body.now }
    {
        let offset = usize::from(MarkView::of(body).offset);
        offset >= self.code || !has_entries(body) || find_mark(marked, offset).is_some()
    }

    // Whether anything but tag, length and counts is wrong with a field. The marks before it are given.
    fn rejects(&self, shaped: &Shaped<'_>, marked: &[u8]) -> bool
        ensures { result ≡ unfit self.now.code self.now.procedures self.now.last (marks_in marked.now) shaped.now.field.tag shaped.now.field.body.now }
    {
        let body = shaped.field.body;
        match shaped.tag {
            Tag::Code => false,
            Tag::Procedure => self.rejects_procedure(body),
            Tag::Mark => self.rejects_mark(body, marked),
        }
    }

    // Counts one more field.
    fn include(&mut self, shaped: &Shaped<'_>)
        requires room { self.old.at + (3 + length shaped.now.field.body.now) < 2 ^ 64 }
        requires procedures { self.old.procedures ≤ self.old.at }
        requires marks { self.old.marks ≤ self.old.at }
        ensures { self.new ≡ tallied self.old (seen_field shaped.now.field) }
    {
        let body = shaped.field.body;
        self.at += 3 + body.len();
        match shaped.tag {
            Tag::Code => {
                self.code = body.len();
                self.fore = self.at;
            }
            Tag::Procedure => {
                self.procedures += 1;
                self.last = usize::from(ProcedureView::of(body).offset);
                self.fore = self.at;
            }
            Tag::Mark => self.marks += 1,
        }
    }

    fn miscounts(&self) -> bool
        ensures { result ≡ miscounted self.now.procedures self.now.marks }
    {
        self.procedures == 0 || self.procedures > MOST_PROCEDURES || self.marks > MOST_MARKS
    }
}

// The field at the front of the rest, or what is wrong with it. The marks before it are given.
fn judge<'a>(rest: &'a [u8], tally: &Tally, marked: &[u8]) -> Result<Shaped<'a>, ReadFault>
    ensures { field_told result ≡ judged tally.now.code tally.now.procedures tally.now.last tally.now.marks (marks_in marked.now) tally.now.at (cut rest.now) }
{
    let at = tally.at;
    let Some(field) = next_field(rest) else {
        return Err(ReadFault::PastEnd(at));
    };
    let Ok(tag) = Tag::try_from(field.tag) else {
        return Err(ReadFault::WrongTag(at));
    };
    if tally.misplaces(tag) {
        return Err(ReadFault::WrongTag(at));
    }
    if tag.has_wrong_length(field.body) {
        return Err(ReadFault::WrongLength(at));
    }
    let shaped = Shaped { tag, field };
    if tally.rejects(&shaped, marked) {
        return Err(ReadFault::WrongContent(at));
    }
    Ok(shaped)
}
