// Marks, as their fields hold them.
ghost use Rattle.std.specs.Prelude.{◌≡◌, ◌≤◌, length, drop};
ghost use Rattle.std.specs.Iterator.{YieldsFirst, YieldsLast, item_count};
ghost use Rattle.std.specs.List.{slice_get};
ghost use Rattle.declarations.specs.Entries.{are_entries};
ghost use Rattle.declarations.specs.Marks.{Mark, mark_at, mark_of};
ghost use Rattle.declarations.specs.Views.{entries_left, mark_found, mark_seen, marks_in};

use super::codes::{entry_of, is_entry};
use super::found::{FieldView, find_at};
use entries::Entry;
use std::slice::Iter;

// A mark: what the operand stack holds before the instruction at its offset. The entries stay in the package's bytes,
// three bytes each, bottom of the stack first. It has no model, since a struct that borrows and has one cannot be
// copied: clauses see it through `mark_seen`.
#[derive(Clone, Copy)]
pub struct MarkView<'a> {
    pub offset: u16,
    entries: &'a [[u8; 3]],
}

impl<'a> MarkView<'a> {
    // The mark that a field's body holds; a blank one of a body that is too short, which reading refuses,
    // since this call cannot fail.
    pub fn of(body: &'a [u8]) -> MarkView<'a>
        ensures { mark_seen result ≡ mark_of body.now }
    {
        let [o1, o0, entries @ ..] = body else {
            return MarkView {
                offset: 0,
                entries: &[],
            };
        };
        let (entries, _) = entries.as_chunks();
        MarkView {
            offset: u16::from_be_bytes([*o1, *o0]),
            entries,
        }
    }

    pub fn entry_count(&self) -> usize
        ensures { result ≡ length (mark_seen self.now).entries }
    {
        self.entries.len()
    }

    // An entry, counted from 0 at the bottom of the stack; none past the top.
    pub fn entry(&self, index: usize) -> Option<Entry>
        ensures { result ≡ slice_get (mark_seen self.now).entries index }
    {
        self.entries.get(index).map(entry_of)
    }

    // The entries, bottom of the stack first.
    pub fn entries(&self) -> Entries<'a>
        ensures { entries_left result ≡ (mark_seen self.now).entries }
    {
        Entries {
            rest: self.entries.iter(),
        }
    }
}

impl<'a> FieldView<'a> for MarkView<'a> {
    ghost Meaning = { Mark };

    ghost shown = { mark_seen };

    ghost told = { mark_of };

    ghost place = { λ it. it.offset };

    fn view(body: &'a [u8]) -> MarkView<'a> {
        MarkView::of(body)
    }

    fn place(body: &'a [u8]) -> usize {
        let [o1, o0, ..] = body else {
            return 0;
        };
        usize::from(u16::from_be_bytes([*o1, *o0]))
    }
}

// Entries of a mark, from either end.
#[derive(Clone, Drop)]
pub struct Entries<'a> {
    rest: Iter<'a, [u8; 3]>,
}

impl<'a> Iterator for Entries<'a> {
    type Item = Entry;

    ghost next_gives = { YieldsFirst entries_left };

    ghost remaining = { item_count entries_left };

    fn next(&mut self) -> Option<Entry> {
        self.rest.next().map(entry_of)
    }
}

impl<'a> DoubleEndedIterator for Entries<'a> {
    ghost next_back_gives = { YieldsLast entries_left };

    fn next_back(&mut self) -> Option<Entry> {
        self.rest.next_back().map(entry_of)
    }
}

// The mark at an offset, among mark fields that stand one behind another.
#[tactic(auto, unfolding(crate::specs::Marks::mark_at))]
pub fn find_mark<'a>(marks: &'a [u8], offset: usize) -> Option<MarkView<'a>>
    ensures { mark_found result ≡ mark_at (marks_in marks.now) offset }
{
    find_at(marks, offset)
}

// Whether the bytes behind the second list entries.
pub fn has_entries(body: &[u8]) -> bool
    requires { 2 ≤ length body.now }
    ensures { result ≡ are_entries (drop 2 body.now) }
{
    are_entries(&body[2..])
}

// Whether the bytes list entries, three bytes each.
fn are_entries(bytes: &[u8]) -> bool
    ensures { result ≡ are_entries bytes.now }
{
    let (entries, _) = bytes.as_chunks();
    entries.iter().all(is_entry)
}
