// A shape: what the operand stack holds, as a list of entries.
#![tactic(auto)]

use entries::{Entry, EntryKind};
use std::marker::Model;

pub mod stack;

// How many entries a shape may have.
pub const MOST_ENTRIES: usize = 16;

// A row that holds no entry.
const BLANK: Entry = Entry {
    kind: EntryKind::Byte,
    number: 0,
};

// A shape: a table of sixteen rows, of which the first `count` hold the entries, bottom of the stack first, and the
// others are blank. Clauses see the list of its entries, the top of the stack first. The table is fixed, since no card
// has a heap; a vector of `arrayvec` has a length beside it too, and cannot be copied.
#[derive(Clone, Copy)]
pub struct Shape {
    rows: [Entry; 16],
    count: usize,
}

impl Model for Shape {
    ghost use Rattle.std.specs.Prelude.{List};
    ghost use Rattle.entries.specs.declared.Entry.{Entry};

    ghost Value = { List Entry };

    ghost use Rattle.shape.specs.Rows.{BlankBehind, entries_of, rows_back, rows_of};

    ghost view = { entries_of };

    ghost invariant = { BlankBehind };

    ghost inverse = { rows_of };

    ghost inverse_ok = { rows_back };
}

// Written out, since shapes are compared by their entries: of a derived one clauses would speak of all sixteen rows.
impl PartialEq for Shape {
    ghost use Rattle.std.specs.Cmp.{partial_equiv_from_equiv};
    ghost use Rattle.shape.specs.Shapes.{same_shape, same_shape_equiv};

    ghost eq = { same_shape };

    ghost laws = { partial_equiv_from_equiv same_shape_equiv };

    fn eq(&self, other: &Shape) -> bool {
        self.rows[..self.count] == other.rows[..other.count]
    }
}

impl Eq for Shape {
    ghost use Rattle.shape.specs.Shapes.{same_shape_equiv};

    ghost laws = { same_shape_equiv };
}

// Why an entry is not pushed: as many are held as a shape may have.
#[derive(Clone, Copy, PartialEq, Eq, Debug)]
pub struct Full;
