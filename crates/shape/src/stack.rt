// Entries on a shape.
ghost use Rattle.std.specs.Prelude.{◌≡◌, ◌≤◌, [], length, ◌==◌, nat_lt};
ghost use Rattle.shape.specs.Shapes.{Left, Popped, Pushed, Taken, fits, shape_size, top_of};

use super::{BLANK, Full, MOST_ENTRIES, Shape};
use entries::Entry;
use instruction::Want;

// Whether an entry is what is wanted.
pub fn fits_want(entry: Entry, want: Want) -> bool
    ensures { result ≡ fits want entry }
{
    match want {
        Want::Nothing => true,
        Want::Exactly(wanted) => entry == wanted,
        Want::Address => entry.is_address(),
    }
}

impl Shape {
    // The shape with no entry.
    pub fn empty() -> Shape
        ensures { result ≡ [] }
    {
        Shape {
            rows: [BLANK; 16],
            count: 0,
        }
    }

    // A caller learns here, too, that a shape has at most sixteen entries, whatever it was made by.
    pub fn is_empty(&self) -> bool
        ensures is { result ≡ (length self.now == 0) }
        ensures few { length self.now ≤ 16 }
    {
        self.count == 0
    }

    // One entry more on top; an error, and nothing changed, where sixteen are held.
    pub fn push(&mut self, entry: Entry) -> Result<(), Full>
        ensures { Pushed result entry self.old self.new }
    {
        if self.count == MOST_ENTRIES {
            return Err(Full);
        }
        let row = &mut self.rows[self.count];
        *row = entry;
        self.count += 1;
        Ok(())
    }

    // Takes the entry on top.
    pub fn pop(&mut self) -> Option<Entry>
        ensures { Popped result self.old self.new }
    {
        let top = self.count.checked_sub(1)?;
        let row = &mut self.rows[top];
        let entry = *row;
        *row = BLANK;
        self.count = top;
        Some(entry)
    }

    // The entry on top.
    pub fn top(&self) -> Option<Entry>
        ensures { result ≡ top_of self.now }
    {
        self.rows[..self.count].last().copied()
    }

    // Takes what is wanted from the top; none, for a `?`, where it is not there: then the entry on top is gone.
    pub fn take(&mut self, want: Want) -> Option<()>
        ensures { Taken want self.old self.new result }
    {
        match want {
            Want::Nothing => Some(()),
            _ => {
                let entry = self.pop()?;
                fits_want(entry, want).then_some(())
            }
        }
    }

    // Leaves an entry on top, if there is one to leave; an error, and nothing changed, where sixteen are held. With
    // nothing to leave there is no error, since no more are held.
    pub fn leave(&mut self, entry: Option<Entry>) -> Result<(), Full>
        ensures left { Left entry self.old self.new result }
        ensures few { length self.old ≤ 16 }
    {
        // With nothing to leave, too, at most sixteen are held.
        prove!(self.count <= MOST_ENTRIES);
        match entry {
            Some(entry) => self.push(entry),
            None => Ok(()),
        }
    }

    // Whether the entries take more bytes than a limit.
    pub fn exceeds(&self, limit: u16) -> bool
        ensures { result ≡ nat_lt limit (shape_size self.now) }
    {
        let size: usize = self.rows[..self.count]
            .iter()
            .map(|entry| entry.size())
            .sum();
        size > usize::from(limit)
    }
}
