// The table of starts: where instructions start in the code.
#![tactic(auto)]

ghost use Rattle.std.specs.Prelude.{◌≡◌, ◌<◌, length, replicate};
ghost use Rattle.start_table.specs.Table.{Kept, Over, TellsMore, size, told};

// What a byte of the table holds where an instruction starts.
const START: u8 = 1;

// A table in lent bytes, one for each byte of code. When it ends, they are zero again.
pub struct StartTable<'a> {
    bytes: &'a mut [u8],
}

impl Drop for StartTable<'_> {
    fn drop(self)
        ensures { self.exit.0.now ≡ replicate (length self.entry.bytes.now) 0 }
    {
        let StartTable { bytes } = self;
        bytes.fill(0);
    }
}

#[tactic(auto, unfolding(crate::specs::Table::told))]
impl<'a> StartTable<'a> {
    // A table in which no start is told.
    pub fn new(work: &'a mut [u8]) -> StartTable<'a>
        ensures { Over work.entry result }
    {
        work.fill(0);
        StartTable { bytes: work }
    }

    pub fn set_start(&mut self, at: usize)
        requires { at < size self.old }
        ensures tells { TellsMore at self.old self.new }
        ensures kept { Kept self.old self.new }
    {
        self.bytes[at] = START;
    }

    // Whether a start is told at an offset; none is behind the code.
    pub fn is_start(&self, at: usize) -> bool
        ensures { result ≡ told self.now at }
    {
        self.bytes.get(at) == Some(&START)
    }
}
