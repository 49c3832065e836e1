// The region rule, and what may be left and removed.
ghost use Rattle.std.specs.Prelude.{◌≡◌};
ghost use Rattle.declarations.specs.Views.{procedure_seen};
ghost use Rattle.rules.specs.Asking.{is_program};
ghost use Rattle.rules.specs.Regions.{entry_reaches, leaves_stray, local_reaches, strays, top_reaches, wrong_return};

use declarations::procedures::ProcedureView;
use entries::{Entry, EntryKind};
use instruction::{Effect, Flow};

// What lies between the frame and the variables: the caller's frame and the offset to return to, four bytes each.
const LINK_SIZE: usize = 8;

// What the code of a procedure may touch: its own parameters, result and variables, and so many bytes of globals.
#[derive(Clone, Copy)]
pub struct Region<'a> {
    pub owner: ProcedureView<'a>,
    pub globals: u16,
}

impl Region<'_> {
    // Whether an instruction breaks the region rule, or leaves or removes what it must not. It finds an entry, if any,
    // where it takes the address that it touches through.
    pub fn is_left_by(&self, effect: Effect, found: Option<Entry>) -> bool
        ensures { result ≡ strays self.now.globals (procedure_seen self.now.owner) effect found }
    {
        effect.touches > 0 && !self.reaches_top(found, effect.touches)
            || self.strays_left(effect.leaves)
            || self.is_wrong_return(effect.flow)
    }

    // The program is the procedure that opens the code.
    fn is_program(&self) -> bool
        ensures { result ≡ is_program (procedure_seen self.now.owner) }
    {
        self.owner.offset == 0
    }

    // Whether so many bytes may be touched from a local on.
    fn reaches_local(&self, number: u32, width: u8) -> bool
        ensures { result ≡ local_reaches (procedure_seen self.now.owner) width number }
    {
        let from = number as usize;
        let end = from + usize::from(width);
        let passed = self.owner.parameters_size() + self.owner.result_size();
        let in_passed = from + passed >= 0x1_0000_0000 && end <= 0x1_0000_0000;
        let in_variables = from >= LINK_SIZE && end <= LINK_SIZE + usize::from(self.owner.locals);
        in_passed || in_variables
    }

    // Whether so many bytes may be touched through an entry.
    fn reaches(&self, entry: Entry, width: u8) -> bool
        ensures { result ≡ entry_reaches self.now.globals (procedure_seen self.now.owner) width entry }
    {
        match entry.kind {
            EntryKind::Local => self.reaches_local(entry.number, width),
            EntryKind::Global => {
                entry.number as usize + usize::from(width) <= usize::from(self.globals)
            }
            EntryKind::Byte | EntryKind::Char | EntryKind::Int | EntryKind::Text => true,
        }
    }

    fn reaches_top(&self, top: Option<Entry>, width: u8) -> bool
        ensures { result ≡ top_reaches self.now.globals (procedure_seen self.now.owner) width top }
    {
        match top {
            Some(entry) => self.reaches(entry, width),
            None => true,
        }
    }

    // An address that is left must point into its region, and a local's not stand in the program.
    fn strays_left(&self, leaves: Option<Entry>) -> bool
        ensures { result ≡ leaves_stray self.now.globals (procedure_seen self.now.owner) leaves }
    {
        match leaves {
            Some(entry) => entry.kind == EntryKind::Local && self.is_program()
                || !self.reaches(entry, 1),
            None => false,
        }
    }

    // A return must not stand in the program, and must remove the parameters.
    fn is_wrong_return(&self, flow: Flow) -> bool
        ensures { result ≡ wrong_return (procedure_seen self.now.owner) flow }
    {
        match flow {
            Flow::Return(count) => self.is_program()
                || count as usize != self.owner.parameters_size(),
            _ => false,
        }
    }
}
