// Entries of plain values, and what is asked of an entry: how many bytes it takes, whether it is an address.
ghost use Rattle.std.specs.Prelude.{◌≡◌, ◌^◌, ◌<◌};
ghost use Rattle.entries.specs.Alike.{is_address, same_entry};
ghost use Rattle.entries.specs.Kinds.{plain_entry};
ghost use Rattle.entries.specs.Sizes.{entry_size};

use super::{Entry, EntryKind, Kind};

// The entry of a plain value.
impl From<Kind> for Entry {
    ghost from_gives = { λ kind plain. plain ≡ plain_entry kind };

    fn from(kind: Kind) -> Entry {
        Entry {
            kind: EntryKind::from(kind),
            number: 0,
        }
    }
}

impl Entry {
    // How many bytes the entry takes on the stack: addresses take 4, a text 4 and 2 for each unit.
    pub fn size(self) -> usize
        ensures is { result ≡ entry_size self }
        ensures small { result < 2 ^ 34 }
    {
        match self.kind {
            EntryKind::Byte => 1,
            EntryKind::Char => 2,
            EntryKind::Int | EntryKind::Local | EntryKind::Global => 4,
            EntryKind::Text => 4 + 2 * self.number as usize,
        }
    }

    // Whether the entry is that of a plain value of a kind.
    pub fn is_plain(self, kind: Kind) -> bool
        ensures { result ≡ same_entry self (plain_entry kind) }
    {
        self == Entry::from(kind)
    }

    // Whether the entry is an address: an int counts as one, since an address may have been computed.
    pub fn is_address(self) -> bool
        ensures { result ≡ is_address self }
    {
        match self.kind {
            EntryKind::Int | EntryKind::Local | EntryKind::Global => true,
            EntryKind::Byte | EntryKind::Char | EntryKind::Text => false,
        }
    }
}
