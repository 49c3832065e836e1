// The bytes that name kinds and entries.
ghost use Rattle.std.specs.Prelude.{◌≡◌};
ghost use Rattle.declarations.specs.Entries.{entry_in, entry_kind_of, is_entry_in, sign_extended};
ghost use Rattle.declarations.specs.Kinds.{is_kind, kind_of, result_of};

use entries::{Entry, EntryKind, Kind};

// Whether a byte names a kind: 1 is byte, 2 char, 4 int.
pub(crate) fn is_kind(byte: u8) -> bool
    ensures { result ≡ is_kind byte }
{
    Kind::try_from(u32::from(byte)).is_ok()
}

// The kind that a byte names. A byte that names none never comes here, since reading refuses it; the look-ups over such
// bytes cannot fail, so it is taken for an int.
pub(crate) fn kind_of(byte: u8) -> Kind
    ensures { result ≡ kind_of byte }
{
    Kind::try_from(u32::from(byte)).unwrap_or(Kind::Int)
}

// A result's kind, or none for 0, which is not the none of a failed conversion.
pub(crate) fn result_of(byte: u8) -> Option<Kind>
    ensures { result ≡ result_of byte }
{
    match byte {
        0 => None,
        _ => Some(kind_of(byte)),
    }
}

// The kind of entry that a byte names, if it names one.
fn entry_kind_of(byte: u8) -> Option<EntryKind>
    ensures { result ≡ entry_kind_of byte }
{
    match byte {
        5 => Some(EntryKind::Local),
        6 => Some(EntryKind::Global),
        7 => Some(EntryKind::Text),
        _ => Kind::try_from(u32::from(byte)).ok().map(EntryKind::from),
    }
}

// Whether a kind byte and a number of two bytes make up an entry.
pub(crate) fn is_entry(bytes: &[u8; 3]) -> bool
    ensures { result ≡ is_entry_in bytes.now }
{
    let [kind, hi, lo] = *bytes;
    let number = u16::from_be_bytes([hi, lo]);
    match entry_kind_of(kind) {
        Some(EntryKind::Byte | EntryKind::Char | EntryKind::Int) => number == 0,
        Some(EntryKind::Local | EntryKind::Global) => true,
        Some(EntryKind::Text) => number <= 32,
        None => false,
    }
}

// The entry that a kind byte and a number of two bytes make up. What makes up none never comes here: reading refuses
// it.
pub(crate) fn entry_of(bytes: &[u8; 3]) -> Entry
    ensures { result ≡ entry_in bytes.now }
{
    let [kind, hi, lo] = *bytes;
    let number = u16::from_be_bytes([hi, lo]);
    let kind = entry_kind_of(kind).unwrap_or(EntryKind::Text);
    let number = match kind {
        EntryKind::Local => sign_extended(number),
        _ => u32::from(number),
    };
    Entry { kind, number }
}

// A signed number of 16 bits as one of 32 bits.
fn sign_extended(number: u16) -> u32
    ensures { result ≡ sign_extended number }
{
    i32::from(number.cast_signed()).cast_unsigned()
}
