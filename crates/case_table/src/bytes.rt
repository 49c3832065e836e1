// The bytes that the text of a case spells.
ghost use Rattle.std.specs.Prelude.{◌≡◌, IfOk, IsErrOf};
ghost use Rattle.case_table.specs.Spelling.{value_of, byte_of, bytes_of_digits, bytes_of_group, Adds};
ghost use Rattle.case_table.specs.Words.{Spells, HasNoCase};

use crate::error::CaseError;
use std::alloc::Global;

// The value of a hexadecimal digit, whose letters are capitals.
fn value(digit: u8) -> Option<u8>
    ensures { result ≡ value_of digit }
{
    match digit {
        b'0'..=b'9' => Some(digit - b'0'),
        b'A'..=b'F' => Some(digit - b'A' + 10),
        _ => None,
    }
}

fn byte(high: u8, low: u8) -> Option<u8>
    ensures { result ≡ byte_of high low }
{
    Some(value(high)? * 16 + value(low)?)
}

// Adds the bytes that the digits spell, two by two.
fn push_digits(bytes: &mut Vec<u8>, digits: &[u8]) -> Result<(), CaseError>
    ensures { Adds (bytes_of_digits digits.now) bytes.old.items bytes.new.items result }
{
    let (pairs, rest) = digits.as_chunks::<2>();
    if !rest.is_empty() {
        return Err(CaseError::NotACase);
    }
    for &[high, low] in pairs {
        bytes.push(byte(high, low).ok_or(CaseError::NotACase)?)?;
    }
    Ok(())
}

// Adds the bytes of a group of digits, as often as the count behind the star says.
fn push_group(bytes: &mut Vec<u8>, group: &str) -> Result<(), CaseError>
    ensures { Adds (bytes_of_group group.now) bytes.old.items bytes.new.items result }
{
    let (digits, count) = match group.split_once('*') {
        Some((digits, count)) => (digits, count.parse::<u16>()?),
        None => (group, 1),
    };
    for _ in 0..count {
        push_digits(bytes, digits.as_bytes())?;
    }
    Ok(())
}

// The bytes of a case, whose groups are parted by white space.
pub fn assemble(heap: Global, text: &str) -> Result<Vec<u8>, CaseError>
    ensures ok { IfOk result (λ bytes. Spells text.now bytes.items) }
    ensures not_a_case { IsErrOf result CaseError.NotACase → HasNoCase text.now }
{
    let mut bytes = Vec::new(heap);
    for group in text.split_whitespace() {
        push_group(&mut bytes, group)?;
    }
    Ok(bytes)
}
