// Operands: each function takes one off the front of what is left of the code; none where it is cut or out of range.
ghost use Rattle.std.specs.Prelude.{◌≡◌, ◌+◌, ◌*◌, ◌<◌, drop, length, take, IfSome, MatchOption, OnSome};
ghost use Rattle.instruction.specs.Decoding.{first_byte, first_count, first_kind, first_text, first_unit, first_word};

use entries::Kind;

// The next N bytes.
fn bytes<const N: usize>(rest: &mut &[u8]) -> Option<[u8; N]>
    ensures { MatchOption result (length rest.old.now < N) (λ bytes. (bytes ≡ take N rest.old.now) × (length rest.old.now ≡ length rest.new.now + N)) }
{
    let (bytes, behind) = rest.split_first_chunk()?;
    *rest = behind;
    Some(*bytes)
}

pub fn byte(rest: &mut &[u8]) -> Option<u8>
    ensures value { result ≡ first_byte rest.old.now }
    ensures left { OnSome result (length rest.old.now ≡ length rest.new.now + 1) }
{
    rest.split_off_first().copied()
}

// Two bytes, the high one first.
pub fn unit(rest: &mut &[u8]) -> Option<u16>
    ensures value { result ≡ first_unit rest.old.now }
    ensures left { OnSome result (length rest.old.now ≡ length rest.new.now + 2) }
{
    Some(u16::from_be_bytes(bytes(rest)?))
}

// Four bytes, the high one first. Beside `unit`, since `from_be_bytes` is each number's own.
#[tactic(auto, unfolding(crate::specs::Decoding::word_of))]
pub fn word(rest: &mut &[u8]) -> Option<u32>
    ensures value { result ≡ first_word rest.old.now }
    ensures left { OnSome result (length rest.old.now ≡ length rest.new.now + 4) }
{
    Some(u32::from_be_bytes(bytes(rest)?))
}

// The kind whose size a word tells.
pub fn kind(rest: &mut &[u8]) -> Option<Kind>
    ensures value { result ≡ first_kind rest.old.now }
    ensures left { OnSome result (length rest.old.now ≡ length rest.new.now + 4) }
{
    Kind::try_from(word(rest)?).ok()
}

// A word that counts units: 32 at most.
pub fn count(rest: &mut &[u8]) -> Option<u8>
    ensures value { result ≡ first_count rest.old.now }
    ensures left { OnSome result (length rest.old.now ≡ length rest.new.now + 4) }
{
    u8::try_from(word(rest)?).ok().filter(|count| *count <= 32)
}

// A count, with the units that it counts.
pub fn text(rest: &mut &[u8]) -> Option<u8>
    ensures value { result ≡ first_text rest.old.now }
    ensures left { IfSome result (λ n. length rest.old.now ≡ length rest.new.now + 4 + 2 * n) }
{
    let count = count(rest)?;
    *rest = rest.get(2 * usize::from(count)..)?;
    Some(count)
}
