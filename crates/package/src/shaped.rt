// Fields by their tags, and whether their lengths are right.
ghost use Rattle.std.specs.Prelude.{◌≡◌, false};
ghost use Rattle.std.specs.Result.{result_ok};
ghost use Rattle.package.specs.Rules.{misshapen};
ghost use Rattle.package.specs.Tags.{tag_byte, tag_named};

use fields::Field;

// The kinds of field.
#[derive(Clone, Copy, PartialEq, Eq, Debug)]
pub(crate) enum Tag {
    Code,
    Procedure,
    Mark,
}

// A byte that is no field's tag.
#[derive(Clone, Copy, PartialEq, Eq, Debug)]
pub(crate) struct UnknownTag(pub u8);

impl TryFrom<u8> for Tag {
    type Error = UnknownTag;

    ghost try_from_gives = { λ byte told. result_ok told ≡ tag_named byte };

    fn try_from(byte: u8) -> Result<Tag, UnknownTag> {
        match byte {
            1 => Ok(Tag::Code),
            2 => Ok(Tag::Procedure),
            3 => Ok(Tag::Mark),
            _ => Err(UnknownTag(byte)),
        }
    }
}

// How many bytes the longest code has.
pub const MOST_CODE: usize = 8192;

const MOST_PARAMETERS: u8 = 8;

// A procedure's body without its parameters, a mark's without its entries, and an entry.
const PROCEDURE_SIZE: usize = 8;

const MARK_SIZE: usize = 2;

const ENTRY_SIZE: usize = 3;

// A mark's body with as many entries as it may have, which are 16.
const MOST_MARK_SIZE: usize = MARK_SIZE + 16 * ENTRY_SIZE;

impl Tag {
    // Whether the length of a field's body, or a count in it, is wrong.
    pub(crate) fn has_wrong_length(self, body: &[u8]) -> bool
        ensures { result ≡ misshapen (tag_byte self) body.now }
    {
        let size = body.len();
        match self {
            Tag::Code => size == 0 || size > MOST_CODE,
            Tag::Procedure => size < PROCEDURE_SIZE
                || body[7] > MOST_PARAMETERS
                || size != PROCEDURE_SIZE + body[7] as usize,
            Tag::Mark => size < MARK_SIZE
                || size > MOST_MARK_SIZE
                || (size - MARK_SIZE) % ENTRY_SIZE != 0,
        }
    }
}

// A field whose tag is known, and whose length and counts are right for it.
#[derive(Clone, Copy)]
pub(crate) struct Shaped<'a> {
    pub tag: Tag,
    pub field: Field<'a>,
    ghost tagged: { field.tag ≡ tag_byte tag },
    ghost shape: { misshapen field.tag field.body.now ≡ false },
}
