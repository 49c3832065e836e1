// A package is a row of fields: a one-byte tag, a two-byte length and that many bytes.
#![tactic(auto)]

ghost use Rattle.std.specs.Prelude.{◌≡◌, length};
ghost use Rattle.std.specs.Iterator.{YieldsFirstBy, item_count};
ghost use Rattle.fields.specs.Fields.{bodies_in, cut, fields_in, fields_left, seen, seen_field};

// The field at the front of some bytes, and what stands behind it.
#[derive(Clone, Copy)]
pub struct Field<'a> {
    pub tag: u8,
    pub body: &'a [u8],
    pub rest: &'a [u8],
}

// The field at the front of the bytes, or none where it runs past their end: reading must know of that, and `Fields`
// goes over whole fields.
pub fn next_field<'a>(bytes: &'a [u8]) -> Option<Field<'a>>
    ensures { seen result ≡ cut bytes.now }
{
    let [tag, hi, lo, rest @ ..] = bytes else {
        return None;
    };
    let length = u16::from_be_bytes([*hi, *lo]) as usize;
    if rest.len() < length {
        return None;
    }
    let (body, rest) = rest.split_at(length);
    Some(Field {
        tag: *tag,
        body,
        rest,
    })
}

// The fields that stand in some bytes, one behind another, from the front on.
#[derive(Clone, Drop)]
pub struct Fields<'a> {
    rest: &'a [u8],
}

impl<'a> Fields<'a> {
    pub fn of(bytes: &'a [u8]) -> Fields<'a>
        ensures { fields_left result ≡ fields_in bytes.now }
    {
        Fields { rest: bytes }
    }
}

impl<'a> Iterator for Fields<'a> {
    type Item = Field<'a>;

    ghost next_gives = { YieldsFirstBy seen_field fields_left };

    ghost remaining = { item_count fields_left };

    fn next(&mut self) -> Option<Field<'a>> {
        let field = next_field(self.rest)?;
        self.rest = field.rest;
        Some(field)
    }
}

// How many fields stand in some bytes, one behind another.
pub fn field_count(bytes: &[u8]) -> usize
    ensures { result ≡ length (bodies_in bytes.now) }
{
    Fields::of(bytes).count()
}
