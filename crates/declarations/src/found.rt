// The search for what a field declares at an offset of the code.
ghost use Rattle.std.specs.Prelude.{◌≡◌, ◌==◌, ℕ, List, map, option_map};
ghost use Rattle.std.specs.List.{find};
ghost use Rattle.fields.specs.Fields.{bodies_in};

use fields::Fields;

// A view of a field's body, which declares something at an offset of the code.
pub(crate) trait FieldView<'a>: Sized + Drop {
    // What is declared: as the view shows it, as a body tells it, and the offset where it stands.
    ghost Meaning: { Type 0 };

    ghost shown: { Self → Meaning };

    ghost told: { List ℕ → Meaning };

    ghost place: { Meaning → ℕ };

    fn view(body: &'a [u8]) -> Self
        ensures { shown result ≡ told body.now };

    // The offset alone: the search asks each field for it.
    fn place(body: &'a [u8]) -> usize
        ensures { result ≡ place (told body.now) };
}

// The first that stands at an offset, among fields that stand one behind another.
pub(crate) fn find_at<'a, V: FieldView<'a>>(fields: &'a [u8], offset: usize) -> Option<V>
    ensures { option_map V.shown result ≡ find (λ m. V.place m == offset) (map V.told (bodies_in fields.now)) }
{
    // A `for`, since the check does not cover a closure for `find` under a bound with a lifetime.
    for field in Fields::of(fields) {
        if V::place(field.body) == offset {
            return Some(V::view(field.body));
        }
    }
    None
}
