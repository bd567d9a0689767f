//! The fields of a record by name, so that no reader counts them.

ghost use Rattle.std.specs.Prelude.{◌≡◌, ◌≢◌, length, MatchOption};
ghost use Rattle.dam_results.specs.inside.Reader.{fields_of};
ghost use Rattle.dam_results.specs.inside.NineFields.{field_or_empty, fields_in};

use crate::csv_records::Field;

/// The fields of a record that has nine, each named for its content in a submit.
#[derive(Clone, Copy)]
pub(crate) struct NineFields<'a> {
    pub(crate) kind: &'a [u8],
    /// In a day, how many periods it has.
    pub(crate) who: &'a [u8],
    pub(crate) name: &'a [u8],
    pub(crate) form: &'a [u8],
    pub(crate) side: &'a [u8],
    pub(crate) price: &'a [u8],
    pub(crate) volumes: &'a [u8],
    pub(crate) parent: &'a [u8],
    pub(crate) group: &'a [u8],
}

/// The field at that place, counted from 0, or no bytes if the record is shorter.
pub(crate) fn field_or_empty<'r, 'a>(fields: &'r [Field<'a>], place: usize) -> &'r [u8]
    ensures { result.now ≡ field_or_empty (fields_of fields.entry.now) place }
{
    match fields.get(place) {
        Some(field) => field.bytes(),
        None => &[],
    }
}

impl<'a> NineFields<'a> {
    /// `None` if the record doesn't have nine fields.
    pub(crate) fn of<'t>(fields: &'a [Field<'t>]) -> Option<NineFields<'a>>
        ensures { MatchOption result
            (length (fields_of fields.entry.now) ≢ 9)
            (λ nine. fields_of fields.entry.now ≡ fields_in nine) }
    {
        if fields.len() != 9 {
            return None;
        }
        Some(NineFields {
            kind: field_or_empty(fields, 0),
            who: field_or_empty(fields, 1),
            name: field_or_empty(fields, 2),
            form: field_or_empty(fields, 3),
            side: field_or_empty(fields, 4),
            price: field_or_empty(fields, 5),
            volumes: field_or_empty(fields, 6),
            parent: field_or_empty(fields, 7),
            group: field_or_empty(fields, 8),
        })
    }
}
