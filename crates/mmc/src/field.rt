// Information fields (RP-013, pp. 8, 9, 44, 47): a name and its data read into a case, and the next field of a string.
ghost use Rattle.mmc.specs.Split.{next_item_of, parts_as};
ghost use Rattle.std.specs.Prelude.{◌≡◌, List, ℕ};
ghost use Rattle.mmc.specs.Field.{read_field, field_of_case, next_field};

use crate::item::next_item;
use crate::part::Part;
use crate::split::{ItemPlace, NextItem};
use codes::{ShortTimeCode, StandardTimeCode};

// One information field.
#[derive(Clone, Copy)]
pub enum InfoField {
    // 01H to 1FH: five bytes of time code.
    TimeCode { field: u8, code: StandardTimeCode },
    // 21H to 3FH, by the name 20H lower: the short form in two bytes.
    Short { field: u8, code: ShortTimeCode },
    // Any other field: the name with its prefixes, and the data after the count byte where the name has one.
    Other { name: Part, data: Part },
}

// The field of an item of a string.
#[tactic(auto, unfolding(crate::specs::Field::read_field, crate::specs::Field::field_by_name))]
pub(crate) fn read(body: &[u8], item: ItemPlace) -> InfoField
    ensures { result ≡ parts_as (λ (x y : List ℕ). field_of_case (read_field x y)) body.now item }
{
    let &[byte] = item.name.of(body) else {
        return other(item);
    };
    match (byte, item.data.of(body)) {
        (0x01..=0x1F, &[hr, mn, sc, fr, ff]) => InfoField::TimeCode {
            field: byte,
            code: StandardTimeCode::from_bytes([hr, mn, sc, fr, ff]),
        },
        (0x21..=0x3F, &[fr, ff]) => InfoField::Short {
            field: byte - 0x20,
            code: ShortTimeCode::from_bytes([fr, ff]),
        },
        _ => other(item),
    }
}

// Any other field.
fn other(item: ItemPlace) -> InfoField
    ensures { result ≡ InfoField.Other item.name item.«data» }
{
    InfoField::Other {
        name: item.name,
        data: item.data,
    }
}

// The field at a place of a string and the place after it; 2 and the end where the string is cut short; 9 at or past it.
#[tactic(auto, unfolding(crate::specs::Field::next_field))]
pub fn next_field(body: &[u8], place: usize) -> NextItem<InfoField>
    ensures { next_item_of result ≡ next_field body.now place }
{
    next_item(body, place)
}
