// Information fields, of a Write or of a response: each in words.
use crate::body::{Body, Parts};
use crate::names::FieldName;
use crate::ready::Ready;
use crate::say::{Byte, Bytes, say};
use crate::times::{Code, Short};
use crate::writing::Writing;
use mmc::{InfoField, next_field};
use std::fmt;
use std::fmt::Display;
use track_field::{TRACK_RECORD_READY, field_tracks};
use tracks::TrackSet;
use universal::SysexError;

// A field that no table knows, by its name and data.
#[derive(Clone, Copy)]
struct Other<'a>(Parts<'a>);

impl Display for Other<'_> {
    fn fmt<W: fmt::Write>(&self, f: &mut fmt::Formatter<W>) -> fmt::Result {
        match self.0.name {
            [name] => write!(f, "field {}{}", Byte(*name), self.0),
            _ => write!(f, "field of an extended set{}", self.0),
        }
    }
}

// A field that shows a set of tracks, or why it shows none; and its data. True where it shows one.
fn say_ready(body: Body<'_>, tracks: Result<TrackSet, SysexError>, data: &[u8]) -> bool {
    say!(body.rt; "{}: {}.", FieldName(TRACK_RECORD_READY), Ready(tracks));
    if !data.is_empty() {
        say!(body.rt; " Data{}.", Bytes(data));
    }
    say!(body.rt; "\n");
    tracks.is_ok()
}

// True where a field that should show tracks shows them.
fn say_field(body: Body<'_>, field: InfoField) -> bool {
    match field {
        InfoField::TimeCode { field: name, code } =>
            say!(body.rt; "{}, {}.\n", FieldName(name), Code(code)),
        InfoField::Short { field: name, code } =>
            say!(body.rt; "short form of {}, {}.\n", FieldName(name), Short(code)),
        InfoField::Other { name, data } => {
            let name = name.of(body.bytes);
            let data = data.of(body.bytes);
            if let Some(tracks) = field_tracks(field, body.bytes) {
                return say_ready(body, tracks, data);
            }
            say!(body.rt; "{}.\n", Other(Parts { name, data }));
        }
    }
    true
}

// All fields of a string. True where it is split to its end; `shown` goes false at a field that should show tracks and does not.
// Each field takes a byte at least, so no string uses up the turns; a `loop` would only add a proof of that.
fn read_fields(body: Body<'_>, writing: &mut Writing<'_>, shown: &mut bool) -> bool {
    let mut place = 0;
    for _ in 0..u64::MAX {
        let next = next_field(body.bytes, place);
        match next.answer {
            Err(SysexError::End) => return true,
            Err(error) => {
                body.say_cut(place, error);
                return false;
            }
            Ok(field) => {
                body.say_place(place);
                *shown &= say_field(body, field);
                writing.put(field, place);
            }
        }
        place = next.place;
    }
    false
}

// The fields that a Write carries. True where all is well.
pub(crate) fn read_write(body: Body<'_>) -> bool {
    let mut writing = Writing::of_fields(body);
    let mut shown = true;
    read_fields(body, &mut writing, &mut shown) && writing.close_fields() && shown
}

// The fields of a response. True where all is well.
pub(crate) fn read_responses(body: Body<'_>, device_id: u8) -> bool {
    let mut writing = Writing::of_responses(body, device_id);
    let mut shown = true;
    read_fields(body, &mut writing, &mut shown) && writing.close_message() && shown
}
