// The set of tracks beside a field: the field itself stays as it is read.
ghost use Rattle.std.specs.Prelude.{◌≡◌, option_map};
ghost use Rattle.universal.specs.Refusals.{answer_of};
ghost use Rattle.track_field.specs.View.{field_tracks};

use mmc::InfoField;
use tracks::TrackSet;
use universal::SysexError;

// The name of the field that has a set of tracks: RP-013's Track Record Ready.
pub const TRACK_RECORD_READY: u8 = 0x4F;

// The set of a field that is named by the one byte 4FH; none for any other. 12 for more than nine data bytes. 6 where its name or data are
// not inside the source; those of a field that was read from it are.
#[tactic(auto, unfolding(crate::specs::View::field_tracks, crate::specs::View::tracks_view))]
pub fn field_tracks(field: InfoField, source: &[u8]) -> Option<Result<TrackSet, SysexError>>
    ensures { option_map answer_of result ≡ field_tracks source.now field }
{
    let InfoField::Other { name, data } = field else {
        return None;
    };
    if !name.is_inside(source) || !data.is_inside(source) {
        return Some(Err(SysexError::Source));
    }
    let &[TRACK_RECORD_READY] = name.of(source) else {
        return None;
    };
    Some(TrackSet::read(data.of(source)))
}
