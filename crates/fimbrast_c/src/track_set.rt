// Sets of tracks: which tracks of a recorder are ready to record.
ghost use Rattle.std.specs.Prelude.{◌≡◌, length, true, false};
ghost use Rattle.tracks.specs.Tracks.{no_positions, set_of, positions_in, read_tracks, change_track, track_is_armed, armed_tracks, first_of_tracks, data_of, data_answer, data_in};
ghost use Rattle.track_field.specs.View.{field_tracks};
ghost use Rattle.fast_mmc.specs.Numbers.{written_numbers};
ghost use Rattle.fast_mmc.specs.String.{field_of};
ghost use Rattle.fimbrast.specs.TrackSet.{track_set_of, flat_track_set, flat_set_answer, flat_view, flat_track_armed, flat_lowest_track};

use fast_mmc::WrittenNumbers;
use fast_mmc::string::FlatField;
use fimbrast::track_set::{FlatLowestTrack, FlatTrackArmed, FlatTrackSet, FlatTrackSetAnswer};

// `TrackSet::new`: an empty set.
#[unsafe(no_mangle)]
pub extern "C" fn fimbrast_track_set_new() -> FlatTrackSet
    ensures { result ≡ flat_track_set (set_of no_positions) }
{
    fimbrast::track_set::fimbrast_track_set_new()
}

// `TrackSet::read`: the set of data bytes as field 4FH has them. Missing bytes are zeros, and bit 7 of each is ignored. More than nine
// are 12.
#[unsafe(no_mangle)]
pub extern "C" fn fimbrast_track_set_read(data: &[u8]) -> FlatTrackSetAnswer
    ensures { result ≡ flat_set_answer (set_of no_positions) (read_tracks «data».now) }
{
    fimbrast::track_set::fimbrast_track_set_read(data)
}

// `TrackSet::arm`: the set with one more track; 12, and the same set, for a track outside 1 to 58.
#[unsafe(no_mangle)]
pub extern "C" fn fimbrast_track_set_arm(set: FlatTrackSet, track: u8) -> FlatTrackSetAnswer
    ensures { result ≡ flat_set_answer (track_set_of set) (change_track (track_set_of set) track true) }
{
    fimbrast::track_set::fimbrast_track_set_arm(set, track)
}

// `TrackSet::disarm`: the set without a track, likewise.
#[unsafe(no_mangle)]
pub extern "C" fn fimbrast_track_set_disarm(set: FlatTrackSet, track: u8) -> FlatTrackSetAnswer
    ensures { result ≡ flat_set_answer (track_set_of set) (change_track (track_set_of set) track false) }
{
    fimbrast::track_set::fimbrast_track_set_disarm(set, track)
}

// `TrackSet::is_armed`: whether a track is armed; 12 for one outside 1 to 58.
#[unsafe(no_mangle)]
pub extern "C" fn fimbrast_track_set_is_armed(set: FlatTrackSet, track: u8) -> FlatTrackArmed
    ensures { result ≡ flat_track_armed (track_is_armed (track_set_of set) track) }
{
    fimbrast::track_set::fimbrast_track_set_is_armed(set, track)
}

// `TrackSet::armed_count`: how many tracks are armed.
#[unsafe(no_mangle)]
pub extern "C" fn fimbrast_track_set_armed_count(set: FlatTrackSet) -> u32
    ensures { result ≡ length (armed_tracks (positions_in (track_set_of set))) }
{
    fimbrast::track_set::fimbrast_track_set_armed_count(set)
}

// `TrackSet::lowest_armed`: the lowest armed track; 12 where none is armed.
#[unsafe(no_mangle)]
pub extern "C" fn fimbrast_track_set_lowest_armed(set: FlatTrackSet) -> FlatLowestTrack
    ensures { result ≡ flat_lowest_track (first_of_tracks (armed_tracks (positions_in (track_set_of set)))) }
{
    fimbrast::track_set::fimbrast_track_set_lowest_armed(set)
}

// `TrackSet::has_position`: whether a position of the bitmap is set, as 2 for time code. From 63 on there is none.
#[unsafe(no_mangle)]
pub extern "C" fn fimbrast_track_set_has_position(set: FlatTrackSet, position: u8) -> bool
    ensures { result ≡ positions_in (track_set_of set) position }
{
    fimbrast::track_set::fimbrast_track_set_has_position(set, position)
}

// `TrackSet::write`: the data bytes at the start of the buffer, without the zero bytes at their end, and how many they are: none of an empty
// set, and at most nine. A buffer that is too short is 4 with the needed length, and stays as found.
#[unsafe(no_mangle)]
pub extern "C" fn fimbrast_track_set_write(set: FlatTrackSet, out: &mut [u8]) -> WrittenNumbers
    ensures value { result ≡ written_numbers (data_answer (data_of (track_set_of set)) (length out.old)) }
    ensures out_after { out.new ≡ data_in (data_of (track_set_of set)) out.old }
{
    fimbrast::track_set::fimbrast_track_set_write(set, out)
}

// `InfoField::tracks`: the set of a field that is named by the one byte 4FH, as it was read from these bytes; 255 for any other field. The
// field itself stays another field. 12 for more than nine data bytes, 6 for a name or data that are no part of the bytes.
#[unsafe(no_mangle)]
pub extern "C" fn fimbrast_field_tracks(source: &[u8], field: FlatField) -> FlatTrackSetAnswer
    ensures { result ≡ flat_view (field_tracks source.now (field_of field)) }
{
    fimbrast::track_set::fimbrast_field_tracks(source, field)
}
