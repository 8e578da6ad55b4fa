// Sets of tracks: which tracks of a recorder are ready to record.
ghost use Rattle.std.specs.Prelude.{◌≡◌, length, true, false, option_map};
ghost use Rattle.universal.specs.Refusals.{answer_of};
ghost use Rattle.tracks.specs.Tracks.{no_positions, set_of, positions_in, read_tracks, change_track, track_is_armed, armed_tracks, first_of_tracks, data_of, data_answer, data_in};
ghost use Rattle.track_field.specs.View.{field_tracks};
ghost use Rattle.fast_mmc.specs.Numbers.{written_numbers};
ghost use Rattle.fast_mmc.specs.String.{field_of};
ghost use Rattle.fimbrast.specs.TrackSet.{track_set_of, flat_track_set, flat_set_answer, flat_view, flat_track_armed, flat_lowest_track};

use fast_mmc::WrittenNumbers;
use fast_mmc::string::FlatField;
use mmc::InfoField;
use tracks::TrackSet;
use universal::SysexError;

// A set of tracks: position p of the bitmap is bit p. Position 0 is video, 1 reserved, 2 time code, 3 and 4 auxiliaries, and n + 4 track n,
// 1 to 58. Bit 63 is no position: every call takes it as clear, and none gives a set with it. A record of 0 is an empty set.
#[repr(C)]
#[derive(Clone, Copy)]
pub struct FlatTrackSet {
    pub positions: u64,
}

// Answer 0 and a set; or a refusal. Beside a refusal, a call that arms or disarms gives the set that it got, without bit 63, and any other
// call an empty set. 255 says that the field has no set, and stands beside an empty one.
#[repr(C)]
#[derive(Clone, Copy)]
pub struct FlatTrackSetAnswer {
    pub answer: u8,
    pub set: FlatTrackSet,
}

// Whether a track is armed, with refusal 0; or refusal 12, and no.
#[repr(C)]
#[derive(Clone, Copy)]
pub struct FlatTrackArmed {
    pub refusal: u8,
    pub armed: bool,
}

// A track, with refusal 0; or refusal 12, and track 0.
#[repr(C)]
#[derive(Clone, Copy)]
pub struct FlatLowestTrack {
    pub refusal: u8,
    pub track: u8,
}

impl From<FlatTrackSet> for TrackSet {
    ghost from_gives = { λ f t. t ≡ track_set_of f };

    #[tactic(auto, unfolding(crate::specs::TrackSet::track_set_of))]
    fn from(f: FlatTrackSet) -> TrackSet {
        let set = TrackSet {
            positions: f.positions,
        };
        set.without_bit_63()
    }
}

impl From<TrackSet> for FlatTrackSet {
    ghost from_gives = { λ t f. f ≡ flat_track_set t };

    #[tactic(auto, unfolding(crate::specs::TrackSet::flat_track_set))]
    fn from(t: TrackSet) -> FlatTrackSet {
        FlatTrackSet {
            positions: t.positions,
        }
    }
}

// An answer beside the set that there was before it, and so no `From`.
#[tactic(auto, unfolding(crate::specs::TrackSet::flat_set_answer))]
fn flat_set_answer(before: TrackSet, answer: Result<TrackSet, SysexError>) -> FlatTrackSetAnswer
    ensures { result ≡ flat_set_answer before (answer_of answer) }
{
    match answer {
        Ok(set) => FlatTrackSetAnswer {
            answer: 0,
            set: FlatTrackSet::from(set),
        },
        Err(e) => FlatTrackSetAnswer {
            answer: e.number(),
            set: FlatTrackSet::from(before),
        },
    }
}

#[tactic(auto, unfolding(crate::specs::TrackSet::flat_view))]
fn flat_view(view: Option<Result<TrackSet, SysexError>>) -> FlatTrackSetAnswer
    ensures { result ≡ flat_view (option_map answer_of view) }
{
    match view {
        None => FlatTrackSetAnswer {
            answer: 255,
            set: FlatTrackSet::from(TrackSet::new()),
        },
        Some(answer) => flat_set_answer(TrackSet::new(), answer),
    }
}

impl From<Result<bool, SysexError>> for FlatTrackArmed {
    ghost from_gives = { λ armed f. f ≡ flat_track_armed (answer_of armed) };

    #[tactic(auto, unfolding(crate::specs::TrackSet::flat_track_armed))]
    fn from(armed: Result<bool, SysexError>) -> FlatTrackArmed {
        match armed {
            Ok(armed) => FlatTrackArmed { refusal: 0, armed },
            Err(e) => FlatTrackArmed {
                refusal: e.number(),
                armed: false,
            },
        }
    }
}

impl From<Result<u8, SysexError>> for FlatLowestTrack {
    ghost from_gives = { λ track f. f ≡ flat_lowest_track (answer_of track) };

    #[tactic(auto, unfolding(crate::specs::TrackSet::flat_lowest_track))]
    fn from(track: Result<u8, SysexError>) -> FlatLowestTrack {
        match track {
            Ok(track) => FlatLowestTrack { refusal: 0, track },
            Err(e) => FlatLowestTrack {
                refusal: e.number(),
                track: 0,
            },
        }
    }
}

// `TrackSet::new`: an empty set.
pub fn fimbrast_track_set_new() -> FlatTrackSet
    ensures { result ≡ flat_track_set (set_of no_positions) }
{
    FlatTrackSet::from(TrackSet::new())
}

// `TrackSet::read`: the set of data bytes as field 4FH has them. Missing bytes are zeros, and bit 7 of each is ignored. More than nine
// are 12.
pub fn fimbrast_track_set_read(data: &[u8]) -> FlatTrackSetAnswer
    ensures { result ≡ flat_set_answer (set_of no_positions) (read_tracks «data».now) }
{
    flat_set_answer(TrackSet::new(), TrackSet::read(data))
}

// `TrackSet::arm`: the set with one more track; 12, and the same set, for a track outside 1 to 58.
pub fn fimbrast_track_set_arm(set: FlatTrackSet, track: u8) -> FlatTrackSetAnswer
    ensures { result ≡ flat_set_answer (track_set_of set) (change_track (track_set_of set) track true) }
{
    let before = TrackSet::from(set);
    flat_set_answer(before, before.arm(track))
}

// `TrackSet::disarm`: the set without a track, likewise.
pub fn fimbrast_track_set_disarm(set: FlatTrackSet, track: u8) -> FlatTrackSetAnswer
    ensures { result ≡ flat_set_answer (track_set_of set) (change_track (track_set_of set) track false) }
{
    let before = TrackSet::from(set);
    flat_set_answer(before, before.disarm(track))
}

// `TrackSet::is_armed`: whether a track is armed; 12 for one outside 1 to 58.
pub fn fimbrast_track_set_is_armed(set: FlatTrackSet, track: u8) -> FlatTrackArmed
    ensures { result ≡ flat_track_armed (track_is_armed (track_set_of set) track) }
{
    FlatTrackArmed::from(TrackSet::from(set).is_armed(track))
}

// `TrackSet::armed_count`: how many tracks are armed.
pub fn fimbrast_track_set_armed_count(set: FlatTrackSet) -> u32
    ensures { result ≡ length (armed_tracks (positions_in (track_set_of set))) }
{
    TrackSet::from(set).armed_count()
}

// `TrackSet::lowest_armed`: the lowest armed track; 12 where none is armed.
pub fn fimbrast_track_set_lowest_armed(set: FlatTrackSet) -> FlatLowestTrack
    ensures { result ≡ flat_lowest_track (first_of_tracks (armed_tracks (positions_in (track_set_of set)))) }
{
    FlatLowestTrack::from(TrackSet::from(set).lowest_armed())
}

// `TrackSet::has_position`: whether a position of the bitmap is set, as 2 for time code. From 63 on there is none.
pub fn fimbrast_track_set_has_position(set: FlatTrackSet, position: u8) -> bool
    ensures { result ≡ positions_in (track_set_of set) position }
{
    TrackSet::from(set).has_position(position)
}

// `TrackSet::write`: the data bytes at the start of the buffer, without the zero bytes at their end, and how many they are: none of an empty
// set, and at most nine. A buffer that is too short is 4 with the needed length, and stays as found.
pub fn fimbrast_track_set_write(set: FlatTrackSet, out: &mut [u8]) -> WrittenNumbers
    ensures value { result ≡ written_numbers (data_answer (data_of (track_set_of set)) (length out.old)) }
    ensures out_after { out.new ≡ data_in (data_of (track_set_of set)) out.old }
{
    WrittenNumbers::from(TrackSet::from(set).write(out))
}

// `InfoField::tracks`: the set of a field that is named by the one byte 4FH, as it was read from these bytes; 255 for any other field. The
// field itself stays another field. 12 for more than nine data bytes, 6 for a name or data that are no part of the bytes.
pub fn fimbrast_field_tracks(source: &[u8], field: FlatField) -> FlatTrackSetAnswer
    ensures { result ≡ flat_view (field_tracks source.now (field_of field)) }
{
    flat_view(track_field::field_tracks(InfoField::from(field), source))
}
