// A set of tracks, as the data of field 4FH has it: RP-013's standard track bitmap, seven positions to a byte. Positions 0 to 4 are video,
// a reserved one, time code and two auxiliaries, which are kept and are no tracks; track n, 1 to 58, is position n + 4.
ghost use Rattle.std.specs.Prelude.{◌≡◌, ◌+◌, ◌<◌, length, true, false};
ghost use Rattle.universal.specs.Refusals.{answer_of};
ghost use Rattle.tracks.specs.Tracks.{no_positions, positions_in, set_of, as_number, if_track, read_tracks, change_track, track_is_armed, armed_tracks, first_of_tracks, track_byte, nine_bytes, without_end_zeros, data_of, data_answer, data_in};

use universal::{SysexError, put_part};

// The most data bytes that a set has.
const BYTES: usize = 9;
// All 63 positions: bit 63 is none.
const ALL: u64 = 0x7FFF_FFFF_FFFF_FFFF;
// How many positions lie below track 1.
const LOWER: u32 = 5;
// The tracks are 1 to 58.
const LAST_TRACK: u8 = 58;
// 58 ones: the tracks, with track 1 at bit 0.
const TRACKS: u64 = 0x03FF_FFFF_FFFF_FFFF;

// Position p of the bitmap is bit p. Bit 63 is no position: every call takes it as clear, and none gives a set with it.
#[derive(Clone, Copy)]
pub struct TrackSet {
    pub positions: u64,
}

// The position of a track, or 12.
fn position_of(track: u8) -> Result<u8, SysexError>
    ensures { answer_of result ≡ if_track track (track + 4) }
{
    if track == 0 || track > LAST_TRACK {
        return Err(SysexError::Track);
    }
    Ok(track + 4)
}

// Bytes without the zeros at their end.
fn without_end_zeros(bytes: &[u8]) -> &[u8]
    ensures { result.now ≡ without_end_zeros bytes.now }
{
    let mut end = bytes.len();
    while end > 0 && bytes[end - 1] == 0 {
        end -= 1;
    }
    &bytes[..end]
}

impl TrackSet {
    // An empty set.
    #[tactic(auto, unfolding(crate::specs::Tracks::as_number))]
    pub fn new() -> TrackSet
        ensures { result ≡ set_of no_positions }
    {
        TrackSet { positions: 0 }
    }

    // The set without bit 63, which is no position.
    pub fn without_bit_63(self) -> TrackSet
        ensures { result ≡ set_of (positions_in self) }
    {
        let positions = self.positions & ALL;
        TrackSet { positions }
    }

    // The set of data bytes, or 12 where they are more than nine. Missing bytes are zeros, and bit 7 of each is ignored.
    pub fn read(data: &[u8]) -> Result<TrackSet, SysexError>
        ensures { answer_of result ≡ read_tracks «data».now }
    {
        if data.len() > BYTES {
            return Err(SysexError::Track);
        }
        let mut positions = 0;
        let mut place = data.len();
        while place > 0 {
            place -= 1;
            positions = positions * 128 + u64::from(data[place] % 128);
        }
        Ok(TrackSet { positions })
    }

    // True where a position of the bitmap is set: 0 video, 2 time code, 3 and 4 the auxiliaries, n + 4 track n. From 63 on there is none.
    #[tactic(auto, unfolding(crate::specs::Tracks::positions_in), using(crate::proofs::Positions::bit_tested))]
    pub fn has_position(self, position: u8) -> bool
        ensures { result ≡ positions_in self position }
    {
        position < 63 && self.positions >> position & 1 == 1
    }

    // The set with one more track; 12 for a track outside 1 to 58.
    #[tactic(auto, unfolding(crate::specs::Tracks::change_track), using(crate::proofs::Positions::armed_lem))]
    pub fn arm(self, track: u8) -> Result<TrackSet, SysexError>
        ensures { answer_of result ≡ change_track self track true }
    {
        let position = position_of(track)?;
        let positions = self.without_bit_63().positions | 1 << position;
        Ok(TrackSet { positions })
    }

    // The set without a track; 12 for a track outside 1 to 58.
    #[tactic(auto, unfolding(crate::specs::Tracks::change_track), using(crate::proofs::Positions::disarmed_lem))]
    pub fn disarm(self, track: u8) -> Result<TrackSet, SysexError>
        ensures { answer_of result ≡ change_track self track false }
    {
        let position = position_of(track)?;
        let positions = self.without_bit_63().positions & !(1 << position);
        Ok(TrackSet { positions })
    }

    // True where a track is armed; 12 for a track outside 1 to 58.
    #[tactic(auto, unfolding(crate::specs::Tracks::track_is_armed))]
    pub fn is_armed(self, track: u8) -> Result<bool, SysexError>
        ensures { answer_of result ≡ track_is_armed self track }
    {
        let position = position_of(track)?;
        Ok(self.has_position(position))
    }

    // The armed tracks alone, track 1 at bit 0.
    fn tracks(self) -> u64
        ensures { result ≡ as_number (λ i. positions_in self (5 + i)) 58 }
    {
        self.positions >> LOWER & TRACKS
    }

    // How many tracks are armed.
    pub fn armed_count(self) -> u32
        ensures { result ≡ length (armed_tracks (positions_in self)) }
    {
        self.tracks().count_ones()
    }

    // The lowest armed track; 12 where none is armed.
    #[tactic(auto, using(crate::proofs::Armed::lowest_found, crate::proofs::Armed::none_lowest))]
    pub fn lowest_armed(self) -> Result<u8, SysexError>
        ensures { answer_of result ≡ first_of_tracks (armed_tracks (positions_in self)) }
    {
        let tracks = self.tracks();
        if tracks == 0 {
            return Err(SysexError::Track);
        }
        Ok(tracks.trailing_zeros() as u8 + 1)
    }

    // The byte at a place of the data.
    #[tactic(auto, using(crate::proofs::Positions::byte_mask))]
    fn byte(self, place: usize) -> u8
        requires { place < 9 }
        ensures { result ≡ track_byte (positions_in self) place }
    {
        (self.positions >> (7 * place) & 0x7F) as u8
    }

    // All nine bytes.
    fn bytes(self) -> [u8; 9]
        ensures { result ≡ nine_bytes (positions_in self) }
    {
        let mut bytes = [0; BYTES];
        for place in 0..BYTES {
            bytes[place] = self.byte(place);
        }
        bytes
    }

    // Writes the data bytes at the start of the buffer, and answers how many there are: none for an empty set. The zero bytes at the end are
    // left out. A buffer that is too short stays as found.
    #[tactic(auto, unfolding(crate::specs::Tracks::data_of, crate::specs::Tracks::data_answer, crate::specs::Tracks::data_in))]
    pub fn write(self, out: &mut [u8]) -> Result<usize, SysexError>
        ensures result_value { answer_of result ≡ data_answer (data_of self) (length out.old) }
        ensures out_after { out.new ≡ data_in (data_of self) out.old }
    {
        let bytes = self.bytes();
        let data = without_end_zeros(&bytes);
        let needed = data.len();
        if out.len() < needed {
            return Err(SysexError::BufferTooSmall { needed });
        }
        put_part(out, 0, data);
        Ok(needed)
    }
}
