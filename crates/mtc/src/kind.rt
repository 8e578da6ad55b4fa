// The kinds of MIDI Time Code messages among Universal messages: Real Time, sub-ID 1 01H, and a sub-ID 2 for each.
ghost use Rattle.std.specs.Prelude.{◌≡◌};
ghost use Rattle.mtc.specs.Kind.{is_time_code, time_code};

use universal::Universal;

// Sub-ID 1 of MIDI Time Code.
const MIDI_TIME_CODE: u8 = 0x01;
// Sub-ID 2 of the full message.
pub const FULL_MESSAGE: u8 = 0x01;
// Sub-ID 2 of user bits.
pub const USER_BITS: u8 = 0x02;

// The header of a MIDI Time Code message.
pub fn time_code(device_id: u8, sub_id2: u8) -> Universal
    ensures { result ≡ time_code device_id sub_id2 }
{
    Universal {
        real_time: true,
        device_id,
        sub_id1: MIDI_TIME_CODE,
        sub_id2: Some(sub_id2),
    }
}

// True for a MIDI Time Code message with this sub-ID 2.
#[tactic(auto, unfolding(crate::specs::Kind::is_time_code))]
pub fn is_time_code(u: Universal, sub_id2: u8) -> bool
    ensures { result ≡ is_time_code u sub_id2 }
{
    u.real_time && u.sub_id1 == MIDI_TIME_CODE && u.sub_id2 == Some(sub_id2)
}
