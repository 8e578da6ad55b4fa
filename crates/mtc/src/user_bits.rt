// User bits: eight binary groups and two flag bits, `F0 7F <device ID> 01 02 u1 .. u8 u9 F7` (RP-004/008, p. 6).
ghost use Rattle.universal.specs.Refusals.{answer_of};
ghost use Rattle.std.specs.Prelude.{◌≡◌, length};
ghost use Rattle.universal.specs.Emission.{answer};
ghost use Rattle.universal.specs.Overlay.{overlay};
ghost use Rattle.mtc.specs.UserBits.{user_bits_from, all_nibbles, user_bits_written, group_bytes};

use crate::kind::{USER_BITS, is_time_code, time_code};
use universal::{SysexError, Universal};

// A user bits message.
#[derive(Clone, Copy)]
pub struct UserBits {
    // The device ID; 7FH for the whole system.
    pub device_id: u8,
    // Binary groups 1 to 8, u1 to u8, of 4 bits each.
    pub groups: [u8; 8],
    // The binary group flag bits of u9: bit 1 is j, bit 0 is i.
    pub flags: u8,
}

// True when each value is at most 0FH.
#[tactic(auto, unfolding(crate::specs::UserBits::all_nibbles))]
pub(crate) fn all_nibbles(values: &[u8]) -> bool
    ensures { result ≡ all_nibbles values.now }
{
    values.iter().all(|&value| value <= 0x0F)
}

impl UserBits {
    // Reads a message's split parts: "not this" for another kind, 2 where the data is not nine bytes. The reserved bits
    // are ignored, and the device is passed on.
    #[tactic(auto, unfolding(crate::specs::UserBits::user_bits_from))]
    pub fn from_universal(u: Universal, data: &[u8]) -> Result<Option<UserBits>, SysexError>
        ensures { answer_of result ≡ user_bits_from u «data».now }
    {
        if !is_time_code(u, USER_BITS) {
            return Ok(None);
        }
        if data.len() != 9 {
            return Err(SysexError::Length);
        }
        let groups = [
            data[0] % 16,
            data[1] % 16,
            data[2] % 16,
            data[3] % 16,
            data[4] % 16,
            data[5] % 16,
            data[6] % 16,
            data[7] % 16,
        ];
        Ok(Some(UserBits {
            device_id: u.device_id,
            groups,
            flags: data[8] % 4,
        }))
    }

    // Writes the whole message: 5 for a device above 127, then 3 for a group above 0FH or flags above 03H, with nothing
    // emitted, then 4 for a buffer that is too small.
    #[tactic(auto, unfolding(crate::specs::UserBits::user_bits_written))]
    pub fn write(self, out: &mut [u8]) -> Result<usize, SysexError>
        ensures result_value { answer_of result ≡ answer (user_bits_written self) (length out.old) }
        ensures out_after { out.new ≡ overlay out.old 0 (user_bits_written self).bytes }
    {
        if self.device_id > 0x7F {
            return Err(SysexError::Device);
        }
        let g = self.groups;
        if !all_nibbles(&g) {
            return Err(SysexError::OutOfRange);
        }
        if self.flags > 0x03 {
            return Err(SysexError::OutOfRange);
        }
        let data = [g[0], g[1], g[2], g[3], g[4], g[5], g[6], g[7], self.flags];
        time_code(self.device_id, USER_BITS).write(&data, out)
    }

    // The groups as four bytes, hhhhgggg ffffeeee ddddcccc bbbbaaaa.
    #[tactic(auto, unfolding(crate::specs::UserBits::group_bytes))]
    pub fn to_bytes(self) -> [u8; 4]
        ensures { result ≡ group_bytes self.groups }
    {
        let g = self.groups;
        [
            g[7] % 16 * 16 + g[6] % 16,
            g[5] % 16 * 16 + g[4] % 16,
            g[3] % 16 * 16 + g[2] % 16,
            g[1] % 16 * 16 + g[0] % 16,
        ]
    }
}
