// The full message: a whole label with its rate, `F0 7F <device ID> 01 01 hr mn sc fr F7` (RP-004/008, p. 5).
ghost use Rattle.universal.specs.Refusals.{answer_of};
ghost use Rattle.std.specs.Prelude.{◌≡◌, length};
ghost use Rattle.universal.specs.Emission.{answer};
ghost use Rattle.universal.specs.Overlay.{overlay};
ghost use Rattle.mtc.specs.FullMessage.{full_message_from, full_message_written};

use crate::kind::{FULL_MESSAGE, is_time_code, time_code};
use labels::MtcTime;
use universal::{SysexError, Universal};

// A full message.
#[derive(Clone, Copy)]
pub struct FullMessage {
    // The device ID; 7FH for the whole system.
    pub device_id: u8,
    // The label with its rate.
    pub time: MtcTime,
}

impl FullMessage {
    // Reads a message's split parts: "not this" for another kind, 2 where the data is not four bytes. The counts are
    // masked to their widths, and the device is passed on.
    #[tactic(auto, unfolding(crate::specs::FullMessage::full_message_from))]
    pub fn from_universal(u: Universal, data: &[u8]) -> Result<Option<FullMessage>, SysexError>
        ensures { answer_of result ≡ full_message_from u «data».now }
    {
        if !is_time_code(u, FULL_MESSAGE) {
            return Ok(None);
        }
        if data.len() != 4 {
            return Err(SysexError::Length);
        }
        let time = MtcTime::raw(data[0], data[1], data[2], data[3]);
        Ok(Some(FullMessage {
            device_id: u.device_id,
            time,
        }))
    }

    // Writes the whole message: 5 for a device above 127, then 3 for a label that is not valid, with nothing emitted,
    // then 4 for a buffer that is too small.
    #[tactic(auto, unfolding(crate::specs::FullMessage::full_message_written))]
    pub fn write(self, out: &mut [u8]) -> Result<usize, SysexError>
        ensures result_value { answer_of result ≡ answer (full_message_written self) (length out.old) }
        ensures out_after { out.new ≡ overlay out.old 0 (full_message_written self).bytes }
    {
        let time = self.time;
        if self.device_id > 0x7F {
            return Err(SysexError::Device);
        }
        if !time.is_valid() {
            return Err(SysexError::OutOfRange);
        }
        let data = [time.hours_byte(), time.minutes, time.seconds, time.frames];
        time_code(self.device_id, FULL_MESSAGE).write(&data, out)
    }
}
