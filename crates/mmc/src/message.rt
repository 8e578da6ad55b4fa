// A machine control message (RP-013, p. 1), read from the split parts of a Universal message: its string stays the lent data.
ghost use Rattle.universal.specs.Refusals.{answer_of};
ghost use Rattle.std.specs.Prelude.{◌≡◌};
ghost use Rattle.mmc.specs.Message.{message_from};

use universal::{SysexError, Universal};

// Sub-ID 1 of a command message.
pub(crate) const COMMAND: u8 = 0x06;
// Sub-ID 1 of a response message.
pub(crate) const RESPONSE: u8 = 0x07;

// Commands to a device, a group or all devices, or responses from a device. The string is the data beside it.
#[derive(Clone, Copy)]
pub enum MmcMessage {
    Commands { device_id: u8 },
    Responses { device_id: u8 },
}

impl MmcMessage {
    // Reads Real Time, sub-ID 1 06H or 07H; another message is "not this", an empty string 2.
    #[tactic(auto, unfolding(crate::specs::Message::message_from))]
    pub fn from_universal(u: Universal, data: &[u8]) -> Result<Option<MmcMessage>, SysexError>
        ensures { answer_of result ≡ message_from u «data».now }
    {
        if !u.real_time {
            return Ok(None);
        }
        let device_id = u.device_id;
        let message = match u.sub_id1 {
            COMMAND => MmcMessage::Commands { device_id },
            RESPONSE => MmcMessage::Responses { device_id },
            _ => return Ok(None),
        };
        if data.is_empty() {
            return Err(SysexError::Length);
        }
        Ok(Some(message))
    }
}
