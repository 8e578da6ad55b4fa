// The Universal message writer: F0H, the class, the device, the sub-IDs, the data and F7H, put into a lent buffer. It
// counts on past the end of the buffer, so that a refusal for room gives the needed length.
ghost use Rattle.universal.specs.Refusals.{answer_of};
ghost use Rattle.std.specs.Prelude.{◌≡◌, ◌<◌, ◌∷◌, [], length, Some, None};
ghost use lib.Dec.{leb};
ghost use Rattle.universal.specs.Overlay.{overlay};
ghost use Rattle.universal.specs.Emission.{answer, reached};
ghost use Rattle.universal.specs.Midi1.{is_addressed, has_sub_id2, class_id};
ghost use Rattle.universal.specs.Message.{all_low, header, opening, message, closing};

use crate::error::SysexError;
use crate::out::{put, put_part};

// Start of System Exclusive.
const SOX: u8 = 0xF0;
// End of System Exclusive.
const EOX: u8 = 0xF7;
// Universal Non-Real Time.
const NON_REAL_TIME: u8 = 0x7E;
// Universal Real Time.
const REAL_TIME: u8 = 0x7F;

// The device ID that addresses all devices.
pub const ALL_DEVICES: u8 = 0x7F;

// The split parts of a Universal message but its data, which stand beside it as lent bytes.
#[derive(Clone, Copy)]
pub struct Universal {
    // True for Real Time (7FH), false for Non-Real Time (7EH).
    pub real_time: bool,
    pub device_id: u8,
    pub sub_id1: u8,
    pub sub_id2: Option<u8>,
}

// True when a received device ID addresses the device `own`.
pub fn addressed(device_id: u8, own: u8) -> bool
    ensures { result ≡ is_addressed device_id own }
{
    device_id == ALL_DEVICES || device_id == own
}

// True for the families that carry a sub-ID 2.
pub fn has_sub_id2(real_time: bool, sub_id1: u8) -> bool
    ensures { result ≡ has_sub_id2 real_time sub_id1 }
{
    if real_time {
        match sub_id1 {
            0x01 | 0x03 | 0x04 | 0x05 | 0x08 => true,
            _ => false,
        }
    } else {
        match sub_id1 {
            0x04..=0x09 => true,
            _ => false,
        }
    }
}

fn class_id(real_time: bool) -> u8
    ensures { result ≡ class_id real_time }
{
    if real_time { REAL_TIME } else { NON_REAL_TIME }
}

// True when each byte is at most 7FH.
#[tactic(auto, unfolding(crate::specs::Message::all_low))]
pub fn all_low(bytes: &[u8]) -> bool
    ensures { result ≡ all_low bytes.now }
{
    bytes.iter().all(|&byte| is_low(byte))
}

// One byte of them, a call of its own so that a wrong bound is refused by this equation.
fn is_low(byte: u8) -> bool
    ensures { result ≡ leb byte 127 }
{
    byte <= 0x7F
}

// Puts F7H at a position, and answers the whole length, or that the buffer is too small for it.
pub fn close(out: &mut [u8], at: usize) -> Result<usize, SysexError>
    ensures result_value { answer_of result ≡ closing at (length out.old) }
    ensures out_after { out.new ≡ overlay out.old at (247 ∷ []) }
{
    put(out, at, EOX);
    if at < out.len() {
        return Ok(at + 1);
    }
    if at == 0xFFFF_FFFF_FFFF_FFFF {
        return Err(SysexError::BufferTooSmall { needed: at });
    }
    Err(SysexError::BufferTooSmall { needed: at + 1 })
}

impl Universal {
    // F0H, the class and the device.
    fn put_start(self, out: &mut [u8])
        ensures { out.new ≡ overlay out.old 0 (240 ∷ class_id self.real_time ∷ self.device_id ∷ []) }
    {
        put(out, 0, SOX);
        put(out, 1, class_id(self.real_time));
        put(out, 2, self.device_id);
    }

    // The opening of a family that carries no sub-ID 2.
    fn open_family(self, out: &mut [u8]) -> Result<usize, SysexError>
        requires { (self.device_id < 128) × (self.sub_id2 ≡ None) }
        ensures result_value { answer_of result ≡ reached (opening self) }
        ensures out_after { out.new ≡ overlay out.old 0 (opening self).bytes }
    {
        if has_sub_id2(self.real_time, self.sub_id1) {
            return Err(SysexError::OutOfRange);
        }
        self.put_start(out);
        if self.sub_id1 > 0x7F {
            return Err(SysexError::OutOfRange);
        }
        put(out, 3, self.sub_id1);
        Ok(4)
    }

    // The opening of a family that carries one.
    fn open_with_sub_id2(self, sub_id2: u8, out: &mut [u8]) -> Result<usize, SysexError>
        requires { (self.device_id < 128) × (self.sub_id2 ≡ Some sub_id2) }
        ensures result_value { answer_of result ≡ reached (opening self) }
        ensures out_after { out.new ≡ overlay out.old 0 (opening self).bytes }
    {
        if !has_sub_id2(self.real_time, self.sub_id1) {
            return Err(SysexError::OutOfRange);
        }
        self.put_start(out);
        if self.sub_id1 > 0x7F {
            return Err(SysexError::OutOfRange);
        }
        put(out, 3, self.sub_id1);
        if sub_id2 > 0x7F {
            return Err(SysexError::OutOfRange);
        }
        put(out, 4, sub_id2);
        Ok(5)
    }

    // Puts the opening bytes, F0H to the last sub-ID, at the start of the buffer.
    pub fn open(self, out: &mut [u8]) -> Result<usize, SysexError>
        ensures result_value { answer_of result ≡ reached (opening self) }
        ensures out_after { out.new ≡ overlay out.old 0 (opening self).bytes }
    {
        if self.device_id > 0x7F {
            return Err(SysexError::Device);
        }
        match self.sub_id2 {
            None => self.open_family(out),
            Some(sub_id2) => self.open_with_sub_id2(sub_id2, out),
        }
    }

    // Writes the whole message, F0H to F7H.
    pub fn write(self, data: &[u8], out: &mut [u8]) -> Result<usize, SysexError>
        ensures result_value { answer_of result ≡ answer (message self «data».now) (length out.old) }
        ensures out_after { out.new ≡ overlay out.old 0 (message self «data».now).bytes }
    {
        let at = self.open(out)?;
        if !all_low(data) {
            return Err(SysexError::DataByte);
        }
        put_part(out, at, data);
        close(out, at + data.len())
    }
}
