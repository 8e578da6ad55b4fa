// The data byte of the quarter frame message F1H: 0nnn dddd, piece nnn and value dddd (RP-004/008, p. 1), and the eight
// data bytes of a label (p. 2).
ghost use Rattle.std.specs.Prelude.{◌≡◌};
ghost use Rattle.universal.specs.Refusals.{answer_of};
ghost use Rattle.mtc.specs.QuarterFrame.{from_byte, to_byte, pieces};

use labels::MtcTime;
use universal::SysexError;

// A data byte's piece, 0 (frames, low nibble) to 7 (hours, high nibble, and rate), and its value of four bits.
#[derive(Clone, Copy)]
pub struct QuarterFrame {
    pub piece: u8,
    pub value: u8,
}

impl QuarterFrame {
    // The piece and the value of a data byte, or 13 for a byte of 80H or more.
    pub fn from_byte(byte: u8) -> Result<Self, SysexError>
        ensures { answer_of result ≡ from_byte byte }
    {
        if byte > 0x7F {
            return Err(SysexError::StatusByte);
        }
        Ok(QuarterFrame {
            piece: byte / 16 % 8,
            value: byte % 16,
        })
    }

    // The data byte 0nnn dddd.
    pub fn to_byte(self) -> u8
        ensures { result ≡ to_byte self }
    {
        self.piece % 8 * 16 + self.value % 16
    }

    // The eight data bytes of a label, piece 0 first; the reserved bits are 0.
    #[tactic(auto, unfolding(crate::specs::QuarterFrame::pieces))]
    pub fn pieces(time: MtcTime) -> [u8; 8]
        ensures { result ≡ pieces time }
    {
        let f = time.frames;
        let s = time.seconds;
        let m = time.minutes;
        let h = time.hours;
        let rate = time.rate;
        [
            f % 16,
            0x10 + f / 16 % 2,
            0x20 + s % 16,
            0x30 + s / 16 % 4,
            0x40 + m % 16,
            0x50 + m / 16 % 4,
            0x60 + h % 16,
            0x70 + rate.into_bits() * 2 + h / 16 % 2,
        ]
    }
}
