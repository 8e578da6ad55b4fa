// The refusals of documents 01 and 02, one case each, and the one place where a refusal becomes numbers and back. The definitions stand in
// specs/Refusals.antt. The header for C and the enum in Rust have the names, numbers and words of the cases from here.
ghost use Rattle.std.specs.Prelude.{◌≡◌};
ghost use Rattle.universal.specs.Refusals.{refusal_of, needed_of, error_from_10, error_of};

// Why a reading or a writing was turned back.
#[derive(Clone, Copy)]
pub enum SysexError {
    // 1: a byte above 7FH in a written name or data.
    DataByte,
    // 2: a length that the format does not allow.
    Length,
    // 3: a value outside the range of its field.
    OutOfRange,
    // 4: the buffer is shorter than the whole output.
    BufferTooSmall { needed: usize },
    // 5: a device above 127.
    Device,
    // 6: a start and length that are not inside the lent source.
    Source,
    // 7: a Locate target that is blank or not valid.
    Target,
    // 8: the generator is stopped.
    Stopped,
    // 9: the reading place is at or past the end.
    End,
    // 10: 256 items were already accepted in this writing.
    ItemLimit,
    // 11: an index has no field under this name.
    NoField,
    // 12: more than nine bytes of tracks, a track outside 1 to 58, or no armed track to be the lowest.
    Track,
    // 13: a quarter frame's byte of 80H or more, which is a status byte.
    StatusByte,
}

// Numbers and back are functions, and no `From`: refusal 4 has two numbers, and every number has a refusal.
impl SysexError {
    // Its number in documents 01 and 02.
    pub fn number(self) -> u8
        ensures { result ≡ (refusal_of self).number }
    {
        match self {
            SysexError::DataByte => 1,
            SysexError::Length => 2,
            SysexError::OutOfRange => 3,
            SysexError::BufferTooSmall { needed: _ } => 4,
            SysexError::Device => 5,
            SysexError::Source => 6,
            SysexError::Target => 7,
            SysexError::Stopped => 8,
            SysexError::End => 9,
            SysexError::ItemLimit => 10,
            SysexError::NoField => 11,
            SysexError::Track => 12,
            SysexError::StatusByte => 13,
        }
    }

    // The length that is needed, which only refusal 4 gives.
    pub fn needed(self) -> usize
        ensures { result ≡ needed_of (refusal_of self) }
    {
        match self {
            SysexError::BufferTooSmall { needed } => needed,
            _ => 0,
        }
    }

    // The refusal of a number, with the needed length for 4; a number that is no refusal's is taken as 10.
    pub fn of_number(number: u8, needed: usize) -> SysexError
        ensures { result ≡ error_of number needed }
    {
        if number > 9 {
            return SysexError::from_10(number);
        }
        match number {
            1 => SysexError::DataByte,
            2 => SysexError::Length,
            3 => SysexError::OutOfRange,
            4 => SysexError::BufferTooSmall { needed },
            5 => SysexError::Device,
            6 => SysexError::Source,
            7 => SysexError::Target,
            8 => SysexError::Stopped,
            9 => SysexError::End,
            _ => SysexError::ItemLimit,
        }
    }

    // Likewise from 10 on. It stands apart: with one match over all numbers each call of a writer takes some seven instructions
    // more.
    #[tactic(auto, unfolding(crate::specs::Refusals::error_from_10))]
    fn from_10(number: u8) -> SysexError
        ensures { result ≡ error_from_10 number }
    {
        match number {
            11 => SysexError::NoField,
            12 => SysexError::Track,
            13 => SysexError::StatusByte,
            _ => SysexError::ItemLimit,
        }
    }
}
