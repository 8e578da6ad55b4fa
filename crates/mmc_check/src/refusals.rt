// The refusals of the library, by number and in words.
use std::fmt;
use std::fmt::Display;
use universal::SysexError;

fn words(error: SysexError) -> &'static str {
    match error {
        SysexError::DataByte => "a byte above 7FH in a name or data",
        SysexError::Length => "a length that the format does not allow",
        SysexError::OutOfRange => "a value outside its field",
        SysexError::BufferTooSmall { needed: _ } => "the buffer is too small",
        SysexError::Device => "a device above 127",
        SysexError::Source => "a part that is not inside the source",
        SysexError::Target => "a Locate target that is blank or not a valid time",
        SysexError::Stopped => "the generator is stopped",
        SysexError::End => "the string has ended",
        SysexError::ItemLimit => "more than 256 items",
        SysexError::NoField => "no field under this name",
        SysexError::Track => "more than nine bytes of tracks",
        SysexError::StatusByte => "a quarter frame byte of 80H or more",
    }
}

// "Refused, 2: ..", without an end.
#[derive(Clone, Copy)]
pub(crate) struct Refusal(pub(crate) SysexError);

impl Display for Refusal {
    fn fmt<W: fmt::Write>(&self, f: &mut fmt::Formatter<W>) -> fmt::Result {
        write!(f, "Refused, {}: {}", self.0.number(), words(self.0))
    }
}
