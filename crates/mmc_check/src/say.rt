// What is printed of numbers and bytes, and the words of a failure.
use std::fmt;
use std::fmt::Display;
use std::io::{Cursor, Error, Write};

// Prints a format. A write that fails is passed over: no later one could tell of it.
macro_rules! say {
    ($rt:expr; $($format:tt)+) => {{
        let _ = $rt.print(format_args!($($format)+));
    }};
}

pub(crate) use say;

// Bytes that need not be text, as the name of a file.
pub(crate) fn say_raw(rt: &impl Print, bytes: &[u8]) {
    let _ = rt.write_all(bytes);
}

// A number of things: 1 byte, 2 bytes.
#[derive(Clone, Copy)]
pub(crate) struct Count(pub(crate) usize, pub(crate) &'static str);

impl Display for Count {
    fn fmt<W: fmt::Write>(&self, f: &mut fmt::Formatter<W>) -> fmt::Result {
        let Count(n, thing) = *self;
        let end = if n == 1 { "" } else { "s" };
        write!(f, "{n} {thing}{end}")
    }
}

// A byte as machine control is written: 7FH.
#[derive(Clone, Copy)]
pub(crate) struct Byte(pub(crate) u8);

impl Display for Byte {
    fn fmt<W: fmt::Write>(&self, f: &mut fmt::Formatter<W>) -> fmt::Result {
        write!(f, "{:02X}H", self.0)
    }
}

// Bytes as a string has them, each after a space.
#[derive(Clone, Copy)]
pub(crate) struct Bytes<'a>(pub(crate) &'a [u8]);

impl Display for Bytes<'_> {
    fn fmt<W: fmt::Write>(&self, f: &mut fmt::Formatter<W>) -> fmt::Result {
        for byte in self.0 {
            write!(f, " {byte:02X}")?;
        }
        Ok(())
    }
}

// What the system says of an error ends before its number: "Is a directory (os error 21)".
fn without_number(text: &str) -> &str {
    text.split_once(" (os error ")
        .map_or(text, |(words, _)| words)
}

// The words of an error, as the system has them, after what failed.
pub(crate) fn say_failed(rt: &impl Print, what: &[u8], error: Error) {
    let mut text = Cursor::new([0u8; 128]);
    let _ = write!(text, "{error}");
    let length = text.position() as usize;
    let bytes = text.into_inner();
    let words = bytes
        .get(..length)
        .and_then(|words| str::from_utf8(words).ok())
        .unwrap_or("");
    say_raw(rt, what);
    say!(rt; ": {}\n", without_number(words));
}
