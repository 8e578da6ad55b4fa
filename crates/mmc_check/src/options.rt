// The words of the command line: options first, then each file in its order.
ghost use Rattle.std.specs.Prelude.{◌≤◌};

use crate::input::{Form, check};
use crate::say::{say, say_failed, say_raw};
use std::env::{Env, FillError};
use std::fs::File;
use std::io;
use universal::ALL_DEVICES;

// What --help prints.
const PAGE: &str = "mmc_check [--device N] [--text | --bytes] [FILE ..]\n\
    \n\
    Says what becomes of MIDI Machine Control strings: who each is for, what it\n\
    asks, what a transport does with it, and which refusal it gets at which byte.\n\
    Reads the files in their order; - or no file is standard input.\n\
    \n\
    --device N   the own device: 5, 0x05 or 05H. 7FH, as without this option,\n\
    \x20            hears every message.\n\
    --text       the input is hexadecimal text: F0 7F 7F 06 02 F7, with spaces,\n\
    \x20            commas, 0x before or H after, comments after #, a message to a line.\n\
    --bytes      the input is the bytes themselves, as in a .syx file.\n\
    \x20            Without either, control bytes outside comments tell.\n\
    --help       this page.\n\
    \n\
    Lines, columns and bytes are counted from 1; F0H is byte 1 of its message.\n\
    Each message is judged by itself, on a transport that is stopped.\n\
    docs/HANDBOOK.md has every command, and what becomes of it when it is written\n\
    badly.\n";

// A word of the command line.
#[derive(Clone, Copy)]
enum Word<'a> {
    Device,
    // The word behind --device.
    Number(&'a [u8]),
    Form(Form),
    Help,
    // No option, though it looks like one.
    Wrong(&'a [u8]),
    File(&'a [u8]),
}

impl<'a> Word<'a> {
    fn of(bytes: &'a [u8]) -> Word<'a> {
        match bytes {
            b"--device" => Word::Device,
            b"--text" => Word::Form(Form::Text),
            b"--bytes" => Word::Form(Form::Bytes),
            b"--help" | b"-h" => Word::Help,
            [b'-', _, ..] => Word::Wrong(bytes),
            _ => Word::File(bytes),
        }
    }
}

// All words but the program's own name: the number of the next one, whether it stands behind --device, and its bytes.
// The buffer has a fixed size: without a heap no allocation can fail.
#[derive(Drop)]
struct Words<'a> {
    rt: &'a HostRuntime,
    next: usize,
    waits: bool,
    bytes: [u8; 4096],
}

impl<'a> Words<'a> {
    fn new(rt: &'a HostRuntime) -> Words<'a> {
        Words {
            rt,
            next: 1,
            waits: false,
            bytes: [0; 4096],
        }
    }

    // The next word; an empty one where it is too long, and none after the last. It borrows the buffer, so this is no `Iterator`.
    fn next(&mut self) -> Option<Word<'_>> {
        let length = match self.rt.arg(self.next, &mut self.bytes) {
            Ok(length) => length,
            Err(FillError::TooLong) => 0,
            Err(FillError::NotPresent) => return None,
        };
        let bytes = &self.bytes[..length];
        let word = if self.waits {
            Word::Number(bytes)
        } else {
            Word::of(bytes)
        };
        self.next = self.next.saturating_add(1);
        self.waits = matches!(word, Word::Device);
        Some(word)
    }
}

// Why no input is read.
#[derive(Clone, Copy)]
enum Stop<'a> {
    Help,
    NoDevice(&'a [u8]),
    NoNumber,
    NoOption(&'a [u8]),
}

impl Stop<'_> {
    fn say(self, rt: &HostRuntime) {
        match self {
            Stop::Help => say!(rt; "{PAGE}"),
            Stop::NoDevice(word) => complain(rt, word, "no device; write 5, 0x05 or 05H"),
            Stop::NoNumber => complain(rt, b"--device", "the number is missing"),
            Stop::NoOption(word) => complain(rt, word, "no such option; --help lists them"),
        }
    }
}

fn complain(rt: &HostRuntime, word: &[u8], what: &str) {
    let stderr = rt.stderr();
    say!(stderr; "mmc_check: ");
    say_raw(&stderr, word);
    say!(stderr; ": {what}\n");
}

// Digits of a number of at most 255. No sign stands before them.
fn number(digits: &[u8], radix: u32) -> Option<u8>
    requires lower_bound { 2 ≤ radix }
    requires upper_bound { radix ≤ 36 }
{
    if digits.starts_with(b"+") {
        return None;
    }
    let digits = str::from_utf8(digits).ok()?;
    u8::from_str_radix(digits, radix).ok()
}

// A device: 5, 0x05 or 05H.
fn device(word: &[u8]) -> Option<u8> {
    match word {
        [b'0', b'X' | b'x', _, ..] => number(&word[2..], 16),
        [digits @ .., b'H' | b'h'] if !digits.is_empty() => number(digits, 16),
        _ => number(word, 10),
    }
}

// The own device, the form of the inputs where it is given, and whether a file is named.
#[derive(Clone, Copy)]
struct Options {
    own: u8,
    form: Option<Form>,
    named: bool,
}

impl Options {
    fn take<'a>(&mut self, word: Word<'a>) -> Result<(), Stop<'a>> {
        match word {
            Word::Device => {}
            Word::Number(digits) => self.own = device(digits).ok_or(Stop::NoDevice(digits))?,
            Word::Form(form) => self.form = Some(form),
            Word::Help => return Err(Stop::Help),
            Word::Wrong(word) => return Err(Stop::NoOption(word)),
            Word::File(_) => self.named = true,
        }
        Ok(())
    }

    // All words, to the first that says why no input is read.
    fn read(rt: &HostRuntime) -> Option<Options> {
        let mut options = Options {
            own: ALL_DEVICES,
            form: None,
            named: false,
        };
        let mut words = Words::new(rt);
        // No `loop`: nothing here says how many words there are, so it would have no measure.
        for _ in 0..usize::MAX {
            let Some(word) = words.next() else {
                break;
            };
            if let Err(stop) = options.take(word) {
                stop.say(rt);
                return None;
            }
        }
        if words.waits {
            Stop::NoNumber.say(rt);
            return None;
        }
        Some(options)
    }

    fn check_file(self, rt: &HostRuntime, path: &[u8]) {
        if matches!(path, b"-") {
            check(rt, &mut rt.reader(), self.form, self.own);
            return;
        }
        say_raw(rt, path);
        say!(rt; ":\n");
        match open_file(rt, path) {
            Ok(mut file) => check(rt, &mut file, self.form, self.own),
            Err(error) => {
                say_failed(&rt.stderr(), path, error);
                say!(rt; "It cannot be read.\n");
            }
        }
    }

    fn check_files(self, rt: &HostRuntime) {
        let mut words = Words::new(rt);
        // No `loop`: nothing here says how many words there are, so it would have no measure.
        for _ in 0..usize::MAX {
            let Some(word) = words.next() else {
                break;
            };
            if let Word::File(path) = word {
                self.check_file(rt, path);
            }
        }
    }
}

// Opens a file by its name, which must be text.
fn open_file(rt: &HostRuntime, path: &[u8]) -> io::Result<File> {
    match str::from_utf8(path) {
        Ok(name) => File::open(rt, name),
        Err(_) => Err(io::Error::other("its name is not UTF-8")),
    }
}

// Does what the command line asks.
pub(crate) fn run(rt: &HostRuntime) {
    match Options::read(rt) {
        None => {}
        Some(options) if options.named => options.check_files(rt),
        Some(options) => check(rt, &mut rt.reader(), options.form, options.own),
    }
}
