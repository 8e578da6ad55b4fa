// Standard input, a line at a time: the bytes of a case, from its pairs of digits.
ghost use Rattle.std.specs.Prelude.{◌≤◌};

use crate::tally::Counts;
use std::io::Read;

#[derive(Clone, Copy, PartialEq, Eq)]
enum State {
    // No character yet.
    Empty,
    // `#` began the line.
    Comment,
    // The first digit of a pair came.
    Half(u8),
    // A pair is whole.
    Between,
    // A character was out of place, or there were too many.
    Bad,
}

// A line so far: its bytes, and what its last character was. The bytes have a fixed place and a length, and no `Vec`: a program
// without a heap has no failed allocation to answer.
#[derive(Drop)]
struct Line {
    bytes: [u8; 2048],
    length: usize,
    state: State,
    ghost in_range: { length ≤ 2048 },
}

// A digit's value.
fn digit(byte: u8) -> Option<u8> {
    match byte {
        b'0'..=b'9' => Some(byte - b'0'),
        b'A'..=b'F' => Some(byte - b'A' + 10),
        _ => None,
    }
}

impl Line {
    fn new() -> Self {
        Line {
            bytes: [0; 2048],
            length: 0,
            state: State::Empty,
        }
    }

    // One character more. A space stands between pairs.
    fn take(&mut self, character: u8) {
        self.state = match self.state {
            State::Empty if character == b'#' => State::Comment,
            State::Between if character == b' ' => State::Between,
            State::Empty | State::Between => digit(character).map_or(State::Bad, State::Half),
            State::Half(high) => match digit(character) {
                Some(low) => self.push((high << 4) | low),
                None => State::Bad,
            },
            State::Comment => State::Comment,
            State::Bad => State::Bad,
        };
    }

    // One byte more, where there is room.
    fn push(&mut self, byte: u8) -> State {
        if self.length == 2048 {
            return State::Bad;
        }
        self.bytes[self.length] = byte;
        self.length += 1;
        State::Between
    }

    // The line is whole: it is a comment, or its bytes are counted. The next one begins.
    fn end(&mut self, counts: &mut Counts) {
        match self.state {
            State::Comment => {}
            State::Between => counts.add_line(&self.bytes[..self.length]),
            State::Empty | State::Half(_) | State::Bad => counts.add_unreadable(),
        }
        self.length = 0;
        self.state = State::Empty;
    }

    fn take_all(&mut self, chunk: &[u8], counts: &mut Counts) {
        for character in chunk {
            match *character {
                b'\n' => self.end(counts),
                character => self.take(character),
            }
        }
    }
}

// Reads standard input to its end, in at most a million reads; more count as a line that is no case, and so does a read that fails,
// which ends the input. The last line may lack its end.
pub(crate) fn read_all(rt: &impl Input, counts: &mut Counts) {
    let mut input = rt.reader();
    let mut line = Line::new();
    let mut chunk = [0u8; 4096];
    for _ in 0..1_000_000u32 {
        match input.read(&mut chunk) {
            Ok(0) => {
                end_input(&mut line, counts);
                return;
            }
            Ok(n) => line.take_all(&chunk[..n], counts),
            Err(_) => {
                counts.add_unreadable();
                end_input(&mut line, counts);
                return;
            }
        }
    }
    counts.add_unreadable();
}

fn end_input(line: &mut Line, counts: &mut Counts) {
    if line.state != State::Empty {
        line.end(counts);
    }
}
