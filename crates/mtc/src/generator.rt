// The quarter frame generator: pieces 0 to 7 forward and 7 to 0 in reverse. Each sequence encodes the frame that starts at
// its piece 0, and the time moves two frames for each sequence (RP-004/008, p. 3).
ghost use Rattle.std.specs.Prelude.{◌≡◌, ◌≤◌, get_or};
ghost use Rattle.universal.specs.Refusals.{gives, answer_of};
ghost use Rattle.mtc.specs.QuarterFrame.{pieces};
ghost use Rattle.labels.specs.Time.{add_frames};
ghost use Rattle.mtc.specs.Generator.{first, after, final, sequence_frames, moved, started, next_byte, after_next_byte, sent_at, with_running, with_direction, located};

use crate::quarter_frame::QuarterFrame;
use labels::MtcTime;
use universal::SysexError;

// The direction of a sequence.
#[derive(Clone, Copy, PartialEq, Eq)]
pub enum Direction {
    // Pieces 0 to 7.
    Forward,
    // Pieces 7 to 0.
    Reverse,
}

impl Direction {
    // The first piece of a sequence.
    pub fn first(self) -> u8
        ensures { (result ≡ first self) × (result ≤ 7) }
    {
        match self {
            Direction::Forward => 0,
            Direction::Reverse => 7,
        }
    }

    // The piece after `last`.
    pub fn after(self, last: u8) -> u8
        ensures { (result ≡ after self last) × (result ≤ 7) }
    {
        match self {
            Direction::Forward => (last % 8 + 1) % 8,
            Direction::Reverse => (last % 8 + 7) % 8,
        }
    }

    // The last piece of a sequence.
    pub fn last(self) -> u8
        ensures { result ≡ final self }
    {
        match self {
            Direction::Forward => 7,
            Direction::Reverse => 0,
        }
    }

    // The time of the sequence after that of `time`.
    pub fn next_time(self, time: MtcTime) -> MtcTime
        ensures { result ≡ add_frames time (sequence_frames self) }
    {
        match self {
            Direction::Forward => time.add_frames(2),
            Direction::Reverse => time.add_frames(-2),
        }
    }
}

// The time that the current or next sequence encodes, the direction, the last piece sent, and whether it runs. The caller
// sends each data byte at its quarter frame, piece 0 at the start of the frame that the sequence encodes.
#[derive(Clone, Copy)]
pub struct MtcGenerator {
    pub time: MtcTime,
    pub direction: Direction,
    pub last: Option<u8>,
    pub running: bool,
}

// The answer of `next_byte`, with the generator that comes back.
#[derive(Clone, Copy)]
pub struct Sent {
    pub generator: MtcGenerator,
    pub byte: Result<u8, SysexError>,
}

impl MtcGenerator {
    // A running generator: the first sequence encodes `time`, from piece 0 forward or piece 7 in reverse.
    pub fn new(time: MtcTime, direction: Direction) -> Self
        ensures { result ≡ started time direction }
    {
        MtcGenerator {
            time,
            direction,
            last: None,
            running: true,
        }
    }

    // The data byte of the next piece, or refusal 8 while stopped. A forward sequence after a piece 7 encodes the time plus
    // two frames, a reverse sequence after a piece 0 the time minus two frames. A last piece above 7 is taken as none.
    #[tactic(auto, unfolding(crate::specs::Generator::next_byte, crate::specs::Generator::after_next_byte))]
    pub fn next_byte(self) -> Sent
        ensures { (answer_of result.byte ≡ next_byte self) × (result.generator ≡ after_next_byte self) }
    {
        if !self.running {
            return Sent {
                generator: self,
                byte: Err(SysexError::Stopped),
            };
        }
        let time = self.time;
        let direction = self.direction;
        match self.last {
            Some(l) if l <= 7 => send(moved_on(time, direction, l), direction, direction.after(l)),
            _ => send(time, direction, direction.first()),
        }
    }

    // Runs or stops the generator.
    pub fn set_running(self, running: bool) -> Self
        ensures { result ≡ with_running self running }
    {
        MtcGenerator { running, ..self }
    }

    // Turns the generator: the next piece is the next one in the new order after the last piece, and the time changes when
    // the next sequence starts.
    pub fn set_direction(self, direction: Direction) -> Self
        ensures { result ≡ with_direction self direction }
    {
        MtcGenerator { direction, ..self }
    }

    // A new time: the next piece is the first one of the direction.
    pub fn locate(self, time: MtcTime) -> Self
        ensures { result ≡ located self time }
    {
        MtcGenerator {
            time,
            last: None,
            ..self
        }
    }

    // The time that the current or next sequence encodes.
    pub fn time(self) -> MtcTime
        ensures { result ≡ self.time }
    {
        self.time
    }
}

// The time of the sequence that the piece after `last` belongs to.
fn moved_on(time: MtcTime, direction: Direction, last: u8) -> MtcTime
    ensures { result ≡ moved direction last time }
{
    if last == direction.last() {
        return direction.next_time(time);
    }
    time
}

// One piece of a time, and the running generator that has just sent it.
fn send(time: MtcTime, direction: Direction, piece: u8) -> Sent
    requires { piece ≤ 7 }
    ensures { (answer_of result.byte ≡ gives (get_or (pieces time) piece 0)) × (result.generator ≡ sent_at time direction piece) }
{
    Sent {
        generator: MtcGenerator {
            time,
            direction,
            last: Some(piece),
            running: true,
        },
        byte: Ok(QuarterFrame::pieces(time)[piece as usize]),
    }
}
