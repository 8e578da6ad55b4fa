// The counts of cases and of failures, for each call and together. `instances` has a tally of its own: the two programs share no crate
// that it belongs to.
use crate::calls::Call;
use std::{fmt, io};

#[derive(Clone, Copy, Default)]
struct Tally {
    cases: u64,
    failures: u64,
}

impl Tally {
    // One case more, which was right or failed.
    fn add(&mut self, right: bool) {
        self.cases = self.cases.wrapping_add(1);
        if !right {
            self.failures = self.failures.wrapping_add(1);
        }
    }
}

impl fmt::Display for Tally {
    fn fmt<W: fmt::Write>(&self, f: &mut fmt::Formatter<W>) -> fmt::Result {
        write!(f, "{} cases, {} failures", self.cases, self.failures)
    }
}

// A call, by the number that a case has for it, and its line of the report.
#[derive(Clone, Copy)]
struct Counted {
    number: u8,
    call: Call,
    name: &'static str,
    tally: Tally,
}

impl Counted {
    fn new(number: u8, call: Call, name: &'static str) -> Self {
        Counted {
            number,
            call,
            name,
            tally: Tally::default(),
        }
    }
}

#[derive(Drop)]
pub(crate) struct Counts {
    calls: [Counted; 45],
    unreadable: u64,
    all: Tally,
}

impl Counts {
    pub(crate) fn new() -> Self {
        Counts {
            calls: [
                Counted::new(0x01, Call::TimeNew, "MtcTime::new, is_valid"),
                Counted::new(0x02, Call::NextValid, "next_valid"),
                Counted::new(0x03, Call::ToFrameCount, "to_frame_count"),
                Counted::new(0x04, Call::FromFrameCount, "from_frame_count"),
                Counted::new(0x05, Call::AddFrames, "add_frames"),
                Counted::new(0x06, Call::FramesPerSecond, "frames_per_second"),
                Counted::new(0x10, Call::FrameFromByte, "QuarterFrame::from_byte"),
                Counted::new(0x11, Call::FrameToByte, "QuarterFrame::to_byte"),
                Counted::new(0x12, Call::Pieces, "QuarterFrame::pieces"),
                Counted::new(0x20, Call::GeneratorNew, "MtcGenerator::new"),
                Counted::new(0x21, Call::NextByte, "next_byte"),
                Counted::new(0x22, Call::SetRunning, "set_running"),
                Counted::new(0x23, Call::SetDirection, "set_direction"),
                Counted::new(0x24, Call::Locate, "locate"),
                Counted::new(0x25, Call::GeneratorTime, "MtcGenerator::time"),
                Counted::new(0x30, Call::ReaderNew, "MtcReader::new"),
                Counted::new(0x31, Call::Receive, "receive"),
                Counted::new(0x32, Call::ReaderFullMessage, "full_message"),
                Counted::new(
                    0x33,
                    Call::ReaderState,
                    "is_locked, is_running, direction, time",
                ),
                Counted::new(0x40, Call::Addressed, "addressed"),
                Counted::new(0x41, Call::HasSubId2, "has_sub_id2"),
                Counted::new(0x42, Call::UniversalWrite, "Universal::write"),
                Counted::new(0x43, Call::FullMessageRead, "FullMessage::from_universal"),
                Counted::new(0x44, Call::FullMessageWrite, "FullMessage::write"),
                Counted::new(0x45, Call::UserBitsRead, "UserBits::from_universal"),
                Counted::new(0x46, Call::UserBitsWrite, "UserBits::write"),
                Counted::new(0x47, Call::UserBitsBytes, "UserBits::to_bytes"),
                Counted::new(0x48, Call::MmcMessageRead, "MmcMessage::from_universal"),
                Counted::new(0x50, Call::ShortName, "short_name"),
                Counted::new(0x51, Call::FullName, "full_name"),
                Counted::new(0x52, Call::StatusRead, "TimeCodeStatus::from_byte"),
                Counted::new(0x53, Call::StatusByte, "TimeCodeStatus::to_byte"),
                Counted::new(0x54, Call::CodeRead, "StandardTimeCode::from_bytes"),
                Counted::new(0x55, Call::CodeWrite, "StandardTimeCode::to_bytes"),
                Counted::new(0x56, Call::ShortCodeRead, "ShortTimeCode::from_bytes"),
                Counted::new(0x57, Call::ShortCodeWrite, "ShortTimeCode::to_bytes"),
                Counted::new(0x58, Call::Short, "short"),
                Counted::new(0x59, Call::WithShort, "with_short"),
                Counted::new(0x5A, Call::ToSubframesForm, "to_subframes_form"),
                Counted::new(0x5B, Call::ToStatusForm, "to_status_form"),
                Counted::new(0x60, Call::NextCommand, "Commands::next"),
                Counted::new(0x61, Call::NextField, "InfoFields::next"),
                Counted::new(0x70, Call::WriteCommands, "write_commands"),
                Counted::new(0x71, Call::WriteResponses, "write_responses"),
                Counted::new(0x72, Call::WriteInfoFields, "write_info_fields"),
            ],
            unreadable: 0,
            all: Tally::default(),
        }
    }

    // One line more, by its bytes.
    pub(crate) fn add_line(&mut self, line: &[u8]) {
        match self.replay(line) {
            Some(right) => self.all.add(right),
            None => self.add_unreadable(),
        }
    }

    // One line more, which is no case.
    pub(crate) fn add_unreadable(&mut self) {
        self.unreadable = self.unreadable.wrapping_add(1);
        self.all.add(false);
    }

    // Whether the case of a line is right; none where the line is no case.
    fn replay(&mut self, line: &[u8]) -> Option<bool> {
        let (number, input, answer) = parts(line)?;
        let counted = self.calls.iter_mut().find(|c| c.number == number)?;
        let right = counted.call.replay(input, answer)?;
        counted.tally.add(right);
        Some(right)
    }

    // Writes a line for each call, one of the lines that are no case, and one of all lines together.
    pub(crate) fn report(&self, rt: &impl Print) -> io::Result<()> {
        for counted in &self.calls {
            println!(rt; "{}: {}", counted.name, counted.tally)?;
        }
        println!(rt; "unreadable lines: {}", self.unreadable)?;
        println!(rt; "all: {}", self.all)
    }
}

// A case: the number of its call, two bytes that say how long its input is, the input, and the answer.
fn parts(line: &[u8]) -> Option<(u8, &[u8], &[u8])> {
    let [number, high, low, rest @ ..] = line else {
        return None;
    };
    let length = u16::from_be_bytes([*high, *low]);
    let (input, answer) = rest.split_at_checked(usize::from(length))?;
    Some((*number, input, answer))
}
