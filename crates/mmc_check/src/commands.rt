// The commands of a message: each in words, what the transport does with it, and where that leaves the generator.
use crate::body::{Body, Parts};
use crate::fields::read_write;
use crate::frames::say_frames;
use crate::names::{FieldName, command_name};
use crate::refusals::Refusal;
use crate::say::{Byte, Count, say};
use crate::times::{Code, Label, Time};
use crate::writing::Writing;
use mmc::command::{
    DEFERRED_PLAY, FAST_FORWARD, LOCATE, MMC_RESET, MOVE, PAUSE, PLAY, RECORD_EXIT, RECORD_STROBE,
    REWIND, STOP, WRITE,
};
use mmc::{MmcCommand, StandardTimeCode};
use mtc::{Direction, MtcGenerator, MtcTime, TimeCodeType};
use std::fmt;
use std::fmt::Display;
use transport::{Reply, TurnReply, obey_next};
use universal::SysexError;

// What the commands that were done did to the generator: nothing, stopped or started it, or located it too.
#[derive(Clone, Copy, PartialEq, Eq, PartialOrd, Ord)]
enum Moved {
    Not,
    Run,
    Located,
}

// What a command that is done does to the generator.
#[derive(Clone, Copy)]
enum Effect {
    Nothing,
    Stops,
    Starts,
    Locates(StandardTimeCode),
}

impl Effect {
    fn of(command: MmcCommand) -> Effect {
        match command {
            MmcCommand::Stop | MmcCommand::Pause => Effect::Stops,
            MmcCommand::Play | MmcCommand::DeferredPlay => Effect::Starts,
            MmcCommand::LocateTarget(target) => Effect::Locates(target),
            _ => Effect::Nothing,
        }
    }

    fn moved(self) -> Moved {
        match self {
            Effect::Nothing => Moved::Not,
            Effect::Stops | Effect::Starts => Moved::Run,
            Effect::Locates(_) => Moved::Located,
        }
    }

    // With the generator that the command left.
    fn say(self, rt: &impl Print, generator: MtcGenerator) {
        match self {
            Effect::Nothing => say!(rt; "The transport is unchanged.\n"),
            Effect::Stops => say!(rt; "Stopped.\n"),
            Effect::Starts => say!(rt; "Running forward.\n"),
            Effect::Locates(target) => say_located(rt, target, generator.time()),
        }
    }
}

// Where the transport is, and why not at the target's own time: a negative one is counted back, and one that drop-frame skips is moved.
fn say_located(rt: &impl Print, target: StandardTimeCode, time: MtcTime) {
    let is_skipped = !target.time.is_valid();
    say!(rt; "Located at {}", Label(time));
    if target.negative {
        say!(rt; ", counted back from midnight");
        if is_skipped {
            say!(rt; " by {}", Label(target.time.next_valid()));
        }
    }
    if is_skipped {
        say!(rt; ", since drop-frame skips {}", Label(target.time));
    }
    say!(rt; ", and stopped.\n");
}

// A command in words: its name, and what it carries. The parts of another one lie in the body.
#[derive(Clone, Copy)]
struct InWords<'a> {
    command: MmcCommand,
    body: &'a [u8],
}

impl Display for InWords<'_> {
    fn fmt<W: fmt::Write>(&self, f: &mut fmt::Formatter<W>) -> fmt::Result {
        if let Some(name) = name_of(self.command) {
            f.write_str(command_name(name))?;
        }
        match self.command {
            MmcCommand::Write(data) => { write!(f, ", {} of fields", Count(data.len, "byte")) }
            MmcCommand::LocateField { register } => write!(f, " to {}", FieldName(register)),
            MmcCommand::LocateTarget(code) => write!(f, " {}", Code(code)),
            MmcCommand::Move {
                destination,
                source,
            } => write!(
                f,
                " to {} from {}",
                FieldName(destination),
                FieldName(source)
            ),
            MmcCommand::Other { name, data } => {
                let name = name.of(self.body);
                let data = data.of(self.body);
                write!(f, "{}", Other(Parts { name, data }))
            }
            _ => Ok(()),
        }
    }
}

// The name of one byte that a command is written with; none where it has its own bytes.
fn name_of(command: MmcCommand) -> Option<u8> {
    match command {
        MmcCommand::Stop => Some(STOP),
        MmcCommand::Play => Some(PLAY),
        MmcCommand::DeferredPlay => Some(DEFERRED_PLAY),
        MmcCommand::FastForward => Some(FAST_FORWARD),
        MmcCommand::Rewind => Some(REWIND),
        MmcCommand::RecordStrobe => Some(RECORD_STROBE),
        MmcCommand::RecordExit => Some(RECORD_EXIT),
        MmcCommand::Pause => Some(PAUSE),
        MmcCommand::Reset => Some(MMC_RESET),
        MmcCommand::Write(_) => Some(WRITE),
        MmcCommand::LocateField { register: _ } | MmcCommand::LocateTarget(_) => Some(LOCATE),
        MmcCommand::Move {
            destination: _,
            source: _,
        } => Some(MOVE),
        MmcCommand::Other { name: _, data: _ } => None,
    }
}

// A command that is not read further, by its name and data.
#[derive(Clone, Copy)]
struct Other<'a>(Parts<'a>);

impl Display for Other<'_> {
    fn fmt<W: fmt::Write>(&self, f: &mut fmt::Formatter<W>) -> fmt::Result {
        match self.0.name {
            [name] => write!(
                f,
                "{} ({}), not read further{}",
                command_name(*name),
                Byte(*name),
                self.0
            ),
            _ => write!(f, "Command of an extended set{}", self.0),
        }
    }
}

// A message of commands that is read on the device `own`: the generator with what was done to it, whether nothing was refused, and
// what the desk's writer makes of it.
#[derive(Clone, Copy)]
struct Run<'a> {
    body: Body<'a>,
    device_id: u8,
    own: u8,
    generator: MtcGenerator,
    moved: Moved,
    good: bool,
    writing: Writing<'a>,
}

impl<'a> Run<'a> {
    // The generator is stopped at midnight: what becomes of a message is said from there.
    fn new(body: Body<'a>, device_id: u8, own: u8) -> Run<'a> {
        let midnight = MtcTime {
            hours: 0,
            minutes: 0,
            seconds: 0,
            frames: 0,
            rate: TimeCodeType::Fps25,
        };
        Run {
            body,
            device_id,
            own,
            generator: MtcGenerator::new(midnight, Direction::Forward).set_running(false),
            moved: Moved::Not,
            good: true,
            writing: Writing::of_commands(body, device_id),
        }
    }

    // What the transport answered to a command.
    fn answered(&mut self, command: MmcCommand, reply: Result<Reply, SysexError>) {
        let rt = self.body.rt;
        match reply {
            Ok(Reply::Done) => {
                let effect = Effect::of(command);
                effect.say(rt, self.generator);
                self.moved = self.moved.max(effect.moved());
            }
            Ok(Reply::NotMine) => say!(rt; "Not mine.\n"),
            Err(error) => {
                say!(rt; "{}. The transport is unchanged.\n", Refusal(error));
                self.good = false;
            }
        }
    }

    // The command at a place, with the transport's answer to it; the fields of a Write get lines of their own.
    fn take(&mut self, place: usize, command: MmcCommand, reply: Result<Reply, SysexError>) {
        let body = self.body;
        let words = InWords {
            command,
            body: body.bytes,
        };
        body.say_place(place);
        say!(body.rt; "{words}. ");
        self.answered(command, reply);
        if let MmcCommand::Write(data) = command {
            self.good &= read_write(body.of_write(data));
        }
        self.writing.put(command, place);
    }

    // The string is cut short: what was read before it has acted.
    fn say_cut(&self, place: usize, error: SysexError) {
        let end = match place {
            0 => "Nothing is done.",
            _ => "What stands before it is done.",
        };
        self.body.say_cut(place, error);
        say!(self.body.rt; "  {end}\n");
    }

    // All commands. True where the string is split to its end.
    // Each command takes a byte at least, so no string uses up the turns; a `loop` would only add a proof of that.
    fn read(&mut self) -> bool {
        let mut place = 0;
        for _ in 0..u64::MAX {
            let turn = obey_next(
                self.generator,
                self.device_id,
                self.own,
                self.body.bytes,
                place,
            );
            match turn.answer {
                Err(SysexError::End) => return true,
                Err(error) => {
                    self.say_cut(place, error);
                    return false;
                }
                Ok(TurnReply { command, reply }) => {
                    self.generator = turn.generator;
                    self.take(place, command, reply);
                }
            }
            place = turn.place;
        }
        false
    }

    // The generator as the last command left it.
    fn say_end(&self) {
        let rt = self.body.rt;
        let is_located = match self.moved {
            Moved::Not => return,
            Moved::Run => false,
            Moved::Located => true,
        };
        let (state, link) = if self.generator.running {
            ("running forward", "from")
        } else {
            ("stopped", "at")
        };
        say!(rt; "  In the end: {state}");
        if is_located {
            say!(rt; " {link} {}", Time(self.generator.time()));
        }
        say!(rt; ".\n");
        if is_located && self.generator.running {
            say_frames(rt, self.generator);
        }
    }
}

// A message of commands. True where nothing is refused.
pub(crate) fn read_commands(body: Body<'_>, device_id: u8, own: u8) -> bool {
    let mut run = Run::new(body, device_id, own);
    let whole = run.read();
    run.say_end();
    whole && run.writing.close_message() && run.good
}
