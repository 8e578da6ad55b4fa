// The transport: one command of a message, applied to the generator of the device that the message is for. Commands take effect
// one by one, and a refused one leaves the generator as it was.
ghost use Rattle.std.specs.Prelude.{◌≡◌};
ghost use Rattle.universal.specs.Refusals.{refusal_of, refused};
ghost use Rattle.mtc.specs.Generator.{with_running};
ghost use Rattle.transport.specs.Transport.{before_midnight, resolved, applied_of, finished, playing, outcome_with, acted, applied};

use mmc::{MmcCommand, StandardTimeCode};
use mtc::{Direction, MtcGenerator, MtcTime};
use universal::{SysexError, addressed};

// What became of a command that was not refused: done, or it is for another device.
#[derive(Clone, Copy, PartialEq, Eq)]
pub enum Reply {
    Done,
    NotMine,
}

// The answer of `apply`, with the generator that comes back.
#[derive(Clone, Copy)]
pub struct Applied {
    pub generator: MtcGenerator,
    pub answer: Result<Reply, SysexError>,
}

// A label's count taken backwards from midnight (document 02, #103); minus zero is zero. Few targets come here; as a part of `apply` it would
// make every command save registers.
#[inline(never)]
#[tactic(auto, using(labels::proofs::Laws::count_below))]
fn before_midnight(time: MtcTime) -> MtcTime
    ensures { result ≡ before_midnight time }
{
    let rate = time.rate;
    MtcTime::from_frame_count(rate.day() - time.to_frame_count(), rate)
}

// The label that a Locate target resolves to: a skipped one is first moved by `next_valid`. A blank target, and one still invalid, is
// none; then a negative one goes before midnight. Subframes are unread.
#[tactic(auto, unfolding(crate::specs::Transport::resolved))]
fn resolve(code: StandardTimeCode) -> Option<MtcTime>
    ensures { result ≡ resolved code }
{
    if code.blank {
        return None;
    }
    let label = code.time;
    let moved = label.next_valid();
    if !moved.is_valid() {
        return None;
    }
    if code.negative {
        return Some(before_midnight(moved));
    }
    Some(moved)
}

// The command was refused, and the generator stays.
fn unchanged(generator: MtcGenerator, error: SysexError) -> Applied
    ensures { applied_of result ≡ record { generator = generator; answer = refused (refusal_of error) } }
{
    Applied {
        generator,
        answer: Err(error),
    }
}

// `set_running` in place, so that the record stays whole in registers.
fn run(mut generator: MtcGenerator, running: bool) -> MtcGenerator
    ensures { result ≡ with_running generator running }
{
    generator.running = running;
    generator
}

// Located at the target and stopped, or none.
#[tactic(auto, unfolding(crate::specs::Transport::acted))]
fn locate(generator: MtcGenerator, code: StandardTimeCode) -> Option<MtcGenerator>
    ensures { outcome_with generator result ≡ acted generator (MmcCommand.LocateTarget code) }
{
    match resolve(code) {
        Some(time) => {
            let there = generator.locate(time);
            Some(run(there, false))
        }
        None => None,
    }
}

// Running forward.
fn play(generator: MtcGenerator) -> MtcGenerator
    ensures { result ≡ playing generator }
{
    run(generator.set_direction(Direction::Forward), true)
}

// The generator after a command; none after a Locate without a label to go to.
#[tactic(auto, unfolding(crate::specs::Transport::acted))]
fn generator_after(generator: MtcGenerator, command: MmcCommand) -> Option<MtcGenerator>
    ensures { outcome_with generator result ≡ acted generator command }
{
    match command {
        MmcCommand::Stop | MmcCommand::Pause => Some(run(generator, false)),
        MmcCommand::Play | MmcCommand::DeferredPlay => Some(play(generator)),
        MmcCommand::LocateTarget(code) => locate(generator, code),
        _ => Some(generator),
    }
}

// What a command does to the generator. One record is made for all commands: made anew in each case, it is put together byte by byte.
fn act(generator: MtcGenerator, command: MmcCommand) -> Applied
    ensures { applied_of result ≡ acted generator command }
{
    let left = generator_after(generator, command);
    Applied {
        generator: left.unwrap_or(generator),
        answer: match left {
            Some(_) => Ok(Reply::Done),
            None => Err(SysexError::Target),
        },
    }
}

// Applies one command of a message for `device_id` to the generator of the device `own`: 5 for a device above 127, "not mine" for
// another device's message, else what the command does. Only a command that is done may change the generator. The two devices stay two
// numbers here and in run.rt: each is named at its call, and a pair of them would only be taken apart again.
#[tactic(auto, unfolding(crate::specs::Transport::applied))]
pub fn apply(generator: MtcGenerator, device_id: u8, own: u8, command: MmcCommand) -> Applied
    ensures { applied_of result ≡ applied generator device_id own command }
{
    if device_id > 127 || own > 127 {
        return unchanged(generator, SysexError::Device);
    }
    if !addressed(device_id, own) {
        return Applied {
            generator,
            answer: Ok(Reply::NotMine),
        };
    }
    act(generator, command)
}
