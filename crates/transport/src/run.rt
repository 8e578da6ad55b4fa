// A message's data, read from the front to its end, each command applied as it is read.
ghost use Rattle.universal.specs.Refusals.{answer_of};
ghost use Rattle.std.specs.Prelude.{◌≡◌, ◌≤◌};
ghost use Rattle.transport.specs.Demand3.{obey};
ghost use Rattle.transport.specs.Obey.{turn_of, obey_next, one_refused, obeyed_of, summary};

use crate::transport::{Reply, apply};
use mmc::{MmcCommand, next_command};
use mtc::MtcGenerator;
use universal::SysexError;

// A command that was read, and the transport's answer to it.
#[derive(Clone, Copy)]
pub struct TurnReply {
    pub command: MmcCommand,
    pub reply: Result<Reply, SysexError>,
}

// What one read gives, a command with its answer or the refusal that ends the reading, with the generator that came back and the place
// to read on from.
#[derive(Clone, Copy)]
pub struct Turn {
    pub generator: MtcGenerator,
    pub answer: Result<TurnReply, SysexError>,
    pub place: usize,
}

// Reads the command at a place and applies it.
#[tactic(auto, unfolding(crate::specs::Obey::obey_next))]
pub fn obey_next(generator: MtcGenerator, device_id: u8, own: u8, body: &[u8], place: usize) -> Turn
    ensures { turn_of result ≡ obey_next body.now device_id own place generator }
{
    let next = next_command(body, place);
    match next.answer {
        Ok(command) => {
            let applied = apply(generator, device_id, own, command);
            Turn {
                generator: applied.generator,
                answer: Ok(TurnReply {
                    command,
                    reply: applied.answer,
                }),
                place: next.place,
            }
        }
        Err(e) => Turn {
            generator,
            answer: Err(e),
            place: next.place,
        },
    }
}

// What became of a message's data: the generator that came back last, how many commands were read, how many of them refused, and
// the refusal that ended the reading.
#[derive(Clone, Copy)]
pub struct Obeyed {
    pub generator: MtcGenerator,
    pub commands: usize,
    pub refused: usize,
    pub stop: SysexError,
}

// 1 for a refusal.
#[tactic(auto, unfolding(crate::specs::Obey::one_refused))]
fn one_refused(answer: Result<Reply, SysexError>) -> usize
    ensures { (result ≡ one_refused (answer_of answer)) × (result ≤ 1) }
{
    usize::from(answer.is_err())
}

// Reads and applies every command of a message's data, until a read is refused.
pub fn obey(start: MtcGenerator, device_id: u8, own: u8, body: &[u8]) -> Obeyed
    ensures { obeyed_of result ≡ summary (obey body.now device_id own start) }
{
    let mut generator = start;
    let mut place = 0;
    let mut commands = 0;
    let mut refused = 0;
    loop {
        let turn = obey_next(generator, device_id, own, body, place);
        let told = match turn.answer {
            Ok(told) => told,
            Err(stop) => {
                return Obeyed {
                    generator,
                    commands,
                    refused,
                    stop,
                };
            }
        };
        generator = turn.generator;
        place = turn.place;
        commands += 1;
        refused += one_refused(told.reply);
    }
}
