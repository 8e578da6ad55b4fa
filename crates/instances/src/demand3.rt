// Demand 3: readers with a past, times at the edges, strings with other commands before the Locate, both directions.
use crate::stream::{Call, Listener, edge, follows, run_from};
use crate::strings::{SOURCE, locate, locate_back, obeyed, other, write};
use crate::tally::Tally;
use crate::times::label;
use mmc::MmcCommand;
use mtc::{Direction, MtcGenerator, MtcTime, TimeCodeType};

// A call of an alphabet of four: piece 0, piece 7, a status byte, a full message.
fn letter(number: u64) -> Call {
    match number {
        0 => Call::Byte(0x00),
        1 => Call::Byte(0x76),
        2 => Call::Byte(0xF6),
        _ => Call::FullMessage(label(10, 20, 30, 12, TimeCodeType::Fps25)),
    }
}

// The reader after the list of this number: the letters are its digits.
fn short_list(number: u64) -> Listener {
    let mut listener = Listener::new();
    let mut rest = number;
    while rest > 0 {
        let less = rest - 1;
        listener.take(letter(less % 4));
        rest = less / 4;
    }
    listener
}

// The next of a row of numbers.
fn next(seed: u64) -> u64 {
    let s = seed ^ (seed << 13);
    let s = s ^ (s >> 7);
    s ^ (s << 17)
}

// A data byte of a piece and a value.
fn data_byte(piece: u64, value: u64) -> u8 {
    (piece % 8 * 16 + value % 16) as u8
}

// A call chosen by a number: mostly the piece that goes on in one direction, else any byte or a full message.
fn any_call(seed: u64, place: u64, direction: Direction) -> Call {
    match (seed >> 20) & 15 {
        0 => Call::FullMessage(edge(seed >> 24)),
        1 => Call::Byte(((seed >> 24) & 0xFF) as u8),
        _ => {
            let piece = match direction {
                Direction::Forward => place % 8,
                Direction::Reverse => 7 - place % 8,
            };
            Call::Byte(data_byte(piece, seed >> 8))
        }
    }
}

// The reader after a long list, which its number chooses: its calls come from a row of numbers, the pieces in one direction.
fn long_list(number: u64) -> Listener {
    let mut seed = next(number.wrapping_add(88172645463325252));
    let direction = if seed >> 63 > 0 {
        Direction::Forward
    } else {
        Direction::Reverse
    };
    let mut listener = Listener::new();
    for place in 0..7 + seed % 32 {
        seed = next(seed);
        listener.take(any_call(seed, place, direction));
    }
    listener
}

// A generator with some record.
fn some_generator(number: u64) -> MtcGenerator {
    MtcGenerator::new(edge(number >> 2), Direction::Reverse)
        .next_byte()
        .generator
        .set_running(number & 1 == 0)
}

// Forward, by a string of two commands chosen by the number, a Locate that leads to T, and Play.
fn located(listener: &Listener, number: u64, command: MmcCommand, time: MtcTime) -> bool {
    let mut out = [0xEEu8; 64];
    let device_id = if number & 1 == 0 { 0x7F } else { 5 };
    let commands = [
        other(number, time),
        other(number >> 3, time),
        command,
        MmcCommand::Play,
    ];
    let string = match write(&mut out, device_id, &SOURCE, &commands) {
        Ok(length) => out.get(..length),
        Err(_) => None,
    };
    let before = some_generator(number);
    let generator = string.map_or(before, |string| obeyed(string, 5, before));
    follows(listener, generator, time, Direction::Forward)
}

// By a Locate to T.
fn forward(listener: &Listener, number: u64, time: MtcTime) -> bool {
    located(listener, number, locate(time), time)
}

// By a Locate to minus this time: T is as many labels before midnight (document 02, #103).
#[tactic(auto, using(labels::proofs::Laws::count_below, labels::proofs::Laws::day_small))]
fn back(listener: &Listener, number: u64, time: MtcTime) -> bool {
    let count = time.to_frame_count() as i32;
    let there = label(0, 0, 0, 0, time.rate).add_frames(-count);
    located(listener, number, locate_back(time), there)
}

// In reverse, located at T and set running.
fn reverse(listener: &Listener, number: u64, time: MtcTime) -> bool {
    let generator = run_from(some_generator(number), time, Direction::Reverse);
    follows(listener, generator, time, Direction::Reverse)
}

// Both directions after each of so many lists.
fn lists<F: Fn(u64) -> Listener>(count: u64, list: F) -> Tally
    requires { F.IsAlwaysCallable list }
{
    let mut tally = Tally::default();
    for number in 0..count {
        let listener = list(number);
        tally.add(forward(&listener, number, edge(number)));
        tally.add(reverse(&listener, number, edge(number)));
    }
    tally
}

// Readers reached by every list of up to four calls: 1 + 4 + 16 + 64 + 256 lists.
pub(crate) fn short_lists() -> Tally {
    lists(341, short_list)
}

// Readers reached by longer lists.
pub(crate) fn long_lists() -> Tally {
    lists(50, long_list)
}

// Every edge, with four choices of commands before the Locate.
pub(crate) fn edges() -> Tally {
    let fresh = Listener::new();
    Tally::of((0..128).map(|number| forward(&fresh, number, edge(number >> 2))))
}

// Every edge, as a negative target.
pub(crate) fn negative() -> Tally {
    let fresh = Listener::new();
    Tally::of((0..32).map(|number| back(&fresh, number, edge(number))))
}
