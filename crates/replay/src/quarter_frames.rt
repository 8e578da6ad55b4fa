// Quarter frames, the generator and the reader.
use crate::case::{Answer, Held, Input, Taken};
use fast_mtc::generator::{FlatByte, FlatGenerator};
use fast_mtc::report::FlatMaybeSequence;
use fast_mtc::time::{FlatFrame, FlatReadFrame, FlatTime};
use fast_mtc::words::{FlatMaybeTime, FlatReader, FlatReaderFields, label_word, rate_mark};
use fimbrast::generator::{
    fimbrast_generator_forward, fimbrast_generator_reverse, fimbrast_next_byte,
    fimbrast_set_forward, fimbrast_set_reverse,
};
use fimbrast::reader::{
    fimbrast_is_locked, fimbrast_is_running, fimbrast_reader_direction,
    fimbrast_reader_full_message, fimbrast_reader_parts, fimbrast_reader_time, fimbrast_receive,
    fimbrast_report_parts,
};
use mtc::MtcTime;

impl Taken for FlatFrame {
    fn taken(input: &mut Input<'_>) -> Self {
        FlatFrame {
            piece: input.take(),
            value: input.take(),
        }
    }
}

impl Held for FlatFrame {
    fn held(self, answer: Answer<'_>) -> Option<Answer<'_>> {
        answer.is(self.piece)?.is(self.value)
    }
}

// The published Rust reads every byte.
impl Held for FlatReadFrame {
    fn held(self, answer: Answer<'_>) -> Option<Answer<'_>> {
        if self.refusal != 0 {
            return None;
        }
        answer.is(self.frame)
    }
}

impl Taken for FlatGenerator {
    fn taken(input: &mut Input<'_>) -> Self {
        FlatGenerator {
            time: input.take(),
            direction: input.take(),
            last: input.take(),
            running: input.take(),
        }
    }
}

impl Held for FlatGenerator {
    fn held(self, answer: Answer<'_>) -> Option<Answer<'_>> {
        answer
            .is(self.time)?
            .is(self.direction)?
            .is(self.last)?
            .is(self.running)
    }
}

impl Held for FlatByte {
    fn held(self, answer: Answer<'_>) -> Option<Answer<'_>> {
        answer.is(self.refusal)?.is(self.byte)
    }
}

pub(crate) fn next_byte(mut generator: [u8; 8], answer: Answer<'_>) -> Option<Answer<'_>> {
    let next = fimbrast_next_byte(&mut generator);
    answer.is(generator)?.is(next)
}

// A stored direction is 0 for forward, 1 for reverse.
pub(crate) fn started(time: FlatTime, direction: u8) -> FlatGenerator {
    match direction {
        0 => fimbrast_generator_forward(time),
        _ => fimbrast_generator_reverse(time),
    }
}

pub(crate) fn turned(generator: FlatGenerator, direction: u8) -> FlatGenerator {
    match direction {
        0 => fimbrast_set_forward(generator),
        _ => fimbrast_set_reverse(generator),
    }
}

impl Taken for FlatMaybeTime {
    fn taken(input: &mut Input<'_>) -> Self {
        FlatMaybeTime {
            present: input.take(),
            time: input.take(),
        }
    }
}

impl Held for FlatMaybeTime {
    fn held(self, answer: Answer<'_>) -> Option<Answer<'_>> {
        answer.is(self.present)?.is(self.time)
    }
}

impl Taken for FlatReaderFields {
    fn taken(input: &mut Input<'_>) -> Self {
        FlatReaderFields {
            nibbles: input.take(),
            count: input.take(),
            first: input.take(),
            last: input.take(),
            direction: input.take(),
            locked: input.take(),
            running: input.take(),
            previous: input.take(),
            time: input.take(),
        }
    }
}

impl Held for FlatReaderFields {
    fn held(self, answer: Answer<'_>) -> Option<Answer<'_>> {
        answer
            .is(self.nibbles)?
            .is(self.count)?
            .is(self.first)?
            .is(self.last)?
            .is(self.direction)?
            .is(self.locked)?
            .is(self.running)?
            .is(self.previous)?
            .is(self.time)
    }
}

// The mark of a label that may be there.
fn mark_of(maybe: FlatMaybeTime) -> u32 {
    if maybe.present {
        rate_mark(MtcTime::from(maybe.time).rate)
    } else {
        0
    }
}

fn word_of(maybe: FlatMaybeTime) -> u32 {
    label_word(MtcTime::from(maybe.time))
}

// The order of a reader's words, by its direction, last piece and count.
fn order_of(direction: u8, last: u8, count: u8) -> u32 {
    let piece = u32::from(last % 8);
    let next = (piece + 1) % 8;
    let before = (piece + 7) % 8;
    match (direction, count) {
        (0, _) if last > 7 => 42,
        (1, _) if last > 7 => 43,
        _ if last > 7 => 44,
        (0, 0) => 16 + next,
        (0, _) => next,
        (1, 0) => 24 + before,
        (1, _) => 8 + before,
        (_, 0) => 32 + piece,
        _ if piece == 0 => 40,
        _ => 41,
    }
}

// A reader in words, as the calls take it.
impl Taken for FlatReader {
    fn taken(input: &mut Input<'_>) -> Self {
        let fields: FlatReaderFields = input.take();
        let [a, b, c, d, e, f, g, h] = fields.nibbles.map(u32::from);
        FlatReader {
            words: [
                a,
                b,
                c,
                d,
                e,
                f,
                g,
                h,
                order_of(fields.direction, fields.last, fields.count),
                u32::from(fields.first),
                u32::from(fields.locked),
                mark_of(fields.previous),
                word_of(fields.previous),
                mark_of(fields.time),
                word_of(fields.time),
            ],
        }
    }
}

impl Held for FlatReader {
    fn held(self, answer: Answer<'_>) -> Option<Answer<'_>> {
        answer.is(fimbrast_reader_parts(self))
    }
}

impl Held for FlatMaybeSequence {
    fn held(self, answer: Answer<'_>) -> Option<Answer<'_>> {
        answer
            .is(self.present)?
            .is(self.sequence.raw)?
            .is(self.sequence.current)?
            .is(self.sequence.direction)?
            .is(self.sequence.discontinuity)
    }
}

// The event is the piece, the boundary in the bit above its byte, and the report above that. The stored bytes are all below 80H, so that
// none is refused.
pub(crate) fn receive(mut reader: FlatReader, byte: u8, answer: Answer<'_>) -> Option<Answer<'_>> {
    let event = fimbrast_receive(&mut reader.words, byte);
    let piece = (event & 0xFF) as u8;
    let boundary = event & 0x100 != 0;
    answer
        .is(reader)?
        .is(piece)?
        .is(boundary)?
        .is(fimbrast_report_parts(reader, event >> 9))
}

pub(crate) fn full_message(
    mut reader: FlatReader,
    time: FlatTime,
    answer: Answer<'_>,
) -> Option<Answer<'_>> {
    fimbrast_reader_full_message(&mut reader.words, time);
    answer.is(reader)
}

pub(crate) fn state(reader: FlatReader, answer: Answer<'_>) -> Option<Answer<'_>> {
    answer
        .is(fimbrast_is_locked(reader))?
        .is(fimbrast_is_running(reader))?
        .is(fimbrast_reader_direction(reader))?
        .is(fimbrast_reader_time(reader))
}
