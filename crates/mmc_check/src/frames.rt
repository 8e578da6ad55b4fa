// The first 24 quarter frames of a generator, and what a fresh reader reports of them.
use crate::refusals::Refusal;
use crate::say::say;
use crate::times::Label;
use mtc::{MtcGenerator, MtcReader, MtcSequence};

fn say_report(rt: &impl Print, report: MtcSequence) {
    let jump = if report.discontinuity { ", a jump" } else { "" };
    let raw = Label(report.raw);
    let current = Label(report.current);
    say!(rt; "  reads {raw}, the time is {current}{jump}\n");
}

// A data byte goes into the reader, which may report.
fn receive(rt: &impl Print, reader: &mut MtcReader, data: u8) {
    say!(rt; " {data:02X}");
    match reader.receive(data) {
        Err(error) => say!(rt; "  {}\n", Refusal(error)),
        Ok(event) => {
            if let Some(report) = event.sequence {
                say_report(rt, report);
            }
        }
    }
}

// One data byte goes out and into the reader.
fn send(rt: &impl Print, generator: &mut MtcGenerator, reader: &mut MtcReader) {
    let sent = generator.next_byte();
    *generator = sent.generator;
    match sent.byte {
        Err(error) => say!(rt; "{}", Refusal(error)),
        Ok(data) => receive(rt, reader, data),
    }
}

// Eight pieces to a line.
pub(crate) fn say_frames(rt: &impl Print, start: MtcGenerator) {
    let mut generator = start;
    let mut reader = MtcReader::new();
    say!(rt; "  The first 24 quarter frames, and what a fresh reader makes of them:\n");
    for _ in 0..3 {
        say!(rt; "   ");
        for _ in 0..8 {
            send(rt, &mut generator, &mut reader);
        }
    }
}
