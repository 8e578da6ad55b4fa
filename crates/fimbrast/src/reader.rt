// The quarter frame reader.
ghost use Rattle.std.specs.Prelude.{◌≡◌, ◌≤◌};
ghost use Rattle.mtc.specs.Reader.{fresh, after_byte, event_of, after_full_message};
ghost use Rattle.fast_mtc.specs.Time.{time_of};
ghost use Rattle.fast_mtc.specs.Reader.{flat_way, flat_maybe_time, reader_in, reader_fields, flat_byte_answer, report_in, flat_maybe_sequence};

use fast_mtc::receive::receive;
use fast_mtc::report::{FlatMaybeSequence, report_in};
use fast_mtc::time::FlatTime;
use fast_mtc::words::{
    FlatMaybeTime, FlatReader, FlatReaderFields, direction, flat_way, fresh, full_message,
    is_locked, is_running, time,
};
use mtc::{MtcReader, MtcTime};

// A report as one number; 0 is no report. From the lowest bit: 1, the direction, the discontinuity. Its labels stay in the reader;
// `fimbrast_report_parts` takes both together.
pub type FlatReport = u64;

// What a byte gives, as one number, which comes back in a register: the piece in the lowest byte, the boundary in bit 8, and from bit 9
// on the report of the sequence that it ends. The highest byte is the refusal, 0 for none; a refused byte gives nothing else.
pub type FlatEvent = u64;

// `MtcReader::new`: not locked, and stopped.
pub fn fimbrast_reader_new() -> FlatReader
    ensures { reader_in result.words ≡ fresh }
{
    FlatReader { words: fresh() }
}

// `MtcReader::receive`: takes one byte. One of 80H or more is refused by 13, in the number's highest byte, and leaves the reader as it was.
pub fn fimbrast_receive(reader: &mut [u32; 15], byte: u8) -> FlatEvent
    ensures { (result ≡ flat_byte_answer (event_of (reader_in reader.old) byte)) × (reader_in reader.new ≡ after_byte (reader_in reader.old) byte) × (0x80 ≤ byte → reader.new ≡ reader.old) }
{
    receive(reader, byte)
}

// `MtcReader::full_message`, with the message's time: the reader is then stopped at it.
pub fn fimbrast_reader_full_message(reader: &mut [u32; 15], time: FlatTime)
    ensures { reader_in reader.new ≡ after_full_message (reader_in reader.old) (time_of time) }
{
    full_message(reader, MtcTime::from(time));
}

// `MtcReader::is_locked`: true after a full sequence, until a broken order, a turn or a full message.
pub fn fimbrast_is_locked(reader: FlatReader) -> bool
    ensures { result ≡ (reader_in reader.words).locked }
{
    let words = reader.words;
    is_locked(words)
}

// `MtcReader::is_running`: true after a data byte, false after a full message.
pub fn fimbrast_is_running(reader: FlatReader) -> bool
    ensures { result ≡ (reader_in reader.words).running }
{
    let words = reader.words;
    is_running(words)
}

// `MtcReader::direction`: 0 forward, 1 reverse, 255 none.
pub fn fimbrast_reader_direction(reader: FlatReader) -> u8
    ensures { result ≡ flat_way (reader_in reader.words).direction }
{
    let words = reader.words;
    flat_way(direction(words))
}

// `MtcReader::time`: the current time of the last full sequence, or the time of a full message after it.
pub fn fimbrast_reader_time(reader: FlatReader) -> FlatMaybeTime
    ensures { result ≡ flat_maybe_time (reader_in reader.words).time }
{
    let words = reader.words;
    FlatMaybeTime::from(time(words))
}

// The reader field by field.
pub fn fimbrast_reader_parts(reader: FlatReader) -> FlatReaderFields
    ensures { result ≡ reader_fields (reader_in reader.words) }
{
    FlatReaderFields::from(MtcReader::from(reader))
}

// The report of a number with the labels of the reader that it left, before the reader gets anything more. It is none where the
// number's lowest bit is 0.
pub fn fimbrast_report_parts(reader: FlatReader, report: FlatReport) -> FlatMaybeSequence
    ensures { result ≡ flat_maybe_sequence (report_in (reader_in reader.words) report) }
{
    let words = reader.words;
    report_in(words, report)
}
