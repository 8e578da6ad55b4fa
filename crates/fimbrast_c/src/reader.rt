// The quarter frame reader.
ghost use Rattle.std.specs.Prelude.{◌≡◌, ◌≤◌};
ghost use Rattle.mtc.specs.Reader.{fresh, after_byte, event_of, after_full_message};
ghost use Rattle.fast_mtc.specs.Time.{time_of};
ghost use Rattle.fast_mtc.specs.Reader.{flat_way, flat_maybe_time, reader_in, reader_fields, flat_byte_answer, report_in, flat_maybe_sequence};

use fast_mtc::report::FlatMaybeSequence;
use fast_mtc::time::FlatTime;
use fast_mtc::words::{FlatMaybeTime, FlatReader, FlatReaderFields};
use fimbrast::reader::{FlatEvent, FlatReport};

// `MtcReader::new`: not locked, and stopped.
#[unsafe(no_mangle)]
pub extern "C" fn fimbrast_reader_new() -> FlatReader
    ensures { reader_in result.words ≡ fresh }
{
    fimbrast::reader::fimbrast_reader_new()
}

// `MtcReader::receive`: takes one byte. One of 80H or more is refused by 13, in the number's highest byte, and leaves the reader as it was.
#[unsafe(no_mangle)]
pub extern "C" fn fimbrast_receive(reader: &mut [u32; 15], byte: u8) -> FlatEvent
    ensures { (result ≡ flat_byte_answer (event_of (reader_in reader.old) byte)) × (reader_in reader.new ≡ after_byte (reader_in reader.old) byte) × (0x80 ≤ byte → reader.new ≡ reader.old) }
{
    fimbrast::reader::fimbrast_receive(reader, byte)
}

// `MtcReader::full_message`, with the message's time: the reader is then stopped at it.
#[unsafe(no_mangle)]
pub extern "C" fn fimbrast_reader_full_message(reader: &mut [u32; 15], time: FlatTime)
    ensures { reader_in reader.new ≡ after_full_message (reader_in reader.old) (time_of time) }
{
    fimbrast::reader::fimbrast_reader_full_message(reader, time);
}

// `MtcReader::is_locked`: true after a full sequence, until a broken order, a turn or a full message.
#[unsafe(no_mangle)]
pub extern "C" fn fimbrast_is_locked(reader: FlatReader) -> bool
    ensures { result ≡ (reader_in reader.words).locked }
{
    fimbrast::reader::fimbrast_is_locked(reader)
}

// `MtcReader::is_running`: true after a data byte, false after a full message.
#[unsafe(no_mangle)]
pub extern "C" fn fimbrast_is_running(reader: FlatReader) -> bool
    ensures { result ≡ (reader_in reader.words).running }
{
    fimbrast::reader::fimbrast_is_running(reader)
}

// `MtcReader::direction`: 0 forward, 1 reverse, 255 none.
#[unsafe(no_mangle)]
pub extern "C" fn fimbrast_reader_direction(reader: FlatReader) -> u8
    ensures { result ≡ flat_way (reader_in reader.words).direction }
{
    fimbrast::reader::fimbrast_reader_direction(reader)
}

// `MtcReader::time`: the current time of the last full sequence, or the time of a full message after it.
#[unsafe(no_mangle)]
pub extern "C" fn fimbrast_reader_time(reader: FlatReader) -> FlatMaybeTime
    ensures { result ≡ flat_maybe_time (reader_in reader.words).time }
{
    fimbrast::reader::fimbrast_reader_time(reader)
}

// The reader field by field.
#[unsafe(no_mangle)]
pub extern "C" fn fimbrast_reader_parts(reader: FlatReader) -> FlatReaderFields
    ensures { result ≡ reader_fields (reader_in reader.words) }
{
    fimbrast::reader::fimbrast_reader_parts(reader)
}

// The report of a number with the labels of the reader that it left, before the reader gets anything more. It is none where the
// number's lowest bit is 0.
#[unsafe(no_mangle)]
pub extern "C" fn fimbrast_report_parts(reader: FlatReader, report: FlatReport) -> FlatMaybeSequence
    ensures { result ≡ flat_maybe_sequence (report_in (reader_in reader.words) report) }
{
    fimbrast::reader::fimbrast_report_parts(reader, report)
}
