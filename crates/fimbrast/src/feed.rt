// A list of bytes given to a reader.
ghost use Rattle.std.specs.Prelude.{◌≡◌, ◌<◌, []};
ghost use Rattle.mtc.specs.QuarterFrame.{heard};
ghost use Rattle.fast_mtc.specs.Reader.{reader_in};
ghost use Rattle.fimbrast.specs.Feed.{flat_counted, fed, flat_fed};

use crate::reader::FlatReport;
use fast_mtc::receive::receive;
use fast_mtc::report::REFUSED;

// Of a list of bytes: how many sequences it reported, how many of those with a discontinuity, the last report, whose labels stand in the
// reader, and how many bytes were refused.
#[repr(C)]
#[derive(Clone, Copy)]
pub struct FlatFed {
    pub reports: usize,
    pub discontinuities: usize,
    pub last: FlatReport,
    pub refused: usize,
}

// A byte was answered this. Most bytes report nothing, so that is asked first; a refusal is above every report.
#[tactic(auto, unfolding(crate::specs::Feed::flat_counted))]
fn counted(f: FlatFed, event: u64) -> FlatFed
    requires { (f.reports < 18446744073709551615) × (f.discontinuities < 18446744073709551615) × (f.refused < 18446744073709551615) }
    ensures { result ≡ flat_counted f event }
{
    let report = event / 512;
    if report == 0 {
        return f;
    }
    if event >= REFUSED {
        return FlatFed {
            refused: f.refused + 1,
            ..f
        };
    }
    FlatFed {
        reports: f.reports + 1,
        discontinuities: f.discontinuities + (report / 4 % 2) as usize,
        last: report,
        ..f
    }
}

// `MtcReader::receive` for each of the bytes, which must not overlap the reader. A refused byte is counted, and the others are received.
pub fn fimbrast_feed(reader: &mut [u32; 15], bytes: &[u8]) -> FlatFed
    ensures { (result ≡ flat_fed (fed (reader_in reader.old) bytes.now)) × (reader_in reader.new ≡ (fed (reader_in reader.old) bytes.now).reader) × (heard bytes.now ≡ [] → reader.new ≡ reader.old) }
{
    let mut f = FlatFed {
        reports: 0,
        discontinuities: 0,
        last: 0,
        refused: 0,
    };
    for &byte in bytes {
        f = counted(f, receive(reader, byte));
    }
    f
}
