// A list of bytes given to a reader.
ghost use Rattle.std.specs.Prelude.{◌≡◌, []};
ghost use Rattle.mtc.specs.QuarterFrame.{heard};
ghost use Rattle.fast_mtc.specs.Reader.{reader_in};
ghost use Rattle.fimbrast.specs.Feed.{fed, flat_fed};

use fimbrast::feed::FlatFed;

// `MtcReader::receive` for each of the bytes, which must not overlap the reader. A refused byte is counted, and the others are received.
#[unsafe(no_mangle)]
pub extern "C" fn fimbrast_feed(reader: &mut [u32; 15], bytes: &[u8]) -> FlatFed
    ensures { (result ≡ flat_fed (fed (reader_in reader.old) bytes.now)) × (reader_in reader.new ≡ (fed (reader_in reader.old) bytes.now).reader) × (heard bytes.now ≡ [] → reader.new ≡ reader.old) }
{
    fimbrast::feed::fimbrast_feed(reader, bytes)
}
