// Time code fields of machine control.
ghost use Rattle.std.specs.Prelude.{◌≡◌, get_or};
ghost use Rattle.codes.specs.TimeCode.{read_status, status_byte, read_standard, read_short, standard_bytes, short_bytes, short_form, with_short, subframes_form, status_form, short_name_of, full_name};
ghost use Rattle.fast_mtc.specs.Refusal.{refusal_in};
ghost use Rattle.fast_mmc.specs.Code.{status_of, flat_status, code_of, flat_code, short_of, flat_short, flat_name, standard_left, short_left};

use fast_mmc::code::{
    FiveBytes, FlatCode, FlatCodeBytes, FlatShort, FlatShortBytes, FlatStatus, TwoBytes, flat_name,
};
use mmc::{ShortTimeCode, StandardTimeCode, TimeCodeStatus};

// `short_name`: a field's name plus 20H, or 0 for one that has no short name.
pub fn fimbrast_short_name(field: u8) -> u8
    ensures { result ≡ flat_name (short_name_of field) }
{
    flat_name(mmc::short_name(field))
}

// `full_name`: the field of a short name, or 0 for what is none.
pub fn fimbrast_full_name(short_name: u8) -> u8
    ensures { result ≡ flat_name (full_name short_name) }
{
    flat_name(mmc::full_name(short_name))
}

// `TimeCodeStatus::from_byte`: the flags of a status byte.
pub fn fimbrast_status_read(byte: u8) -> FlatStatus
    ensures { result ≡ flat_status (read_status byte) }
{
    FlatStatus::from(TimeCodeStatus::from_byte(byte))
}

// `TimeCodeStatus::to_byte`: the status byte of flags.
pub fn fimbrast_status_byte(status: FlatStatus) -> u8
    ensures { result ≡ status_byte (status_of status) }
{
    TimeCodeStatus::from(status).to_byte()
}

// `StandardTimeCode::from_bytes`: each count is masked to its width.
pub fn fimbrast_code_read(bytes: FiveBytes) -> FlatCode
    ensures { result ≡ flat_code (read_standard (get_or bytes.bytes 0 0) (get_or bytes.bytes 1 0) (get_or bytes.bytes 2 0) (get_or bytes.bytes 3 0) (get_or bytes.bytes 4 0)) }
{
    let five = bytes.bytes;
    FlatCode::from(StandardTimeCode::from_bytes(five))
}

// `StandardTimeCode::to_bytes`: refuses subframes above 99 and a time that is not valid.
pub fn fimbrast_code_write(code: FlatCode) -> FlatCodeBytes
    ensures { (result.refusal ≡ refusal_in (standard_bytes (code_of code))) × (result.code.bytes ≡ standard_left (code_of code)) }
{
    FlatCodeBytes::from(StandardTimeCode::from(code).to_bytes())
}

// `ShortTimeCode::from_bytes`: the frames are masked to 5 bits.
pub fn fimbrast_short_code_read(bytes: TwoBytes) -> FlatShort
    ensures { result ≡ flat_short (read_short (get_or bytes.bytes 0 0) (get_or bytes.bytes 1 0)) }
{
    let two = bytes.bytes;
    FlatShort::from(ShortTimeCode::from_bytes(two))
}

// `ShortTimeCode::to_bytes`: refuses frames above 29 and subframes above 99.
pub fn fimbrast_short_code_write(code: FlatShort) -> FlatShortBytes
    ensures { (result.refusal ≡ refusal_in (short_bytes (short_of code))) × (result.code.bytes ≡ short_left (short_of code)) }
{
    FlatShortBytes::from(ShortTimeCode::from(code).to_bytes())
}

// `StandardTimeCode::short`: its frames, sign and last byte.
pub fn fimbrast_code_short(code: FlatCode) -> FlatShort
    ensures { result ≡ flat_short (short_form (code_of code)) }
{
    FlatShort::from(StandardTimeCode::from(code).short())
}

// `StandardTimeCode::with_short`: the code with the frames, sign and last byte of a short one.
pub fn fimbrast_code_with_short(code: FlatCode, short_code: FlatShort) -> FlatCode
    ensures { result ≡ flat_code (with_short (code_of code) (short_of short_code)) }
{
    FlatCode::from(StandardTimeCode::from(code).with_short(ShortTimeCode::from(short_code)))
}

// `StandardTimeCode::to_subframes_form`: a status becomes subframes 00.
pub fn fimbrast_to_subframes_form(code: FlatCode) -> FlatCode
    ensures { result ≡ flat_code (subframes_form (code_of code)) }
{
    FlatCode::from(StandardTimeCode::from(code).to_subframes_form())
}

// `StandardTimeCode::to_status_form`: subframes become a status with this video field, marked as no time code.
pub fn fimbrast_to_status_form(code: FlatCode, video_field1: bool) -> FlatCode
    ensures { result ≡ flat_code (status_form (code_of code) video_field1) }
{
    FlatCode::from(StandardTimeCode::from(code).to_status_form(video_field1))
}
