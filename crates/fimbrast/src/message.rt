// Universal messages, full messages, user bits, and machine control messages, by their split parts.
ghost use Rattle.std.specs.Prelude.{◌≡◌, length, None};
ghost use Rattle.universal.specs.Emission.{answer};
ghost use Rattle.universal.specs.Message.{is_addressed, has_sub_id2, header, message};
ghost use Rattle.universal.specs.Overlay.{overlay};
ghost use Rattle.mtc.specs.FullMessage.{full_message, full_message_from, full_message_written};
ghost use Rattle.mtc.specs.UserBits.{user_bits_from, user_bits_written, group_bytes};
ghost use Rattle.fast_mmc.specs.Numbers.{written_numbers};
ghost use Rattle.mmc.specs.Message.{message_from};
ghost use Rattle.fast_mtc.specs.Time.{time_of};
ghost use Rattle.fast_mmc.specs.Message.{universal_of, user_bits_of, flat_full_message, flat_user_bits, flat_mmc_message, mmc_kind};

use fast_mmc::WrittenNumbers;
use fast_mmc::message::{
    FlatFullMessage, FlatMmcMessage, FlatReadUserBits, FlatUniversal, FlatUserBits, FourBytes,
    mmc_kind,
};
use fast_mtc::time::FlatTime;
use mmc::MmcMessage;
use mtc::{FullMessage, MtcTime, UserBits};
use universal::Universal;

// `addressed`: a message for `device_id` is for the device `own`.
pub fn fimbrast_addressed(device_id: u8, own: u8) -> bool
    ensures { result ≡ is_addressed device_id own }
{
    universal::addressed(device_id, own)
}

// `has_sub_id2`: messages of this family carry a Sub-ID#2.
pub fn fimbrast_has_sub_id2(real_time: bool, sub_id1: u8) -> bool
    ensures { result ≡ has_sub_id2 real_time sub_id1 }
{
    universal::has_sub_id2(real_time, sub_id1)
}

// `Universal::write`: the whole message, F0H to F7H.
pub fn fimbrast_universal_write(
    header: FlatUniversal,
    data: &[u8],
    out: &mut [u8],
) -> WrittenNumbers
    ensures value { result ≡ written_numbers (answer (message (universal_of header) «data».now) (length out.old)) }
    ensures out_after { out.new ≡ overlay out.old 0 (message (universal_of header) «data».now).bytes }
{
    WrittenNumbers::from(Universal::from(header).write(data, out))
}

// `FullMessage::from_universal`: the full message of these parts.
pub fn fimbrast_full_message_read(header: FlatUniversal, data: &[u8]) -> FlatFullMessage
    ensures { result ≡ flat_full_message (full_message_from (universal_of header) «data».now) }
{
    FlatFullMessage::from(FullMessage::from_universal(Universal::from(header), data))
}

// `FullMessage::write`: the whole full message, F0H to F7H.
pub fn fimbrast_full_message_write(device_id: u8, time: FlatTime, out: &mut [u8]) -> WrittenNumbers
    ensures value { result ≡ written_numbers (answer (full_message_written (full_message device_id (time_of time))) (length out.old)) }
    ensures out_after { out.new ≡ overlay out.old 0 (full_message_written (full_message device_id (time_of time))).bytes }
{
    let message = FullMessage {
        device_id,
        time: MtcTime::from(time),
    };
    WrittenNumbers::from(message.write(out))
}

// `UserBits::from_universal`: the user bits of these parts.
pub fn fimbrast_user_bits_read(header: FlatUniversal, data: &[u8]) -> FlatReadUserBits
    ensures { result ≡ flat_user_bits (user_bits_from (universal_of header) «data».now) }
{
    FlatReadUserBits::from(UserBits::from_universal(Universal::from(header), data))
}

// `UserBits::write`: the whole user bits message, F0H to F7H.
pub fn fimbrast_user_bits_write(bits: FlatUserBits, out: &mut [u8]) -> WrittenNumbers
    ensures value { result ≡ written_numbers (answer (user_bits_written (user_bits_of bits)) (length out.old)) }
    ensures out_after { out.new ≡ overlay out.old 0 (user_bits_written (user_bits_of bits)).bytes }
{
    WrittenNumbers::from(UserBits::from(bits).write(out))
}

// `UserBits::to_bytes`: the groups as `hhhhgggg ffffeeee ddddcccc bbbbaaaa`.
pub fn fimbrast_user_bits_bytes(bits: FlatUserBits) -> FourBytes
    ensures { result.bytes ≡ group_bytes (user_bits_of bits).groups }
{
    let bytes = UserBits::from(bits).to_bytes();
    FourBytes { bytes }
}

// `MmcMessage::from_universal`: the machine control message of these parts.
pub fn fimbrast_mmc_message_read(header: FlatUniversal, data: &[u8]) -> FlatMmcMessage
    ensures { result ≡ flat_mmc_message (message_from (universal_of header) «data».now) }
{
    FlatMmcMessage::from(MmcMessage::from_universal(Universal::from(header), data))
}

// The same as one number, for a caller that has the device, which decides nothing: 0 commands, 128 responses, 255 another kind, any
// other number a refusal.
pub fn fimbrast_mmc_kind(real_time: bool, sub_id1: u8, data: &[u8]) -> u8
    ensures { result ≡ mmc_kind (message_from (header real_time 0 sub_id1 None) «data».now) }
{
    let parts = Universal {
        real_time,
        device_id: 0,
        sub_id1,
        sub_id2: None,
    };
    mmc_kind(MmcMessage::from_universal(parts, data))
}
