// Universal messages, full messages, user bits, and machine control messages, by their split parts.
ghost use Rattle.universal.specs.Refusals.{answer_of};
ghost use Rattle.std.specs.Prelude.{◌≡◌};
ghost use Rattle.fast_mmc.specs.Message.{sub_id2_of, universal_of, user_bits_of, flat_bits, no_bits, no_message, flat_full_message, flat_user_bits, flat_mmc, flat_mmc_message, mmc_kind};

use fast_mtc::time::{FlatTime, no_time};
use mmc::MmcMessage;
use mtc::{FullMessage, UserBits};
use universal::{SysexError, Universal};

// The records here are for C, which has no Option and no Result: a flag or a refusal stands beside the value.

// The split parts of a Universal message but its data.
#[repr(C)]
#[derive(Clone, Copy)]
pub struct FlatUniversal {
    pub real_time: bool,
    pub device_id: u8,
    pub sub_id1: u8,
    pub has_sub_id2: bool,
    pub sub_id2: u8,
}

// A full message as it was read. Answer 0 is a message, 255 another kind, any other number a refusal.
// Without a message all else is 0.
#[repr(C)]
#[derive(Clone, Copy)]
pub struct FlatFullMessage {
    pub answer: u8,
    pub device_id: u8,
    pub time: FlatTime,
}

// Binary Groups 1 to 8, four bits each, and the two flag bits.
#[repr(C)]
#[derive(Clone, Copy)]
pub struct FlatUserBits {
    pub device_id: u8,
    pub groups: [u8; 8],
    pub flags: u8,
}

// User bits as they were read; the answer is as in a full message.
#[repr(C)]
#[derive(Clone, Copy)]
pub struct FlatReadUserBits {
    pub answer: u8,
    pub bits: FlatUserBits,
}

// The groups as four bytes.
#[repr(C)]
#[derive(Clone, Copy)]
pub struct FourBytes {
    pub bytes: [u8; 4],
}

// A message of commands or of responses; the answer is as in a full message.
#[repr(C)]
#[derive(Clone, Copy)]
pub struct FlatMmcMessage {
    pub answer: u8,
    pub responses: bool,
    pub device_id: u8,
}

// Two values, and so no `From`.
#[tactic(auto, unfolding(crate::specs::Message::sub_id2_of))]
pub fn sub_id2_of(has: bool, sub_id2: u8) -> Option<u8>
    ensures { result ≡ sub_id2_of has sub_id2 }
{
    has.then_some(sub_id2)
}

impl From<FlatUniversal> for Universal {
    ghost from_gives = { λ u r. r ≡ universal_of u };

    #[tactic(auto, unfolding(crate::specs::Message::universal_of))]
    fn from(u: FlatUniversal) -> Universal {
        Universal {
            real_time: u.real_time,
            device_id: u.device_id,
            sub_id1: u.sub_id1,
            sub_id2: sub_id2_of(u.has_sub_id2, u.sub_id2),
        }
    }
}

impl From<FlatUserBits> for UserBits {
    ghost from_gives = { λ b r. r ≡ user_bits_of b };

    #[tactic(auto, unfolding(crate::specs::Message::user_bits_of))]
    fn from(b: FlatUserBits) -> UserBits {
        let groups = b.groups;
        UserBits {
            device_id: b.device_id,
            groups,
            flags: b.flags,
        }
    }
}

impl From<UserBits> for FlatUserBits {
    ghost from_gives = { λ b f. f ≡ flat_bits b };

    #[tactic(auto, unfolding(crate::specs::Message::flat_bits))]
    fn from(b: UserBits) -> FlatUserBits {
        let groups = b.groups;
        FlatUserBits {
            device_id: b.device_id,
            groups,
            flags: b.flags,
        }
    }
}

// No full message: this answer, and all else 0.
fn no_message(answer: u8) -> FlatFullMessage
    ensures { result ≡ no_message answer }
{
    FlatFullMessage {
        answer,
        device_id: 0,
        time: no_time(),
    }
}

impl From<Result<Option<FullMessage>, SysexError>> for FlatFullMessage {
    ghost from_gives = { λ read f. f ≡ flat_full_message (answer_of read) };

    #[tactic(auto, unfolding(crate::specs::Message::flat_full_message))]
    fn from(read: Result<Option<FullMessage>, SysexError>) -> FlatFullMessage {
        match read {
            Ok(Some(m)) => FlatFullMessage {
                answer: 0,
                device_id: m.device_id,
                time: FlatTime::from(m.time),
            },
            Ok(None) => no_message(255),
            Err(e) => no_message(e.number()),
        }
    }
}

// No user bits: this answer, and all else 0.
#[tactic(auto, unfolding(crate::specs::Message::flat_bits))]
fn no_bits(answer: u8) -> FlatReadUserBits
    ensures { (result.answer ≡ answer) × (result.bits ≡ flat_bits no_bits) }
{
    FlatReadUserBits {
        answer,
        bits: FlatUserBits {
            device_id: 0,
            groups: [0; 8],
            flags: 0,
        },
    }
}

impl From<Result<Option<UserBits>, SysexError>> for FlatReadUserBits {
    ghost from_gives = { λ read f. f ≡ flat_user_bits (answer_of read) };

    #[tactic(auto, unfolding(crate::specs::Message::flat_answer, crate::specs::Message::flat_read_bits))]
    fn from(read: Result<Option<UserBits>, SysexError>) -> FlatReadUserBits {
        match read {
            Ok(Some(b)) => FlatReadUserBits {
                answer: 0,
                bits: FlatUserBits::from(b),
            },
            Ok(None) => no_bits(255),
            Err(e) => no_bits(e.number()),
        }
    }
}

// A machine control message, or none: an answer, whether it is of responses, and the device.
fn flat_mmc(answer: u8, responses: bool, device_id: u8) -> FlatMmcMessage
    ensures { result ≡ flat_mmc answer responses device_id }
{
    FlatMmcMessage {
        answer,
        responses,
        device_id,
    }
}

impl From<Result<Option<MmcMessage>, SysexError>> for FlatMmcMessage {
    ghost from_gives = { λ read f. f ≡ flat_mmc_message (answer_of read) };

    #[tactic(auto, unfolding(crate::specs::Message::flat_mmc_message))]
    fn from(read: Result<Option<MmcMessage>, SysexError>) -> FlatMmcMessage {
        match read {
            Ok(Some(MmcMessage::Commands { device_id })) => flat_mmc(0, false, device_id),
            Ok(Some(MmcMessage::Responses { device_id })) => flat_mmc(0, true, device_id),
            Ok(None) => flat_mmc(255, false, 0),
            Err(e) => flat_mmc(e.number(), false, 0),
        }
    }
}

// The same as one number: 0 for commands, 128 for responses, 255 for another kind, or the refusal. No `From`, as neither is a type of this crate.
#[tactic(auto, unfolding(crate::specs::Message::mmc_kind))]
pub fn mmc_kind(read: Result<Option<MmcMessage>, SysexError>) -> u8
    ensures { result ≡ mmc_kind (answer_of read) }
{
    match read {
        Ok(Some(MmcMessage::Commands { .. })) => 0,
        Ok(Some(MmcMessage::Responses { .. })) => 128,
        Ok(None) => 255,
        Err(e) => e.number(),
    }
}
