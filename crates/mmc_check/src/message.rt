// One whole message, F0H to F7H: who it is for, and what it carries.
use crate::body::Body;
use crate::commands::read_commands;
use crate::fields::read_responses;
use crate::refusals::Refusal;
use crate::say::{Byte, Bytes, Count, say};
use crate::times::Time;
use mmc::MmcMessage;
use mtc::{FullMessage, UserBits};
use std::fmt;
use std::fmt::Display;
use universal::{ALL_DEVICES, SysexError, Universal, addressed, has_sub_id2};

// The classes of Universal messages.
const REAL_TIME: u8 = 0x7F;

const NON_REAL_TIME: u8 = 0x7E;

// A device in words.
#[derive(Clone, Copy)]
struct Device(u8);

impl Display for Device {
    fn fmt<W: fmt::Write>(&self, f: &mut fmt::Formatter<W>) -> fmt::Result {
        match self.0 {
            ALL_DEVICES => f.write_str("all devices (7FH)"),
            id => write!(f, "device {}", Byte(id)),
        }
    }
}

// A message that is read: where that is said, the own device, and the message's length. Each answer below is true where nothing
// is refused.
#[derive(Clone, Copy)]
struct Message<'a> {
    rt: &'a HostRuntime,
    own: u8,
    length: usize,
}

impl Message<'_> {
    // What the message is, and its length.
    fn say_kind<D: Display + Drop>(self, kind: D) {
        let length = Count(self.length, "byte");
        say!(self.rt; "{kind}, {length}.\n");
    }

    // A message that is passed over.
    fn pass<D: Display + Drop>(self, kind: D) -> bool {
        self.say_kind(kind);
        say!(self.rt; "  It is not machine control, and is passed over.\n");
        true
    }

    // A message that is refused, by what it was read as.
    fn refuse<D: Display + Drop>(self, kind: D, error: SysexError) -> bool {
        self.say_kind(kind);
        say!(self.rt; "  {}.\n", Refusal(error));
        false
    }

    fn commands(self, device_id: u8, data: &[u8]) -> bool {
        // 7FH as own hears every message.
        let own = if self.own == ALL_DEVICES {
            device_id
        } else {
            self.own
        };
        self.say_kind(format_args!("commands for {}", Device(device_id)));
        // An own device above 127 is refused at each command instead.
        if own <= 0x7F && !addressed(device_id, own) {
            say!(self.rt; "  Not mine: this is device {}. Nothing is done.\n", Byte(own));
        }
        read_commands(Body::of_message(self.rt, data), device_id, own)
    }

    fn responses(self, device_id: u8, data: &[u8]) -> bool {
        self.say_kind(format_args!("responses from {}", Device(device_id)));
        read_responses(Body::of_message(self.rt, data), device_id)
    }

    fn full_message(self, message: FullMessage) -> bool {
        let device = Device(message.device_id);
        let time = Time(message.time);
        let is_valid = message.time.is_valid();
        let end = if is_valid {
            ""
        } else {
            ", which is not a valid time"
        };
        self.say_kind(format_args!("time code full message for {device}"));
        say!(self.rt; "  {time}{end}.\n");
        is_valid
    }

    fn user_bits(self, bits: UserBits) -> bool {
        let groups = bits.to_bytes();
        self.say_kind(format_args!("time code user bits for {}", Device(bits.device_id)));
        say!(self.rt; "  Groups 8 to 1:{}.\n", Bytes(&groups));
        true
    }

    fn other(self, u: Universal) -> bool {
        let class = if u.real_time {
            "Real Time"
        } else {
            "Non-Real Time"
        };
        let device = Device(u.device_id);
        let sub_id1 = Byte(u.sub_id1);
        self.pass(format_args!("a Universal {class} message for {device}, sub-ID {sub_id1}"))
    }

    fn read_user_bits(self, u: Universal, data: &[u8]) -> bool {
        match UserBits::from_universal(u, data) {
            Ok(Some(bits)) => self.user_bits(bits),
            Ok(None) => self.other(u),
            Err(error) => self.refuse("time code user bits", error),
        }
    }

    fn read_time_code(self, u: Universal, data: &[u8]) -> bool {
        match FullMessage::from_universal(u, data) {
            Ok(Some(message)) => self.full_message(message),
            Err(error) => self.refuse("time code full message", error),
            Ok(None) => self.read_user_bits(u, data),
        }
    }

    fn read_universal(self, u: Universal, data: &[u8]) -> bool {
        match MmcMessage::from_universal(u, data) {
            Ok(Some(message)) => match message {
                MmcMessage::Commands { device_id } => self.commands(device_id, data),
                MmcMessage::Responses { device_id } => self.responses(device_id, data),
            },
            Err(error) => {
                let device = Device(u.device_id);
                self.refuse(
                    format_args!("machine control for {device}, without a body"),
                    error,
                )
            }
            Ok(None) => self.read_time_code(u, data),
        }
    }

    // The bytes behind F0H and the class, without F7H.
    fn split_universal(self, real_time: bool, bytes: &[u8]) -> bool {
        let [device_id, sub_id1, data @ ..] = bytes else {
            let kind = "a Universal message that ends before its sub-ID 1";
            return self.refuse(kind, SysexError::Length);
        };
        let u = Universal {
            real_time,
            device_id: *device_id,
            sub_id1: *sub_id1,
            sub_id2: None,
        };
        if !has_sub_id2(real_time, *sub_id1) {
            return self.read_universal(u, data);
        }
        let [sub_id2, data @ ..] = data else {
            let kind = "a Universal message that ends before its sub-ID 2";
            return self.refuse(kind, SysexError::Length);
        };
        let sub_id2 = Some(*sub_id2);
        self.read_universal(Universal { sub_id2, ..u }, data)
    }
}

// Says what a message is. True where nothing is refused.
pub(crate) fn read_message(rt: &HostRuntime, bytes: &[u8], own: u8) -> bool {
    let length = bytes.len();
    let message = Message { rt, own, length };
    match bytes {
        [_, REAL_TIME, rest @ .., _] => message.split_universal(true, rest),
        [_, NON_REAL_TIME, rest @ .., _] => message.split_universal(false, rest),
        [_, id, .., _] => message.pass(format_args!("a manufacturer's message, {}", Byte(*id))),
        _ => message.refuse("an empty message", SysexError::Length),
    }
}
