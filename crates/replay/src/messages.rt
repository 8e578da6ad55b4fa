// Messages by their split parts.
use crate::case::{Answer, Held, Input, Taken};
use fast_mmc::message::{
    FlatFullMessage, FlatMmcMessage, FlatReadUserBits, FlatUniversal, FlatUserBits,
};

impl Taken for FlatUniversal {
    fn taken(input: &mut Input<'_>) -> Self {
        FlatUniversal {
            real_time: input.take(),
            device_id: input.take(),
            sub_id1: input.take(),
            has_sub_id2: input.take(),
            sub_id2: input.take(),
        }
    }
}

impl Taken for FlatUserBits {
    fn taken(input: &mut Input<'_>) -> Self {
        FlatUserBits {
            device_id: input.take(),
            groups: input.take(),
            flags: input.take(),
        }
    }
}

impl Held for FlatFullMessage {
    fn held(self, answer: Answer<'_>) -> Option<Answer<'_>> {
        answer.is(self.answer)?.is(self.device_id)?.is(self.time)
    }
}

impl Held for FlatReadUserBits {
    fn held(self, answer: Answer<'_>) -> Option<Answer<'_>> {
        answer
            .is(self.answer)?
            .is(self.bits.device_id)?
            .is(self.bits.groups)?
            .is(self.bits.flags)
    }
}

impl Held for FlatMmcMessage {
    fn held(self, answer: Answer<'_>) -> Option<Answer<'_>> {
        answer
            .is(self.answer)?
            .is(self.responses)?
            .is(self.device_id)
    }
}
