// Time code fields.
use crate::case::{Answer, Held, Input, Taken};
use fast_mmc::code::{FlatCode, FlatShort, FlatStatus};

impl Taken for FlatStatus {
    fn taken(input: &mut Input<'_>) -> Self {
        FlatStatus {
            estimated: input.take(),
            invalid: input.take(),
            video_field1: input.take(),
            no_time_code: input.take(),
        }
    }
}

impl Held for FlatStatus {
    fn held(self, answer: Answer<'_>) -> Option<Answer<'_>> {
        answer
            .is(self.estimated)?
            .is(self.invalid)?
            .is(self.video_field1)?
            .is(self.no_time_code)
    }
}

impl Taken for FlatCode {
    fn taken(input: &mut Input<'_>) -> Self {
        FlatCode {
            time: input.take(),
            color_frame: input.take(),
            blank: input.take(),
            negative: input.take(),
            status: input.take(),
            last: input.take(),
        }
    }
}

impl Held for FlatCode {
    fn held(self, answer: Answer<'_>) -> Option<Answer<'_>> {
        answer
            .is(self.time)?
            .is(self.color_frame)?
            .is(self.blank)?
            .is(self.negative)?
            .is(self.status)?
            .is(self.last)
    }
}

impl Taken for FlatShort {
    fn taken(input: &mut Input<'_>) -> Self {
        FlatShort {
            frames: input.take(),
            negative: input.take(),
            status: input.take(),
            last: input.take(),
        }
    }
}

impl Held for FlatShort {
    fn held(self, answer: Answer<'_>) -> Option<Answer<'_>> {
        answer
            .is(self.frames)?
            .is(self.negative)?
            .is(self.status)?
            .is(self.last)
    }
}
