// Strings of commands and of information fields.
use crate::case::{Answer, Held, Input, Taken};
use fast_mmc::string::{FlatCommand, FlatField, FlatPart};

impl Taken for FlatPart {
    fn taken(input: &mut Input<'_>) -> Self {
        FlatPart {
            start: input.take(),
            length: input.take(),
        }
    }
}

impl Held for FlatPart {
    fn held(self, answer: Answer<'_>) -> Option<Answer<'_>> {
        answer.is(self.start)?.is(self.length)
    }
}

impl Taken for FlatCommand {
    fn taken(input: &mut Input<'_>) -> Self {
        FlatCommand {
            kind: input.take(),
            first: input.take(),
            second: input.take(),
            code: input.take(),
            name: input.take(),
            data: input.take(),
        }
    }
}

impl Held for FlatCommand {
    fn held(self, answer: Answer<'_>) -> Option<Answer<'_>> {
        answer
            .is(self.kind)?
            .is(self.first)?
            .is(self.second)?
            .is(self.code)?
            .is(self.name)?
            .is(self.data)
    }
}

impl Taken for FlatField {
    fn taken(input: &mut Input<'_>) -> Self {
        FlatField {
            kind: input.take(),
            field: input.take(),
            code: input.take(),
            short_code: input.take(),
            name: input.take(),
            data: input.take(),
        }
    }
}

impl Held for FlatField {
    fn held(self, answer: Answer<'_>) -> Option<Answer<'_>> {
        answer
            .is(self.kind)?
            .is(self.field)?
            .is(self.code)?
            .is(self.short_code)?
            .is(self.name)?
            .is(self.data)
    }
}
