// The parts of a case. The fields of its input are taken one after another, and so are those of its answer held to what a call gave.
use fast_mtc::time::FlatTime;
use std::array;

// What is left of an input; none where a field was taken past its end.
#[derive(Clone, Copy)]
pub(crate) struct Input<'a> {
    left: Option<&'a [u8]>,
}

impl<'a> Input<'a> {
    pub(crate) fn new(bytes: &'a [u8]) -> Self {
        Input { left: Some(bytes) }
    }

    // The next field.
    pub(crate) fn take<T: Taken>(&mut self) -> T {
        T::taken(self)
    }

    // The bytes that are left.
    pub(crate) fn rest(&mut self) -> &'a [u8] {
        let Some(rest) = self.left else {
            return b"";
        };
        self.left = Some(b"");
        rest
    }

    // Each byte belonged to a field, and each field had its bytes.
    pub(crate) fn is_whole(&self) -> bool {
        self.left.is_some_and(|left| left.is_empty())
    }
}

// What an input has as a field. Past the end of the input each byte is 0.
pub(crate) trait Taken: Sized {
    fn taken(input: &mut Input<'_>) -> Self;
}

impl Taken for u8 {
    fn taken(input: &mut Input<'_>) -> Self {
        let first = input.left.and_then(|left| left.split_first());
        input.left = first.map(|(_, rest)| rest);
        first.map_or(0, |(byte, _)| *byte)
    }
}

impl Taken for bool {
    fn taken(input: &mut Input<'_>) -> Self {
        input.take::<u8>() != 0
    }
}

impl<const N: usize> Taken for [u8; N] {
    fn taken(input: &mut Input<'_>) -> Self {
        array::from_fn(|_| input.take())
    }
}

// A length or a place, of two bytes.
impl Taken for usize {
    fn taken(input: &mut Input<'_>) -> Self {
        usize::from(u16::from_be_bytes(input.take()))
    }
}

impl Taken for u32 {
    fn taken(input: &mut Input<'_>) -> Self {
        u32::from_be_bytes(input.take())
    }
}

impl Taken for i32 {
    fn taken(input: &mut Input<'_>) -> Self {
        input.take::<u32>().cast_signed()
    }
}

impl Taken for FlatTime {
    fn taken(input: &mut Input<'_>) -> Self {
        FlatTime {
            hours: input.take(),
            minutes: input.take(),
            seconds: input.take(),
            frames: input.take(),
            rate: input.take(),
        }
    }
}

// What is left of an answer.
#[derive(Clone, Copy)]
pub(crate) struct Answer<'a>(&'a [u8]);

impl<'a> Answer<'a> {
    pub(crate) fn new(bytes: &'a [u8]) -> Self {
        Answer(bytes)
    }

    // What is left after a field; none where the answer has other bytes.
    pub(crate) fn is<T: Held>(self, field: T) -> Option<Self> {
        field.held(self)
    }

    pub(crate) fn is_empty(self) -> bool {
        self.0.is_empty()
    }
}

// What a call gives, as a field of an answer.
pub(crate) trait Held: Sized {
    fn held(self, answer: Answer<'_>) -> Option<Answer<'_>>;
}

impl Held for &[u8] {
    fn held(self, answer: Answer<'_>) -> Option<Answer<'_>> {
        answer.0.strip_prefix(self).map(Answer)
    }
}

impl<const N: usize> Held for [u8; N] {
    fn held(self, answer: Answer<'_>) -> Option<Answer<'_>> {
        answer.is(self.as_slice())
    }
}

impl Held for u8 {
    fn held(self, answer: Answer<'_>) -> Option<Answer<'_>> {
        answer.is([self])
    }
}

impl Held for bool {
    fn held(self, answer: Answer<'_>) -> Option<Answer<'_>> {
        answer.is(u8::from(self))
    }
}

// A length or a place, of two bytes.
impl Held for usize {
    fn held(self, answer: Answer<'_>) -> Option<Answer<'_>> {
        answer.is(u16::try_from(self).ok()?.to_be_bytes())
    }
}

impl Held for u32 {
    fn held(self, answer: Answer<'_>) -> Option<Answer<'_>> {
        answer.is(self.to_be_bytes())
    }
}

impl Held for FlatTime {
    fn held(self, answer: Answer<'_>) -> Option<Answer<'_>> {
        answer.is([
            self.hours,
            self.minutes,
            self.seconds,
            self.frames,
            self.rate,
        ])
    }
}
