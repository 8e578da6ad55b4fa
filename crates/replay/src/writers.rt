// Writing into a lent buffer.
use crate::case::{Answer, Input, Taken};
use fast_mmc::WrittenNumbers;
use fast_mmc::write::FlatWriter;

// A buffer: the byte that fills it, and its length. It is cut from an array of a fixed size: without a heap no allocation can fail.
#[derive(Clone, Copy)]
pub(crate) struct Buffer {
    fill: u8,
    length: usize,
}

impl Taken for Buffer {
    fn taken(input: &mut Input<'_>) -> Self {
        Buffer {
            fill: input.take(),
            length: input.take(),
        }
    }
}

impl Buffer {
    // What `write` answers is held to the answer, and then the whole buffer, so a byte that was not to change is seen.
    pub(crate) fn held<'a, F: FnOnce(&mut [u8]) -> WrittenNumbers>(
        self,
        answer: Answer<'a>,
        write: F,
    ) -> Option<Answer<'a>>
        requires { F.IsAlwaysCallable write }
    {
        let mut bytes = [self.fill; 2048];
        if self.length > 2048 {
            return None;
        }
        let out = &mut bytes[..self.length];
        let written = write(out);
        answer
            .is(written.refusal)?
            .is(written.length)?
            .is(&bytes[..self.length])
    }
}

// A string is written: it is opened, given its items, and closed. After the buffer, the input has the number of items, the items,
// and the source of their names and data.
pub(crate) fn string_held<
    'a,
    T: Taken + Drop,
    O: FnOnce(&mut [u8]) -> FlatWriter,
    P: Fn(FlatWriter, &mut [u8], &[u8], T) -> FlatWriter,
    C: FnOnce(FlatWriter, &mut [u8]) -> WrittenNumbers,
>(input: &mut Input<'_>, answer: Answer<'a>, opening: O, put: P, closing: C) -> Option<Answer<'a>>
    requires opens { O.IsAlwaysCallable opening }
    requires puts { P.IsAlwaysCallable put }
    requires closes { C.IsAlwaysCallable closing }
{
    let buffer: Buffer = input.take();
    let count: u8 = input.take();
    let mut items = *input;
    for _ in 0..count {
        let _item: T = input.take();
    }
    let source = input.rest();
    buffer.held(answer, |out| {
        let mut writer = opening(out);
        for _ in 0..count {
            writer = put(writer, out, source, items.take());
        }
        closing(writer, out)
    })
}
