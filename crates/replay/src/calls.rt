// The calls of the cases. Each is made with its input, and what it gives is held to the answer.
use crate::case::{Answer, Input};
use crate::quarter_frames::{full_message, next_byte, receive, started, state, turned};
use crate::writers::{Buffer, string_held};
use fast_mmc::code::{FiveBytes, TwoBytes};
use fast_mmc::message::FlatUniversal;
use fimbrast::code::{
    fimbrast_code_read, fimbrast_code_short, fimbrast_code_with_short, fimbrast_code_write,
    fimbrast_full_name, fimbrast_short_code_read, fimbrast_short_code_write, fimbrast_short_name,
    fimbrast_status_byte, fimbrast_status_read, fimbrast_to_status_form,
    fimbrast_to_subframes_form,
};
use fimbrast::generator::{fimbrast_generator_time, fimbrast_locate, fimbrast_set_running};
use fimbrast::message::{
    fimbrast_addressed, fimbrast_full_message_read, fimbrast_full_message_write,
    fimbrast_has_sub_id2, fimbrast_mmc_message_read, fimbrast_universal_write,
    fimbrast_user_bits_bytes, fimbrast_user_bits_read, fimbrast_user_bits_write,
};
use fimbrast::reader::fimbrast_reader_new;
use fimbrast::string::{fimbrast_next_command, fimbrast_next_field};
use fimbrast::time::{
    fimbrast_add_frames, fimbrast_frames_per_second, fimbrast_from_frame_count, fimbrast_is_valid,
    fimbrast_next_valid, fimbrast_pieces, fimbrast_quarter_frame_byte, fimbrast_quarter_frame_read,
    fimbrast_time_new, fimbrast_to_frame_count,
};
use fimbrast::write::{
    fimbrast_close_fields, fimbrast_close_message, fimbrast_open_commands, fimbrast_open_fields,
    fimbrast_open_responses, fimbrast_put_command, fimbrast_put_field,
};

#[derive(Clone, Copy)]
pub(crate) enum Call {
    TimeNew,
    NextValid,
    ToFrameCount,
    FromFrameCount,
    AddFrames,
    FramesPerSecond,
    FrameFromByte,
    FrameToByte,
    Pieces,
    GeneratorNew,
    NextByte,
    SetRunning,
    SetDirection,
    Locate,
    GeneratorTime,
    ReaderNew,
    Receive,
    ReaderFullMessage,
    ReaderState,
    Addressed,
    HasSubId2,
    UniversalWrite,
    FullMessageRead,
    FullMessageWrite,
    UserBitsRead,
    UserBitsWrite,
    UserBitsBytes,
    MmcMessageRead,
    ShortName,
    FullName,
    StatusRead,
    StatusByte,
    CodeRead,
    CodeWrite,
    ShortCodeRead,
    ShortCodeWrite,
    Short,
    WithShort,
    ToSubframesForm,
    ToStatusForm,
    NextCommand,
    NextField,
    WriteCommands,
    WriteResponses,
    WriteInfoFields,
}

impl Call {
    // Whether the call gives the answer; none where the input is not what the call takes.
    pub(crate) fn replay(self, input: &[u8], answer: &[u8]) -> Option<bool> {
        let mut input = Input::new(input);
        let left = self.held(&mut input, Answer::new(answer));
        if !input.is_whole() {
            return None;
        }
        Some(left.is_some_and(|left| left.is_empty()))
    }

    // What is left of the answer. The whole input is taken before a comparison can end the call.
    fn held<'a>(self, input: &mut Input<'_>, answer: Answer<'a>) -> Option<Answer<'a>> {
        match self {
            Call::TimeNew => {
                let time = input.take();
                answer
                    .is(fimbrast_time_new(time))?
                    .is(fimbrast_is_valid(time))
            }
            Call::NextValid => answer.is(fimbrast_next_valid(input.take())),
            Call::ToFrameCount => answer.is(fimbrast_to_frame_count(&input.take())),
            Call::FromFrameCount => {
                answer.is(fimbrast_from_frame_count(input.take(), input.take()))
            }
            Call::AddFrames => answer.is(fimbrast_add_frames(input.take(), input.take())),
            Call::FramesPerSecond => answer.is(fimbrast_frames_per_second(input.take())),
            Call::FrameFromByte => answer.is(fimbrast_quarter_frame_read(input.take())),
            Call::FrameToByte => answer.is(fimbrast_quarter_frame_byte(input.take())),
            Call::Pieces => answer.is(fimbrast_pieces(input.take()).bytes),
            Call::GeneratorNew => answer.is(started(input.take(), input.take())),
            Call::NextByte => next_byte(input.take(), answer),
            Call::SetRunning => answer.is(fimbrast_set_running(input.take(), input.take())),
            Call::SetDirection => answer.is(turned(input.take(), input.take())),
            Call::Locate => answer.is(fimbrast_locate(input.take(), input.take())),
            Call::GeneratorTime => answer.is(fimbrast_generator_time(input.take())),
            Call::ReaderNew => answer.is(fimbrast_reader_new()),
            Call::Receive => receive(input.take(), input.take(), answer),
            Call::ReaderFullMessage => full_message(input.take(), input.take(), answer),
            Call::ReaderState => state(input.take(), answer),
            Call::Addressed => answer.is(fimbrast_addressed(input.take(), input.take())),
            Call::HasSubId2 => answer.is(fimbrast_has_sub_id2(input.take(), input.take())),
            Call::UniversalWrite => {
                let header: FlatUniversal = input.take();
                let buffer: Buffer = input.take();
                let data = input.rest();
                buffer.held(answer, |out| fimbrast_universal_write(header, data, out))
            }
            Call::FullMessageRead => {
                answer.is(fimbrast_full_message_read(input.take(), input.rest()))
            }
            Call::FullMessageWrite => {
                let device_id = input.take();
                let time = input.take();
                let buffer: Buffer = input.take();
                buffer.held(answer, |out| {
                    fimbrast_full_message_write(device_id, time, out)
                })
            }
            Call::UserBitsRead => answer.is(fimbrast_user_bits_read(input.take(), input.rest())),
            Call::UserBitsWrite => {
                let bits = input.take();
                let buffer: Buffer = input.take();
                buffer.held(answer, |out| fimbrast_user_bits_write(bits, out))
            }
            Call::UserBitsBytes => answer.is(fimbrast_user_bits_bytes(input.take()).bytes),
            Call::MmcMessageRead => {
                answer.is(fimbrast_mmc_message_read(input.take(), input.rest()))
            }
            Call::ShortName => answer.is(fimbrast_short_name(input.take())),
            Call::FullName => answer.is(fimbrast_full_name(input.take())),
            Call::StatusRead => answer.is(fimbrast_status_read(input.take())),
            Call::StatusByte => answer.is(fimbrast_status_byte(input.take())),
            Call::CodeRead => answer.is(fimbrast_code_read(FiveBytes {
                bytes: input.take(),
            })),
            Call::CodeWrite => {
                let written = fimbrast_code_write(input.take());
                answer.is(written.refusal)?.is(written.code.bytes)
            }
            Call::ShortCodeRead => answer.is(fimbrast_short_code_read(TwoBytes {
                bytes: input.take(),
            })),
            Call::ShortCodeWrite => {
                let written = fimbrast_short_code_write(input.take());
                answer.is(written.refusal)?.is(written.code.bytes)
            }
            Call::Short => answer.is(fimbrast_code_short(input.take())),
            Call::WithShort => answer.is(fimbrast_code_with_short(input.take(), input.take())),
            Call::ToSubframesForm => answer.is(fimbrast_to_subframes_form(input.take())),
            Call::ToStatusForm => { answer.is(fimbrast_to_status_form(input.take(), input.take())) }
            Call::NextCommand => {
                let place = input.take();
                let next = fimbrast_next_command(input.rest(), place);
                answer.is(next.refusal)?.is(next.place)?.is(next.command)
            }
            Call::NextField => {
                let place = input.take();
                let next = fimbrast_next_field(input.rest(), place);
                answer.is(next.refusal)?.is(next.place)?.is(next.field)
            }
            Call::WriteCommands => {
                let device_id = input.take();
                string_held(
                    input,
                    answer,
                    |out| fimbrast_open_commands(out, device_id),
                    fimbrast_put_command,
                    fimbrast_close_message,
                )
            }
            Call::WriteResponses => {
                let device_id = input.take();
                string_held(
                    input,
                    answer,
                    |out| fimbrast_open_responses(out, device_id),
                    fimbrast_put_field,
                    fimbrast_close_message,
                )
            }
            Call::WriteInfoFields => string_held(
                input,
                answer,
                |_| fimbrast_open_fields(),
                fimbrast_put_field,
                |writer, out| fimbrast_close_fields(writer, out),
            ),
        }
    }
}
