// What a line answers, and how it is shown.
use crate::room::Device;
use crate::text::Text;
use calls::number_of;
use model::Errno;

#[derive(Clone, Copy)]
pub enum Answer<'a> {
    Done,
    Number(u32),
    // The signed number of a refusal.
    Refused(i64),
    Bytes(&'a [u8]),
    // The first and the last byte of a span, if there is one.
    Span(Option<(u32, u32)>),
    // The words of a device that differ from those of another.
    Changes(&'a Device, &'a Device),
    // The line is no command.
    Unknown,
}

impl<'a> Answer<'a> {
    // Of a call that answers 0.
    pub(crate) fn of_call(answer: Result<u32, Errno>) -> Answer<'a> {
        match answer {
            Ok(_) => Answer::Done,
            Err(_) => Answer::Refused(number_of(answer)),
        }
    }

    // Of a call that answers a number.
    pub(crate) fn of_read(answer: Result<u32, Errno>) -> Answer<'a> {
        match answer {
            Ok(value) => Answer::Number(value),
            Err(_) => Answer::Refused(number_of(answer)),
        }
    }

    // Leaves its text, in place of what was there.
    pub(crate) fn write(self, text: &mut Text) {
        text.clear();
        match self {
            Answer::Done => text.add(b"ok"),
            Answer::Number(n) => text.add_answer(true, i64::from(n)),
            Answer::Refused(number) => text.add_answer(false, number),
            Answer::Bytes(bytes) => text.hold_bytes(bytes),
            Answer::Span(None) => text.add(b"none"),
            Answer::Span(Some((first, last))) => add_span(text, first, last),
            Answer::Changes(device, before) => write_changes(text, device, before),
            Answer::Unknown => text.add(b"?"),
        }
    }
}

// Adds a span of bytes, from the first to the last.
fn add_span(text: &mut Text, first: u32, last: u32) {
    text.add_hex(first);
    text.add(b"-");
    text.add_hex(last);
}

// Adds a word with its place, behind a space where another is there.
fn add_change(text: &mut Text, place: u32, word: u32) {
    if !text.is_empty() {
        text.add(b" ");
    }
    text.add_hex(place);
    text.add(b":");
    text.add_hex(word);
}

// Leaves the words of a device that differ from those of another, or `none`.
pub(crate) fn write_changes(text: &mut Text, device: &Device, before: &Device) {
    text.clear();
    for (place, (word, old)) in (0u32..).zip(device.words().iter().zip(before.words())) {
        if word != old {
            add_change(text, place, *word);
        }
    }
    if text.is_empty() {
        text.add(b"none");
    }
}
