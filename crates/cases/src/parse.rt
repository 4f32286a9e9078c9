// A line of a session in its parts, and the numbers of a call.
ghost use Rattle.std.specs.Prelude.{◌≤◌, length, IfSome};

use arrayvec::ArrayVec;
use console::parse::{digit_of, read_number};

// The call of a line, the answer and the changed words that it must give; a part that is not there is empty.
#[derive(Clone, Copy)]
pub struct Parts<'a> {
    pub call: &'a [u8],
    pub answer: &'a [u8],
    pub changes: &'a [u8],
}

// The text before a sign and the text behind it, if the sign is there.
pub(crate) fn split_once(text: &[u8], sign: u8) -> Option<(&[u8], &[u8])> {
    let at = text.iter().position(|b| *b == sign)?;
    Some((&text[..at], &text[at + 1..]))
}

// The same; all of the text and nothing, if the sign is not there.
fn split_at_sign(text: &[u8], sign: u8) -> (&[u8], &[u8]) {
    split_once(text, sign).unwrap_or((text, &[]))
}

// The text without the spaces at its end.
fn trim_spaces_end(text: &[u8]) -> &[u8] {
    match text.iter().rposition(|b| *b != b' ') {
        Some(last) => &text[..last + 1],
        None => &[],
    }
}

// The text without the spaces around it.
fn trim_spaces(text: &[u8]) -> &[u8] {
    match text.iter().position(|b| *b != b' ') {
        Some(first) => trim_spaces_end(&text[first..]),
        None => &[],
    }
}

impl<'a> Parts<'a> {
    // The parts of a line, if it makes a call.
    pub(crate) fn of(line: &'a [u8]) -> Option<Parts<'a>> {
        let (text, _comment) = split_at_sign(line, b'#');
        let text = trim_spaces_end(text);
        if text.is_empty() {
            return None;
        }
        let (front, changes) = split_at_sign(text, b';');
        let (call, answer) = split_at_sign(front, b'=');
        Some(Parts {
            call: trim_spaces_end(call),
            answer: trim_spaces(answer),
            changes: trim_spaces(changes),
        })
    }
}

// The word of a call, and up to five numbers behind it, each after one space.
pub(crate) fn word_and_numbers(call: &[u8]) -> (&[u8], Option<ArrayVec<u64, 5>>) {
    match split_once(call, b' ') {
        Some((word, rest)) => (word, numbers(rest)),
        None => (call, Some(ArrayVec::new())),
    }
}

// Up to five numbers with one space between.
fn numbers(text: &[u8]) -> Option<ArrayVec<u64, 5>> {
    let mut numbers = ArrayVec::new();
    for field in text.split(|b| *b == b' ') {
        numbers.try_push(read_number(field)?).ok()?;
    }
    Some(numbers)
}

// The byte that two hex digits are.
fn byte(pair: &[u8]) -> Option<u8> {
    let &[high, low] = pair else {
        return None;
    };
    u8::try_from(digit_of(high)? * 16 + digit_of(low)?).ok()
}

// Puts bytes from hex digits into the front of a buffer; gives how many they are. `.` is no byte.
pub(crate) fn read_pairs(digits: &[u8], into: &mut [u8]) -> Option<usize>
    ensures { IfSome result (λ n. n ≤ length into.new) }
{
    if digits == b".".as_slice() {
        return Some(0);
    }
    let n = digits.len() / 2;
    if digits.is_empty() || digits.len() % 2 != 0 || n > into.len() {
        return None;
    }
    for (to, pair) in into.iter_mut().zip(digits.chunks_exact(2)) {
        *to = byte(pair)?;
    }
    Some(n)
}
