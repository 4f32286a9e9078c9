// The text of an answer, put together piece by piece.
ghost use Rattle.std.specs.Prelude.{◌≤◌};

use console::print::{glyph_of, put_answer};

// The longest texts are the buffer as digits, 18,432 bytes, and each word of a device with its place, 22,620.
const ROOM: usize = 24576;

// A text: the first bytes of a buffer.
#[derive(Drop)]
pub struct Text {
    bytes: [u8; ROOM],
    len: usize,
    ghost within: { len ≤ 24576 },
}

// The two hex digits of a byte.
fn digits_of(byte: u8) -> [u8; 2] {
    [
        glyph_of(u64::from(byte / 16)),
        glyph_of(u64::from(byte % 16)),
    ]
}

// Spells the digits of bytes, as many as there is room for.
fn spell_bytes(digits: &mut [[u8; 2]], bytes: &[u8]) {
    for (pair, byte) in digits.iter_mut().zip(bytes) {
        *pair = digits_of(*byte);
    }
}

impl Text {
    pub(crate) fn new() -> Text {
        Text {
            bytes: [0; ROOM],
            len: 0,
        }
    }

    pub(crate) fn is_empty(&self) -> bool {
        self.len == 0
    }

    pub(crate) fn as_slice(&self) -> &[u8] {
        &self.bytes[..self.len]
    }

    pub(crate) fn clear(&mut self) {
        self.len = 0;
    }

    // Adds a piece, if there is room for it.
    pub(crate) fn add(&mut self, piece: &[u8]) {
        let bytes = &mut self.bytes[..];
        if let Some(front) = bytes[self.len..].get_mut(..piece.len()) {
            front.copy_from_slice(piece);
            self.len += piece.len();
        }
    }

    // Adds the answer of a call.
    pub(crate) fn add_answer(&mut self, reading: bool, answer: i64) {
        let mut line = [0; 24];
        let end = put_answer(&mut line, 0, reading, answer);
        // A newline is behind it.
        self.add(&line[..end.saturating_sub(1)]);
    }

    // Adds a number in hex.
    pub(crate) fn add_hex(&mut self, n: u32) {
        let mut digits = [[0; 2]; 4];
        spell_bytes(&mut digits, &n.to_be_bytes());
        let zeros = (n.leading_zeros() / 4).min(7);
        self.add(&digits.as_flattened()[zeros as usize..]);
    }

    // Holds bytes as hex digits and nothing else, as many as there is room for.
    pub(crate) fn hold_bytes(&mut self, bytes: &[u8]) {
        let (pairs, _) = self.bytes.as_chunks_mut::<2>();
        spell_bytes(pairs, bytes);
        self.len = bytes.len().min(ROOM / 2) * 2;
    }
}
