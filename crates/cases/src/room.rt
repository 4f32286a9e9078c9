// The room that a session works in: two devices, a buffer for records, and what the first device and the buffer held at the mark.
ghost use Rattle.std.specs.Prelude.{◌≤◌};

use crate::command::Call;
use model::Errno;
use std::mem;

// The words of the longest state that is lent.
pub const MOST_WORDS: usize = 1761;

// The bytes of the buffer.
pub const BUFFER: usize = 9216;

// A device: its state and a word behind it, and how many of these words a call is lent.
#[derive(Clone, Copy)]
pub struct Device {
    words: [u32; MOST_WORDS],
    lent: usize,
    ghost within: { lent ≤ 1761 },
}

impl Device {
    // A device of zeros.
    fn new() -> Device {
        Device {
            words: [0; MOST_WORDS],
            lent: 1760,
        }
    }

    // All of its words.
    pub(crate) fn words(&self) -> &[u32; MOST_WORDS] {
        &self.words
    }

    // The words that a call is lent.
    pub(crate) fn state(&self) -> &[u32] {
        &self.words[..self.lent]
    }

    // Makes a call on them.
    pub(crate) fn make(&mut self, call: Call) -> Result<u32, Errno> {
        let words = &mut self.words[..];
        call.make(&mut words[..self.lent])
    }

    // Restores a record into them.
    pub(crate) fn restore(&mut self, record: &[u8]) -> Result<u32, Errno> {
        let words = &mut self.words[..];
        calls::restore(&mut words[..self.lent], record)
    }

    // Sets each of them.
    pub(crate) fn fill(&mut self, x: u32) {
        let words = &mut self.words[..];
        words[..self.lent].fill(x);
    }

    // Lends the first n words from now on, if there are as many.
    pub(crate) fn lend(&mut self, n: usize) -> Option<()> {
        if n > MOST_WORDS {
            return None;
        }
        self.lent = n;
        Some(())
    }

    pub(crate) fn word(&self, at: usize) -> Option<u32> {
        self.words.get(at).copied()
    }

    // Sets a word, if it is there.
    pub(crate) fn set_word(&mut self, at: usize, x: u32) -> Option<()> {
        *self.words.get_mut(at)? = x;
        Some(())
    }
}

#[derive(Drop)]
pub struct Room {
    pub device: Device,
    pub other: Device,
    pub buffer: [u8; BUFFER],
    pub device_at_mark: Device,
    buffer_at_mark: [u8; BUFFER],
}

impl Room {
    // A device just made, another one, and a buffer of a5.
    pub(crate) fn new() -> Room {
        Room {
            device: Device::new(),
            other: Device::new(),
            buffer: [0xa5; BUFFER],
            device_at_mark: Device::new(),
            buffer_at_mark: [0xa5; BUFFER],
        }
    }

    // Remembers the device and the buffer.
    pub(crate) fn mark(&mut self) {
        self.device_at_mark = self.device;
        self.buffer_at_mark = self.buffer;
    }

    // Puts them back as they were at the mark.
    pub(crate) fn back(&mut self) {
        self.device = self.device_at_mark;
        self.buffer = self.buffer_at_mark;
    }

    // Goes on with the other device.
    pub(crate) fn swap(&mut self) {
        mem::swap(&mut self.device, &mut self.other);
    }

    // So many bytes of the buffer from a place on.
    pub(crate) fn shown(&self, at: usize, n: usize) -> Option<&[u8]> {
        self.buffer.get(at..)?.get(..n)
    }

    // The first and the last byte of the buffer that differ from the mark.
    pub(crate) fn touched(&self) -> Option<(u32, u32)> {
        let first = self
            .buffer
            .iter()
            .zip(&self.buffer_at_mark)
            .position(|(a, b)| a != b)?;
        let last = self
            .buffer
            .iter()
            .zip(&self.buffer_at_mark)
            .rposition(|(a, b)| a != b)?;
        Some((first as u32, last as u32))
    }
}
