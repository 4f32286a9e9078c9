// Save: there is room for the whole record before its first byte is written.
ghost use Rattle.std.specs.Prelude.{◌≡◌, [], ◌∷◌, ◌+◌, ◌≤◌, ◌<◌, true, leb, length};
ghost use Rattle.model.specs.Sound.{sound};
ghost use Rattle.model.specs.Refusals.{first_failing, number};
ghost use Rattle.model.specs.declared.Errno.TheVariants.{Efault};
ghost use Rattle.model.specs.Record.{record_of};
ghost use Rattle.model.specs.Calls.{Does, call, save};
ghost use Rattle.model.specs.Demands.{Stopped};
ghost use Rattle.record.specs.Table.{plain, slot_bytes, slots_in, ShapeOf, Inside};
ghost use Rattle.record.specs.Written.{Small, Wrote, save_checks, front_length};

use crate::number::{number_length, write_number};
use crate::shape::Shape;
use crate::table::{Part, word_at};
use model::layout::{STATE_LENGTH, State};
use model::{Errno, Phase};
use state::{in_phase, is_sound};

// ---- the length of the record

// The bytes of the words of a part that are shown as they are.
fn plain_length(s: &State, part: Part) -> usize
    requires { Inside part × Small s.now part × (plain part.kind ≡ true) }
    ensures { result ≡ length (slot_bytes s.now (slots_in part)) }
{
    let words = part.words(s);
    let mut sum = 0;
    for i in 0..words.len() {
        sum += number_length(word_at(words, i));
    }
    sum
}

// The bytes of the values of a part. Most parts are plain: their loop does not ask the kind at each word.
fn part_length(s: &State, part: Part) -> usize
    requires { Inside part × Small s.now part }
    ensures { result ≡ length (slot_bytes s.now (slots_in part)) }
{
    if part.kind.is_plain() {
        return plain_length(s, part);
    }
    let mut sum = 0;
    for word in part.words(s) {
        sum += number_length(part.kind.value_of(*word));
    }
    sum
}

// The bytes of all parts.
fn record_length(s: &State, shape: Shape) -> usize
    requires { Stopped s.now × ShapeOf s.now shape }
    ensures { result ≡ length (record_of s.now) }
{
    let mut sum = 0;
    for k in 0..shape.part_count() {
        sum += part_length(s, shape.part_at(k));
    }
    sum
}

// Whether `len` bytes are enough for the record: a value has at most five, so only for a shorter buffer are they counted.
fn has_room(s: &State, len: usize) -> bool
    requires { Stopped s.now }
    ensures { result ≡ leb (length (record_of s.now)) len }
{
    let shape = Shape::of(s);
    if 5 * shape.value_count() <= len {
        return true;
    }
    record_length(s, shape) <= len
}

// ---- the record

// Writes the words of a part that are shown as they are from `at` on, and answers the place after them.
fn save_plain(buf: &mut [u8], at: usize, s: &State, part: Part) -> usize
    requires { Inside part × Small s.now part × (plain part.kind ≡ true) × (at + length (slot_bytes s.now (slots_in part)) ≤ length buf.old) }
    ensures { Wrote buf.old at (slot_bytes s.now (slots_in part)) result buf.new }
{
    let words = part.words(s);
    let mut next = at;
    for i in 0..words.len() {
        next = write_number(buf, next, word_at(words, i));
    }
    next
}

// Writes the values of a part from `at` on, and answers the place after them.
fn save_part(buf: &mut [u8], at: usize, s: &State, part: Part) -> usize
    requires { Inside part × Small s.now part × (at + length (slot_bytes s.now (slots_in part)) ≤ length buf.old) }
    ensures { Wrote buf.old at (slot_bytes s.now (slots_in part)) result buf.new }
{
    if part.kind.is_plain() {
        return save_plain(buf, at, s, part);
    }
    let words = part.words(s);
    let mut next = at;
    for word in words {
        next = write_number(buf, next, part.kind.value_of(*word));
    }
    next
}

// Writes the record at the front of a buffer that has room for it, and answers its length.
fn save_record(buf: &mut [u8], s: &State) -> usize
    requires { Stopped s.now × (length (record_of s.now) ≤ length buf.old) }
    ensures { Wrote buf.old 0 (record_of s.now) result buf.new × (result ≤ 8210) }
{
    let shape = Shape::of(s);
    let mut next = 0;
    for k in 0..shape.part_count() {
        next = save_part(buf, next, s, shape.part_at(k));
    }
    next
}

// 14 not sound; 16 not initialised or running; 28 no room in `len` bytes.
#[tactic(auto, using(state::proofs::Admitted::inside))]
fn check_save(s: &State, len: usize) -> Result<(), Errno>
    ensures { result ≡ first_failing ((sound s.now, Efault) ∷ save_checks s.now len) }
{
    if !is_sound(s) {
        return Err(Errno::Efault);
    }
    if !in_phase(s, Phase::Stopped) {
        return Err(Errno::Ebusy);
    }
    if !has_room(s, len) {
        return Err(Errno::Enospc);
    }
    Ok(())
}

// Fills the front of a buffer with the record. The answer is the record's length.
pub fn fill(s: &[u32], buf: &mut [u8]) -> Result<u32, Errno>
    ensures { Does (call (save buf.old) s.now) (number result) s.now (buf.new ∷ []) × (front_length result ≤ length buf.new) }
{
    let Some(s) = s.as_array::<STATE_LENGTH>() else {
        return Err(Errno::Efault);
    };
    check_save(s, buf.len())?;
    Ok(save_record(buf, s) as u32)
}

// The length of the front part that save hands back: the record's, or 0 where it was refused.
pub fn front_length(answer: Result<u32, Errno>) -> usize
    ensures { result ≡ front_length answer }
{
    match answer {
        Ok(n) => n as usize,
        Err(_) => 0,
    }
}
