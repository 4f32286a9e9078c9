// Restore: each number of a record is read, judged and stored before the next; a device whose record is refused is made fresh again.
ghost use Rattle.std.specs.Prelude.{◌≡◌, [], ◌∷◌, ◌+◌, ◌<◌, length};
ghost use Rattle.model.specs.Sound.{sound};
ghost use Rattle.model.specs.Refusals.{first_failing, number};
ghost use Rattle.model.specs.Calls.{Does, call, restore};
ghost use Rattle.model.specs.Demands.{Fresh};
ghost use Rattle.model.specs.declared.Errno.TheVariants.{Efault};
ghost use Rattle.record.specs.Table.{slots, table_of};
ghost use Rattle.record.specs.Walked.{device_checks, cleared, Loads, Clears, Takes, unread_at, end_of};

use crate::number::{Begun, Cursor, Unread, read_number};
use crate::shape::Shape;
use crate::table::Place;
use model::layout::{STATE_LENGTH, State};
use model::{Errno, Phase};
use state::{in_phase, is_fresh, is_sound};

// Why a walk over the bytes of a record stopped.
#[derive(Clone, Copy, Debug, PartialEq, Eq)]
pub enum Stop {
    // The bytes end before the value at a place does: the groups of it that are read.
    Short(Place, Begun),
    // 74 ill-formed, 22 if no device of the target's count and affinities reads so there.
    Fault(Errno),
}

// The number at a place is not read: the bytes end, or it is ill-formed.
#[tactic(auto, unfolding(crate::specs::Walked::unread_at))]
fn stop_at(place: Place, why: Unread) -> Stop
    ensures { result ≡ unread_at place why }
{
    match why {
        Unread::Cut(begun) => Stop::Short(place, begun),
        Unread::Broken => Stop::Fault(Errno::Ebadmsg),
    }
}

// ---- the walk

// The values of a part, from a word of it on: each is read, judged and stored before the next.
fn load_part(
    s: &mut State,
    bytes: &[u8],
    shape: Shape,
    from: Place,
    mut cursor: Cursor,
) -> Result<Cursor, Stop>
    requires { from.part < length (table_of shape) }
    ensures { Loads (table_of shape) bytes.now from cursor.at (from.part + 1) s.old s.new result }
{
    let part = shape.part_at(from.part);
    for j in from.word..part.len {
        let place = Place {
            part: from.part,
            word: j,
        };
        let number = match read_number(bytes, cursor) {
            Ok(number) => number,
            Err(why) => return Err(stop_at(place, why)),
        };
        if !part.takes(s, j, number.value) {
            return Err(Stop::Fault(Errno::Einval));
        }
        part.store(s, j, part.kind.word_of(number.value));
        cursor = number.next;
    }
    Ok(cursor)
}

// The values from a place on.
pub fn load(
    s: &mut State,
    bytes: &[u8],
    shape: Shape,
    from: Place,
    mut cursor: Cursor,
) -> Result<Cursor, Stop>
    ensures { Loads (table_of shape) bytes.now from cursor.at (length (table_of shape)) s.old s.new result }
{
    let mut word = from.word;
    for part in from.part..shape.part_count() {
        cursor = load_part(s, bytes, shape, Place { part, word }, cursor)?;
        word = 0;
    }
    Ok(cursor)
}

// ---- a fresh device as it was

// The fresh words of part `k`.
fn clear_part(s: &mut State, shape: Shape, k: usize)
    requires { k < length (table_of shape) }
    ensures { Clears (table_of shape) k (k + 1) s.old s.new }
{
    let part = shape.part_at(k);
    for j in 0..part.len {
        part.store(s, j, part.fresh_word(j));
    }
}

// The fresh words of all parts.
fn clear(s: &mut State, shape: Shape)
    ensures { s.new ≡ cleared (slots shape.count shape.vcpus) s.old }
{
    for k in 0..shape.part_count() {
        clear_part(s, shape, k);
    }
}

// ---- a whole record

// What a record is refused with: 74 too if bytes follow the last number, or end before it does.
#[tactic(auto, unfolding(crate::specs::Walked::end_of))]
fn end_record(bytes: &[u8], walk: Result<Cursor, Stop>) -> Result<(), Errno>
    ensures { result ≡ end_of bytes.now walk }
{
    match walk {
        Ok(cursor) if cursor.at < bytes.len() => Err(Errno::Ebadmsg),
        Ok(_) => Ok(()),
        Err(Stop::Short(_, _)) => Err(Errno::Ebadmsg),
        Err(Stop::Fault(e)) => Err(e),
    }
}

// Loads a record into a fresh device. Where it is refused, the device is made fresh again, so no word is changed.
fn load_record(s: &mut State, bytes: &[u8]) -> Result<(), Errno>
    requires { Fresh s.old }
    ensures { Takes s.old bytes.now result s.new }
{
    let shape = Shape::of(s);
    let first = Place { part: 0, word: 0 };
    let walk = load(s, bytes, shape, first, Cursor { at: 0 });
    if let Err(e) = end_record(bytes, walk) {
        clear(s, shape);
        return Err(e);
    }
    Ok(())
}

// 14 not sound; 16 not initialised or running; 17 not fresh.
#[tactic(auto, using(state::proofs::Admitted::inside))]
fn check_device(s: &State) -> Result<(), Errno>
    ensures { result ≡ first_failing ((sound s.now, Efault) ∷ device_checks s.now) }
{
    if !is_sound(s) {
        return Err(Errno::Efault);
    }
    if !in_phase(s, Phase::Stopped) {
        return Err(Errno::Ebusy);
    }
    if !is_fresh(s) {
        return Err(Errno::Eexist);
    }
    Ok(())
}

// Restores the device of a record into a fresh one of the same count and affinities.
pub fn restore_device(s: &mut [u32], bytes: &[u8]) -> Result<u32, Errno>
    ensures { Does (call (restore bytes.now) s.old) (number result) s.new (bytes.now ∷ []) }
{
    let Some(s) = s.as_mut_array::<STATE_LENGTH>() else {
        return Err(Errno::Efault);
    };
    check_device(s)?;
    load_record(s, bytes)?;
    Ok(0)
}
