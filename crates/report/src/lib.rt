// What the programs of cases print: texts, numbers, answers, and words of the state. Each function writes to `out`, and gives the error of a write that failed. Where a writer's bytes are known, each promises the bytes that it adds.
#![tactic(auto)]

ghost use Rattle.std.specs.Prelude.{OnOk};
ghost use Rattle.std.specs.Fmt.{decimal};
ghost use Rattle.std.specs.Io.KnownBytes.{Appends};
ghost use Rattle.model.specs.Refusals.{number};
ghost use Rattle.report.specs.Printed.{hex_field, signed_field, answer_field, word_field, changed_fields};

use calls::{magnitude, number_of};
use model::Errno;
use std::io;
use std::io::Write;

// A text.
pub fn say<W: Write>(out: &mut W, text: &[u8]) -> io::Result<()>
    ensures { OnOk result (Appends (W.contents out.old) (W.contents out.new) text.now) }
{
    out.write_all(text)
}

// A number in decimal.
pub fn say_decimal<W: Write>(out: &mut W, n: u64) -> io::Result<()>
    ensures { OnOk result (Appends (W.contents out.old) (W.contents out.new) (decimal n)) }
{
    write!(out, "{n}")
}

// A space, and a number in hex.
#[tactic(auto, unfolding(crate::specs::Printed::hex_field))]
pub fn say_hex<W: Write>(out: &mut W, n: u64) -> io::Result<()>
    ensures { OnOk result (Appends (W.contents out.old) (W.contents out.new) (hex_field n)) }
{
    write!(out, " {n:x}")
}

// A space, and a refusal or an answer in decimal.
#[tactic(auto, unfolding(crate::specs::Printed::signed_field))]
pub fn say_signed<W: Write>(out: &mut W, r: i64) -> io::Result<()>
    ensures { OnOk result (Appends (W.contents out.old) (W.contents out.new) (signed_field r)) }
{
    write!(out, " {r}")
}

// A space, and the answer: what is read in hex, or the refusal in decimal.
#[tactic(auto, unfolding(crate::specs::Printed::answer_field))]
pub fn say_answer<W: Write>(out: &mut W, r: i64) -> io::Result<()>
    ensures { OnOk result (Appends (W.contents out.old) (W.contents out.new) (answer_field r)) }
{
    if r < 0 {
        say_signed(out, r)
    } else {
        say_hex(out, magnitude(r))
    }
}

// The same, of an answer.
pub fn say_written<W: Write>(out: &mut W, answer: Result<u32, Errno>) -> io::Result<()>
    ensures { OnOk result (Appends (W.contents out.old) (W.contents out.new) (signed_field (number answer))) }
{
    say_signed(out, number_of(answer))
}

// The same, of an answer, with its value in hex.
pub fn say_read<W: Write>(out: &mut W, answer: Result<u32, Errno>) -> io::Result<()>
    ensures { OnOk result (Appends (W.contents out.old) (W.contents out.new) (answer_field (number answer))) }
{
    say_answer(out, number_of(answer))
}

// A word, where it changed, as its place in decimal and its value in hex.
#[tactic(auto, unfolding(crate::specs::Printed::word_field))]
pub fn say_word<W: Write>(out: &mut W, at: usize, word: u32, before: u32) -> io::Result<()>
    ensures { OnOk result (Appends (W.contents out.old) (W.contents out.new) (word_field at word before)) }
{
    if word == before {
        return Ok(());
    }
    write!(out, " {at}:{word:x}")
}

// The words that changed.
pub fn say_changed<W: Write>(out: &mut W, s: &[u32; 1760], before: &[u32; 1760]) -> io::Result<()>
    ensures { OnOk result (Appends (W.contents out.old) (W.contents out.new) (changed_fields 0 s.now before.now)) }
{
    for (at, (word, before)) in s.iter().zip(before).enumerate() {
        say_word(out, at, *word, *before)?;
    }
    Ok(())
}
