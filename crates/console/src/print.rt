// The answers: `ok`, a read's hex, or `-` and errno in decimal.
ghost use Rattle.std.specs.Prelude.{◌≡◌, ◌++◌, ◌+◌, ◌≤◌, ◌<◌, length, take, drop};
ghost use Rattle.console.specs.Answers.{glyph, number_line, answer_line};

// Copies a text into the buffer from `at` on; gives where it ends.
pub fn append(out: &mut [u8], at: usize, text: &[u8]) -> usize
    requires { at + length text.now ≤ length out.old }
    ensures { (result ≡ at + length text.now) × (take result out.new ≡ take at out.old ++ text.now) }
{
    let end = at + text.len();
    out[at..end].copy_from_slice(text);
    end
}

// The character of a digit.
#[tactic(auto, using(std::proofs::lemmas::Bool::Decides::nat_tests), unfolding(crate::specs::Answers::glyph))]
pub fn glyph_of(d: u64) -> u8
    requires { d < 16 }
    ensures { result ≡ glyph d }
{
    if d < 10 {
        return b'0' + d as u8;
    }
    b'a' + (d - 10) as u8
}

// Puts the digits of a number and a newline at the end of the text; gives where they begin.
fn spell(text: &mut [u8; 21], n: u64, base: u64) -> usize
    requires low { 0 < base }
    requires high { base ≤ 16 }
    ensures spelled { drop result text.new ≡ number_line base n }
    ensures upper_bound { result ≤ 20 }
{
    text[20] = b'\n';
    let mut rest = n;
    for at in (0..20).rev() {
        text[at] = glyph_of(rest % base);
        rest /= base;
        if rest == 0 {
            return at;
        }
    }
    0
}

// Prints a number.
pub fn put_number(out: &mut [u8], at: usize, n: u64, base: u64) -> usize
    requires { (at + 21 ≤ length out.old) × (0 < base) × (base ≤ 16) }
    ensures { (take result out.new ≡ take at out.old ++ number_line base n) × (result ≤ at + 21) }
{
    let mut text = [0u8; 21];
    let from = spell(&mut text, n, base);
    append(out, at, &text[from..])
}

// Prints the answer of a call.
#[tactic(auto, unfolding(crate::specs::Answers::answer_line))]
pub fn put_answer(out: &mut [u8], at: usize, reading: bool, answer: i64) -> usize
    requires { at + 24 ≤ length out.old }
    ensures { (take result out.new ≡ take at out.old ++ answer_line reading answer) × (result ≤ at + 24) }
{
    if answer < 0 {
        let next = append(out, at, b"-");
        put_number(out, next, answer.unsigned_abs(), 10)
    } else if reading {
        put_number(out, at, answer.unsigned_abs(), 16)
    } else {
        append(out, at, b"ok\n")
    }
}
