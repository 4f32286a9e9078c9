// A line is parsed: a word and hex numbers, one space between.
ghost use Rattle.std.specs.Prelude.{◌≡◌, ◌==◌, [], ◌+◌, ◌<◌, ◌≤◌, length, drop, position, option_map, unwrap_or, IfSome};
ghost use Rattle.console.specs.Text.{space, digit_of, fields, number, numbers, rows, line_in, parsed};
ghost use Rattle.console.specs.Steps.{first};

use crate::Command;
use arrayvec::ArrayVec;

// The characters of a line at most.
const MOST_CHARACTERS: usize = 80;

// A number that is no level and no value of `sw` at most.
const MOST: u64 = 0xffff_ffff;

// The place of the first space.
fn space_in(text: &[u8]) -> Option<usize>
    ensures { result ≡ position (λ b. b == space) text.now }
{
    text.iter().position(|b| *b == b' ')
}

// Where the field that begins at `from` ends: at the next space, or at the end of the line.
pub fn field_end(line: &[u8], from: usize) -> usize
    requires { from ≤ length line.now }
    ensures place { result ≡ from + first (drop from line.now) }
    ensures upper_bound { result ≤ length line.now }
{
    match space_in(&line[from..]) {
        Some(n) => from + n,
        None => line.len(),
    }
}

// The value of a hex digit in lower case; its definition is 16 for any other byte.
#[tactic(auto, using(std::proofs::lemmas::Bool::Decides::nat_tests), unfolding(crate::specs::Text::digit_of))]
pub fn digit_of(b: u8) -> Option<u64>
    ensures value { unwrap_or result 16 ≡ digit_of b }
    ensures upper_bound { IfSome result (λ d. d < 16) }
{
    match b {
        b'0'..=b'9' => Some(u64::from(b - b'0')),
        b'a'..=b'f' => Some(u64::from(b - b'a') + 10),
        _ => None,
    }
}

// 1 to 16 hex digits.
#[tactic(auto, using(crate::proofs::Hex::each_digit), unfolding(crate::specs::Text::number))]
pub fn read_number(field: &[u8]) -> Option<u64>
    ensures { result ≡ number field.now }
{
    if field.is_empty() || field.len() > 16 {
        return None;
    }
    let mut n: u64 = 0;
    for b in field {
        n = n * 16 + digit_of(*b)?;
    }
    Some(n)
}

// The numbers of a text, one space between: up to four.
fn read_numbers(text: &[u8]) -> Option<ArrayVec<u64, 4>>
    ensures { option_map (λ ns. ns.items) result ≡ numbers (Some []) (fields text.now) }
{
    let mut numbers = ArrayVec::new();
    for field in text.split(|b| *b == b' ') {
        numbers.try_push(read_number(field)?).ok()?;
    }
    Some(numbers)
}

// The command of a word with its numbers, if they are in range.
#[tactic(auto, using(crate::proofs::Words::words), unfolding(crate::specs::Text::rows, crate::specs::Text::line_in))]
fn command_of(word: &[u8], numbers: &[u64]) -> Option<Command>
    ensures { result ≡ line_in (rows (Some numbers.now)) word.now }
{
    match (numbers, word) {
        (&[n], b"irqs") if n <= MOST => Some(Command::Irqs(n)),
        (&[a], b"vcpu") if a <= MOST => Some(Command::Vcpu(a as u32)),
        (&[], b"init") => Some(Command::Init),
        (&[v, on], b"run") if v <= MOST && on <= 1 => Some(Command::Run(v as usize, on == 1)),
        (&[v, offset], b"dr") if v <= MOST && offset <= MOST => {
            Some(Command::Dr(v as usize, offset))
        }
        (&[v, offset, x], b"dw") if v <= MOST && offset <= MOST && x <= MOST => {
            Some(Command::Dw(v as usize, offset, x))
        }
        (&[v, f, offset], b"rr") if v <= MOST && f <= MOST && offset <= MOST => {
            Some(Command::Rr(v as usize, f as usize, offset))
        }
        (&[v, f, offset, x], b"rw") if v <= MOST && f <= MOST && offset <= MOST && x <= MOST => {
            Some(Command::Rw(v as usize, f as usize, offset, x))
        }
        (&[v, encoding], b"sr") if v <= MOST && encoding <= MOST => {
            Some(Command::Sr(v as usize, encoding))
        }
        (&[v, encoding, x], b"sw") if v <= MOST && encoding <= MOST => {
            Some(Command::Sw(v as usize, encoding, x))
        }
        (&[v, id, level], b"line") if v <= MOST && id <= MOST && level <= 1 => {
            Some(Command::Line(v as usize, id as usize, level == 1))
        }
        (&[v], b"sig") if v <= MOST => Some(Command::Sig(v as usize)),
        _ => None,
    }
}

// What a line is.
#[tactic(auto, using(crate::proofs::Spaces::a_line), unfolding(crate::specs::Text::rows, crate::specs::Text::line_in))]
pub fn parse_line(line: &[u8]) -> Option<Command>
    ensures { result ≡ parsed line.now }
{
    if line.len() > MOST_CHARACTERS {
        return None;
    }
    let end = field_end(line, 0);
    if end == line.len() {
        return command_of(line, &[]);
    }
    let numbers = read_numbers(&line[end + 1..])?;
    command_of(&line[..end], numbers.as_slice())
}
