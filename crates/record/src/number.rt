// Numbers in seven-bit groups, lowest first, high bit meaning more: read from bytes, and written to them.
ghost use Rattle.std.specs.Prelude.{◌≡◌, ◌+◌, ◌≤◌, ◌<◌, length, drop};
ghost use Rattle.std.proofs.lemmas.List.Edits.{sets};
ghost use Rattle.model.specs.Record.{encode};
ghost use Rattle.record.specs.Numbers.{Begins, Resumes, Ends, read_on, told};

// A place in some bytes.
#[derive(Clone, Copy, Debug, PartialEq, Eq)]
pub struct Cursor {
    pub at: usize,
}

// The groups of a number that are read so far: the sum they make, and what a 1 of the next group counts.
#[derive(Clone, Copy, Debug, PartialEq, Eq)]
pub struct Begun {
    pub sum: u32,
    pub unit: u32,
}

// What a 1 of the fifth group counts: no group follows it.
const LAST_UNIT: u32 = 0x1000_0000;

// A number that is read: its value, and the place after it.
#[derive(Clone, Copy, Debug, PartialEq, Eq)]
pub struct Number {
    pub value: u32,
    pub next: Cursor,
}

// Why a number is not read: the bytes end before it does, or it is ill-formed.
#[derive(Clone, Copy, Debug, PartialEq, Eq)]
pub enum Unread {
    Cut(Begun),
    Broken,
}

// ---- reading

// The last group `b` of a number. The form is the shortest, so a group after the first is not 0; the number is at most 2^32 - 1.
fn last_group(begun: Begun, b: u32, next: usize) -> Result<Number, Unread>
    requires { Begins begun × (b < 128) }
    ensures { Ends begun b next result }
{
    if (b == 0) & (begun.unit != 1) {
        return Err(Unread::Broken);
    }
    if (begun.unit == LAST_UNIT) & (b >= 16) {
        return Err(Unread::Broken);
    }
    Ok(Number {
        value: begun.sum + begun.unit * b,
        next: Cursor { at: next },
    })
}

// Reads on from a place, where the first groups of a number are read already.
pub fn read_on(src: &[u8], from: Cursor, mut begun: Begun) -> Result<Number, Unread>
    requires { Begins begun }
    ensures { (told src.now result ≡ read_on begun.sum begun.unit (drop from.at src.now)) × Resumes result }
{
    for i in from.at..src.len() {
        let b = u32::from(src[i]);
        if b < 128 {
            return last_group(begun, b, i + 1);
        }
        if begun.unit == LAST_UNIT {
            return Err(Unread::Broken);
        }
        begun = Begun {
            sum: begun.sum + begun.unit * (b - 128),
            unit: begun.unit * 128,
        };
    }
    Err(Unread::Cut(begun))
}

// The number at a place. Most have one group.
pub fn read_number(src: &[u8], from: Cursor) -> Result<Number, Unread>
    ensures { (told src.now result ≡ read_on 0 1 (drop from.at src.now)) × Resumes result }
{
    let at = from.at;
    if src.len() <= at {
        return Err(Unread::Cut(Begun { sum: 0, unit: 1 }));
    }
    let b = u32::from(src[at]);
    if b < 128 {
        return Ok(Number {
            value: b,
            next: Cursor { at: at + 1 },
        });
    }
    read_on(
        src,
        Cursor { at: at + 1 },
        Begun {
            sum: b - 128,
            unit: 128,
        },
    )
}

// ---- writing

// How many groups `v` has.
pub fn number_length(v: u32) -> usize
    ensures { (result ≡ length (encode v)) × (1 ≤ result) × (result ≤ 5) }
{
    match v {
        0..0x80 => 1,
        0x80..0x4000 => 2,
        0x4000..0x20_0000 => 3,
        0x20_0000..0x1000_0000 => 4,
        _ => 5,
    }
}

// Writes the groups of `v` from `at` on, and answers the place after them.
pub fn write_number(buf: &mut [u8], at: usize, v: u32) -> usize
    requires { at + length (encode v) ≤ length buf.old }
    ensures { (result ≡ at + length (encode v)) × (buf.new ≡ sets buf.old at (encode v)) }
{
    let mut x = v;
    let mut i = at;
    while x >= 128 {
        buf[i] = (x % 128 + 128) as u8;
        x /= 128;
        i += 1;
    }
    buf[i] = x as u8;
    i + 1
}
