// The lines of a session are run and compared with what they must give.
use crate::answer::write_changes;
use crate::parse::Parts;
use crate::room::Room;
use crate::text::Text;
use std::io;
use std::io::Write;

// A line, with the name of its session and its number.
#[derive(Clone, Copy)]
struct Line<'a> {
    session: &'a str,
    number: u64,
    text: &'a [u8],
}

impl<'a> Line<'a> {
    // Tells what the line answered, or changed.
    fn tell(self, printer: &mut impl Write, what: &[u8], found: &[u8]) -> io::Result<()> {
        let session = self.session;
        let number = self.number;
        write!(printer, "{session}:{number}: ")?;
        printer.write_all(self.text)?;
        printer.write_all(what)?;
        printer.write_all(found)?;
        printer.write_all(b"\n")
    }

    // Whether what was found differs from what is expected; tells it if so.
    fn differs(
        self,
        printer: &mut impl Write,
        expected: &[u8],
        what: &[u8],
        found: &[u8],
    ) -> io::Result<bool> {
        if found == expected {
            return Ok(false);
        }
        self.tell(printer, what, found)?;
        Ok(true)
    }

    // Runs the line, which makes a call; gives whether it differs. The texts of its answers are left in a buffer.
    fn check(
        self,
        printer: &mut impl Write,
        room: &mut Room,
        parts: Parts,
        text: &mut Text,
    ) -> io::Result<bool> {
        let before = room.device;
        room.run(parts.call, text);
        // `ok` is expected, if the line does not say.
        let expected = if parts.answer.is_empty() {
            b"ok"
        } else {
            parts.answer
        };
        let wrong = self.differs(printer, expected, b"\n    answered ", text.as_slice())?;
        if parts.changes.is_empty() {
            return Ok(wrong);
        }
        write_changes(text, &room.device, &before);
        let changed = self.differs(printer, parts.changes, b"\n    changed ", text.as_slice())?;
        Ok(wrong | changed)
    }
}

// Runs the lines of a session on a device just made, and says how many make a call and how many differ.
pub(crate) fn run_session(printer: &mut impl Write, session: &str, text: &[u8]) -> io::Result<()> {
    let mut room = Room::new();
    let mut found = Text::new();
    let mut lines: u64 = 0;
    let mut differ: u64 = 0;
    for (number, text) in (1u64..).zip(text.split(|b| *b == b'\n')) {
        let Some(parts) = Parts::of(text) else {
            continue;
        };
        let line = Line {
            session,
            number,
            text,
        };
        let differs = line.check(printer, &mut room, parts, &mut found)?;
        lines = lines.saturating_add(1);
        differ = differ.saturating_add(u64::from(differs));
    }
    writeln!(printer, "{session}: {lines} lines, {differ} differ")
}
