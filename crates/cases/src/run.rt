// A line's command is run.
use crate::answer::Answer;
use crate::command::{Act, Call, Command, Question, Transfer, command_of};
use crate::parse::{read_pairs, split_once, word_and_numbers};
use crate::room::{BUFFER, Device, Room};
use crate::text::Text;
use console::parse::read_number;
use model::Errno;

impl Call {
    // Makes the call.
    pub(crate) fn make(self, state: &mut [u32]) -> Result<u32, Errno> {
        match self {
            Call::Make => calls::make(state),
            Call::AddVcpu(mpidr) => calls::add_vcpu(state, mpidr),
            Call::SetRunning(v, on) => calls::set_running(state, v, on),
            Call::ReadDistributor(v, offset, size) => calls::read_distributor(
                state, v, offset, size,
            ),
            Call::WriteDistributor(v, offset, size, x) => calls::write_distributor(
                state, v, offset, size, x,
            ),
            Call::ReadFrame(v, f, offset, size) => calls::read_frame(state, v, f, offset, size),
            Call::WriteFrame(v, f, offset, size, x) => calls::write_frame(
                state, v, f, offset, size, x,
            ),
            Call::ReadSystem(v, encoding) => calls::read_system(state, v, encoding),
            Call::WriteSystem(v, encoding, x) => calls::write_system(state, v, encoding, x),
            Call::ChangeLine(v, id, level) => calls::change_line(state, v, id, level),
            Call::QuerySignal(v) => calls::query_signal(state, v),
            Call::GetAttribute(group, attribute) => calls::get_attribute(state, group, attribute),
            Call::SetAttribute(group, attribute, x) => calls::set_attribute(
                state, group, attribute, x,
            ),
        }
    }
}

// The front part of a buffer that save hands back, or its refusal.
fn save<'a>(device: &Device, buffer: &'a mut [u8]) -> Answer<'a> {
    let mut answer: i64 = 1;
    let front = calls::save(device.state(), buffer, &mut answer);
    if answer < 0 {
        return Answer::Refused(answer);
    }
    Answer::Bytes(front)
}

impl Room {
    // Makes a call with the first n bytes of the buffer.
    fn transfer(&mut self, transfer: Transfer, n: usize, text: &mut Text) -> Option<()> {
        let buffer = self.buffer.get_mut(..n)?;
        let answer = match transfer {
            Transfer::Save => save(&self.device, buffer),
            Transfer::Record => Answer::of_read(calls::fill(self.device.state(), buffer)),
            Transfer::Load => Answer::of_call(self.device.restore(buffer)),
        };
        answer.write(text);
        Some(())
    }

    // Restores bytes that are given as digits.
    fn restore(&mut self, digits: &[u8], text: &mut Text) -> Option<()> {
        let mut record = [0; BUFFER];
        let n = read_pairs(digits, &mut record)?;
        Answer::of_call(self.device.restore(&record[..n])).write(text);
        Some(())
    }

    // Replaces bytes of the buffer, from a place on, by digits behind a space.
    fn replace(&mut self, place_and_digits: &[u8], text: &mut Text) -> Option<()> {
        let (place, digits) = split_once(place_and_digits, b' ')?;
        let at = read_number(place)?;
        read_pairs(digits, self.buffer.get_mut(at as usize..)?)?;
        Answer::Done.write(text);
        Some(())
    }

    // Does what a test wants done.
    fn act(&mut self, act: Act) -> Option<()> {
        match act {
            Act::Length(n) => self.device.lend(n)?,
            Act::Words(x) => self.device.fill(x),
            Act::Poke(at, x) => self.device.set_word(at, x)?,
            Act::Mark => self.mark(),
            Act::Back => self.back(),
            Act::Swap => self.swap(),
            Act::Bytes(x) => self.buffer.fill(x),
        }
        Some(())
    }

    // Answers what a test wants to know.
    fn ask(&self, question: Question, text: &mut Text) -> Option<()> {
        let answer = match question {
            Question::Peek(at) => Answer::Number(self.device.word(at)?),
            Question::Changed => Answer::Changes(&self.device, &self.device_at_mark),
            Question::Differs => Answer::Changes(&self.device, &self.other),
            Question::Show(at, n) => Answer::Bytes(self.shown(at, n)?),
            Question::Touched => Answer::Span(self.touched()),
        };
        answer.write(text);
        Some(())
    }

    // Runs a command.
    fn run_command(&mut self, command: Command, text: &mut Text) -> Option<()> {
        let answer = match command {
            Command::Does(call) => Answer::of_call(self.device.make(call)),
            Command::Reads(call) => Answer::of_read(self.device.make(call)),
            Command::Transfers(transfer, n) => return self.transfer(transfer, n, text),
            Command::Acts(act) => {
                self.act(act)?;
                Answer::Done
            }
            Command::Asks(question) => return self.ask(question, text),
        };
        answer.write(text);
        Some(())
    }

    // Runs a line whose word takes numbers only.
    fn run_numbers(&mut self, line: &[u8], text: &mut Text) -> Option<()> {
        let (word, numbers) = word_and_numbers(line);
        let command = command_of(word, numbers?.as_slice())?;
        self.run_command(command, text)
    }

    // Runs a line without its expectations, and leaves the text of its answer.
    pub(crate) fn run(&mut self, line: &[u8], text: &mut Text) {
        let known = match split_once(line, b' ') {
            Some((b"restore", digits)) => self.restore(digits, text),
            Some((b"byte", place_and_digits)) => self.replace(place_and_digits, text),
            _ => self.run_numbers(line, text),
        };
        if known.is_none() {
            Answer::Unknown.write(text);
        }
    }
}
