//! The line that tells of a fault.

ghost use Rattle.std.specs.Prelude.{◌≡◌, ◌≤◌, ◌<◌, length};
ghost use Rattle.arrayvec.specs.ArrayString.{array_string_len};
ghost use Rattle.reg_text.specs.Causes.{cause_name};
ghost use Rattle.reg_front.specs.Streams.{CanFail};
ghost use Rattle.reg_front.specs.Lines.{IsTold, fault_text, faulty_row_text};
ghost use Rattle.reg_front.specs.declared.line.TheConstants.{ROOM};

use crate::device::write_all;
use crate::fault::FrontFault;
use crate::stream::{CallFailed, Sink};
use arrayvec::ArrayString;
use itoa::Buffer;
use reg_text::Cause;

// More bytes than the longest line has.
const ROOM: usize = 64;

fn name_of(cause: Cause) -> &'static str
    ensures name { result.now ≡ cause_name cause }
    ensures short { length result.now ≤ 8 }
{
    cause.name()
}

fn row_text_of(row: u64, cause: Cause) -> ArrayString<ROOM>
    ensures text { result.bytes ≡ faulty_row_text row cause }
    ensures room { array_string_len result < ROOM }
{
    let mut digits = Buffer::new();
    let mut text = ArrayString::new();
    text.push_str("row ");
    text.push_str(digits.format(row));
    text.push_str(": ");
    text.push_str(name_of(cause));
    text
}

fn fixed(words: &str) -> ArrayString<ROOM>
    requires { length words.now < ROOM }
    ensures text { result.bytes ≡ words.now }
    ensures room { array_string_len result < ROOM }
{
    let mut text = ArrayString::new();
    text.push_str(words);
    text
}

/// What the line of a fault says, without its end.
pub(crate) fn text_of(fault: FrontFault) -> ArrayString<ROOM>
    ensures text { result.bytes ≡ fault_text fault }
    ensures room { array_string_len result < ROOM }
{
    match fault {
        FrontFault::Row { row, cause } => row_text_of(row, cause),
        FrontFault::Read => fixed("read failed"),
        FrontFault::Workers => fixed("workers must be 1 to 8"),
        FrontFault::NoAccount => fixed("no such account"),
        FrontFault::NoThread => fixed("no thread"),
        FrontFault::NoMemory => fixed("out of memory"),
        FrontFault::WriteFailed => fixed("write failed"),
    }
}

/// Writes the line of a fault, with its end, and flushes the writer. If a call of the writer fails, it has then taken a
/// prefix of the line, and there is no second try.
pub fn tell_fault<F: Sink>(fault: FrontFault, faults: &mut F)
    requires { CanFail (F.stream faults.old) }
    ensures { IsTold fault (F.stream faults.old) (F.stream faults.new) }
{
    let mut line = text_of(fault);
    line.push('\n');
    match write_all(faults, line.as_str().as_bytes()) {
        Ok(()) => (),
        Err(CallFailed) => (),
    }
}
