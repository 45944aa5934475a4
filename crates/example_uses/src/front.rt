//! A use of `reg_front`.

ghost use Rattle.std.specs.Prelude.{Some, OnOk};
ghost use Rattle.reg_front.specs.Streams.{CanFail};
ghost use Rattle.reg_front.specs.Runs.{WritesText};
ghost use Rattle.reg_front.specs.declared.command.Command.TheVariants.{Totals};

use reg_front::{Command, Counted, FrontFault, Sink, run};
use std::alloc::Global;
use std::thread::Threads;

/// Settles the day of a text, and writes the totals after it.
///
/// # Errors
/// As [`run`].
pub fn write_totals<T: Threads + Sync, W: Sink>(
    rt: &T,
    alloc: Global,
    text: &[u8],
    writer: &mut W,
) -> Result<(), FrontFault>
    requires { CanFail (W.stream writer.old) }
    ensures { OnOk result (WritesText Totals (Some text.now) (W.stream writer.old).bytes
        (W.stream writer.new).bytes) }
{
    let mut reader = Counted::new(text);
    run(rt, alloc, &mut reader, writer, Command::Totals)
}
