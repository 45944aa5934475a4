//! Standard input, as the program reads it.

ghost use Rattle.std.specs.Prelude.{◌≡◌, IfSome};
ghost use Rattle.reg_front.specs.Counting.{counted_stream};
ghost use Rattle.reg_front.specs.Ranges.{Agrees};
ghost use Rattle.reg_front.specs.Ranging.{ranged_stream};
ghost use Rattle.registry.specs.Inputs.{typed_reader};

use reg_front::{Counted, Ranged, ReadAt};
use std::io;
use std::io::{IsTerminal, Read, Write};

// What somebody sees who has started the program at a terminal without a text.
const HINT: &str = "reading a day text from the terminal; Ctrl-D ends it";

/// A reader, and who gets notice before the program first waits for it, if somebody types the text.
#[derive(Drop)]
pub(crate) struct Typed<R, W> {
    reader: R,
    faults: W,
    is_hint_due: bool,
}

impl<R: Read, W: Write> Read for Typed<R, W> {
    ghost remaining = { λ typed. R.remaining typed.reader };

    fn read(&mut self, buf: &mut [u8]) -> io::Result<usize> {
        if self.is_hint_due {
            self.is_hint_due = false;
            let _ = writeln!(self.faults, "{HINT}");
        }
        self.reader.read(buf)
    }
}

/// Standard input as a command reads it. At a terminal somebody gets notice before the first call of `read`. If it is a
/// file, which is given with the text that tells its offset in it and the number of bytes that are likely there, it is
/// read in pieces if it is long; anything else comes by one call after another. Nothing is promised of the number.
pub(crate) fn input_of<R: Read + IsTerminal, W: Write, F: ReadAt + Sync + Drop, S: Read + Drop>(
    reader: R,
    notice: W,
    files: Option<(F, S, usize)>,
) -> Ranged<Counted<Typed<R, W>>, F, S>
    requires { IfSome files (λ f. Agrees (R.remaining reader) (F.contents f.0) (S.remaining f.1)) }
    ensures bytes { (ranged_stream (counted_stream (λ typed. R.remaining (typed_reader typed))) result).bytes
        ≡ R.remaining reader }
    ensures failures { (ranged_stream (counted_stream (λ typed. R.remaining (typed_reader typed))) result).failures
        ≡ 0 }
{
    let is_hint_due = reader.is_terminal();
    let source = Counted::new(Typed {
        reader,
        faults: notice,
        is_hint_due,
    });
    match files {
        Some((file, state, length)) => Ranged::new(
            source.expecting(length),
            Some((file, state)),
            length as u64,
        ),
        None => Ranged::new(source, None, 0),
    }
}
