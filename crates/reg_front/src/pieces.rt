//! Writing a text that lies in pieces. They are never put together.

ghost use Rattle.std.specs.Prelude.{◌++◌, OnErr, OnOk};
ghost use Rattle.reg_text.specs.Pieces.{text_of_pieces};
ghost use Rattle.reg_front.specs.Streams.{CanFail};
ghost use Rattle.reg_front.specs.Devices.{FailsToWrite, HandsOn, Writes};

use crate::device::{put_all, write_all};
use crate::stream::{CallFailed, Sink};

// Writes the pieces of a text, one after another, and does not flush the writer.
fn put_pieces<W: Sink>(writer: &mut W, pieces: &[Vec<u8>]) -> Result<(), CallFailed>
    requires { CanFail (W.stream writer.old) }
    ensures ok { OnOk result (Writes (text_of_pieces pieces.now) (W.stream writer.old) (W.stream writer.new)) }
    ensures err { OnErr result (FailsToWrite (text_of_pieces pieces.now) (W.stream writer.old) (W.stream writer.new)) }
{
    for piece in pieces {
        let Ok(()) = put_all(writer, piece) else {
            return Err(CallFailed);
        };
    }
    Ok(())
}

/// Writes the pieces of a text, one after another, then the end of the text, and flushes the writer.
///
/// # Errors
/// [`CallFailed`] if a call of `write` or `flush` fails; there is no second try. The writer has then taken a prefix of
/// the text, possibly all of it.
pub(crate) fn write_pieces<W: Sink>(
    writer: &mut W,
    pieces: &[Vec<u8>],
    end: &[u8],
) -> Result<(), CallFailed>
    requires { CanFail (W.stream writer.old) }
    ensures ok { OnOk result
        (HandsOn (text_of_pieces pieces.now ++ end.now) (W.stream writer.old) (W.stream writer.new)) }
    ensures err { OnErr result
        (FailsToWrite (text_of_pieces pieces.now ++ end.now) (W.stream writer.old) (W.stream writer.new)) }
{
    let Ok(()) = put_pieces(writer, pieces) else {
        return Err(CallFailed);
    };
    let Ok(()) = write_all(writer, end) else {
        return Err(CallFailed);
    };
    Ok(())
}
