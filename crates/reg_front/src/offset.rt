//! The offset from which a file is read, as Linux tells it in a text.

ghost use Rattle.std.specs.Prelude.{◌≡◌, ◌≤◌, IfSome, length};
ghost use Rattle.std.specs.Str.Parse.{IsNumeral, without_leading_plus};
ghost use Rattle.reg_front.specs.Ranges.{TellsOffset, most_offset_line, word_number};

use memchr::memchr;
use std::io::Read;

// The number that a word spells.
fn read_word(word: &[u8]) -> Option<u64>
    ensures numeral { IfSome result (λ offset. IsNumeral 10 (without_leading_plus word.now)) }
    ensures value { IfSome result (λ offset. offset ≡ word_number word.now) }
{
    str::from_utf8(word).ok()?.parse().ok()
}

// The offset that a text tells in its first line.
fn offset_told(text: &[u8]) -> Option<u64>
    ensures { IfSome result (λ offset. TellsOffset text.now offset) }
{
    let line = text.strip_prefix(b"pos:\t")?;
    let end = memchr(b'\n', line)?;
    read_word(&line[..end])
}

/// The offset that a text tells in its first line, for which the room has space.
pub(crate) fn read_offset<S: Read>(state: &mut S, room: &mut [u8]) -> Option<u64>
    requires { most_offset_line ≤ length room.old }
    ensures { IfSome result (λ offset. IfSome (S.remaining state.old) (λ text. TellsOffset text offset)) }
{
    let Ok(count) = state.read(room) else {
        return None;
    };
    offset_told(&room[..count])
}
