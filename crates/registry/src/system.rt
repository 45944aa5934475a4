//! What the program asks the system for, besides its streams. No contract can say what a file gives, so the lines of
//! `read_at` and `open_files` are trusted, as those of `main` are.

ghost use Rattle.std.specs.Prelude.{None};

use reg_front::ReadAt;
use std::fs;
use std::fs::File;
use std::os::unix::fs::FileExt;

/// A file of the system.
#[derive(Drop)]
pub(crate) struct SystemFile {
    file: File,
}

impl ReadAt for SystemFile {
    ghost contents = { λ _. None };

    fn read_at(&self, offset: u64, room: &mut [u8]) -> Option<usize> {
        self.file.read_at(room, offset).ok()
    }
}

// How many bytes the file has that is standard input. `None` if it is empty or no file, which nobody may open once
// more, or if the system does not say. Those before the byte from which the program reads count too.
fn file_length(system: &HostRuntime) -> Option<usize> {
    match fs::metadata(system, "/proc/self/fd/0") {
        Ok(found) if found.is_file() && found.len() > 0 => usize::try_from(found.len()).ok(),
        Ok(_) | Err(_) => None,
    }
}

/// The file that is standard input, opened once more by its name among the open files of the program; what Linux tells
/// of it, whose first line is the offset in the file from which the next call of `read` reads; and how many bytes the
/// file has. `None` if standard input is no file, or if the system does not let the program open it.
pub(crate) fn open_files(system: &HostRuntime) -> Option<(SystemFile, File, usize)> {
    let length = file_length(system)?;
    let file = File::open(system, "/proc/self/fd/0").ok()?;
    let state = File::open(system, "/proc/self/fdinfo/0").ok()?;
    Some((SystemFile { file }, state, length))
}
