//! Where a file is cut into pieces: in front of rows, and so that each piece takes about equally long to read. Nothing
//! is promised of these places.

use crate::ranges::ReadAt;
use reg_text::find_row;
use std::alloc::Global;

// A row that begins a piece is looked for in so many bytes at once, and so often: an account may have 4,096 rows.
const WINDOW: usize = 4 * 1024;

const MOST_WINDOWS: u64 = 64;

// A file is weighed at so many places, by the rows that begin in the next bytes there.
const STRETCHES: u64 = 64;

const GLANCE: usize = 1024;

// How long a row takes to read: an instruction, and any other row, whatever it says. They were measured.
const INSTRUCTION: u64 = 4;

const OTHER: u64 = 3;

// The offset of the first row behind this one with which a piece may begin, if it is near.
fn find_cut<F: ReadAt>(file: &F, offset: u64) -> Option<u64> {
    for window in 0..MOST_WINDOWS {
        let near = offset.checked_add(window.checked_mul(WINDOW as u64)?)?;
        if let Some(row) = find_row_near(file, near) {
            return near.checked_add(row as u64);
        }
    }
    None
}

// How many bytes behind an offset such a row begins, if it is in the next ones.
fn find_row_near<F: ReadAt>(file: &F, offset: u64) -> Option<usize> {
    let mut window = [0; WINDOW];
    let count = file.read_at(offset, &mut window)?;
    find_row(&window[..count])
}

// How long the rows that begin behind the first byte of a part of a text take to read.
fn weight_of(part: &[u8]) -> u64 {
    let mut rows = part.split(|byte| *byte == b'\n');
    let _ = rows.next();
    let mut weight: u64 = 0;
    for row in rows {
        let own = if row.starts_with(b"do,") {
            INSTRUCTION
        } else {
            OTHER
        };
        weight = weight.saturating_add(own);
    }
    weight
}

// How long so many bytes behind an offset take to read, if the rows of all are as the first ones.
fn weight_at<F: ReadAt>(file: &F, offset: u64, size: u64) -> u64 {
    let mut room = [0; GLANCE];
    match file.read_at(offset, &mut room) {
        Some(count) => weight_of(&room[..count]).saturating_mul(size) / (count as u64).max(1),
        None => 0,
    }
}

// The weight of each stretch of so many bytes of a file, and of all stretches together.
fn weigh<F: ReadAt>(alloc: Global, file: &F, from: u64, size: u64) -> Option<(Vec<u64>, u64)> {
    let mut weights = Vec::new(alloc);
    let mut all: u64 = 0;
    for stretch in 0..STRETCHES {
        let weight = weight_at(
            file,
            from.saturating_add(size.saturating_mul(stretch)),
            size,
        );
        all = all.saturating_add(weight);
        weights.push(weight).ok()?;
    }
    Some((weights, all))
}

// How many bytes of a file have together this share of the weight of all, if its stretches of so many bytes have these
// weights.
fn bytes_for(weights: &[u64], size: u64, share: u64) -> u64 {
    let mut left = share;
    let mut bytes: u64 = 0;
    for weight in weights {
        let whole = (*weight).max(1);
        bytes = bytes.saturating_add(size.saturating_mul(left.min(whole)) / whole);
        left = left.saturating_sub(whole);
    }
    bytes
}

/// Offsets at which the pieces of so many bytes of a file may begin, except the first one. `None` if no row is near one
/// of them, or if memory ran out.
pub(crate) fn find_cuts<F: ReadAt>(
    alloc: Global,
    file: &F,
    from: u64,
    length: u64,
    count: u64,
) -> Option<Vec<u64>> {
    let size = length / STRETCHES;
    let (weights, all) = weigh(alloc, file, from, size)?;
    let mut cuts = Vec::new(alloc);
    for piece in 1..count {
        let share = all.saturating_mul(piece) / count.max(1);
        let near = from.saturating_add(bytes_for(&weights, size, share));
        cuts.push(find_cut(file, near)?).ok()?;
    }
    Some(cuts)
}
