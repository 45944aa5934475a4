//! A claim table.

use crate::call::{Call, try_rehearsed};
use crate::digest::digest_of;
use crate::endings::Ended;
use crate::stop::Stop;
use reg_claim::{ClaimTable, NoMemory};
use reg_text::DayInput;
use std::alloc::Global;
use std::io::Write;

// `ClaimTable::new`.
#[derive(Drop)]
struct Making {
    places: u32,
}

impl Call for Making {
    // Closing the table takes no memory.
    fn make(&mut self, alloc: Global) -> Ended {
        match ClaimTable::new(alloc, self.places) {
            Ok((table, seat)) => Ended::Done(digest_of(&table.close(seat))),
            Err(NoMemory) => Ended::NoMemory,
        }
    }
}

/// Tries `ClaimTable::new` for the places of a day.
pub(crate) fn try_table<W: Write>(
    alloc: Global,
    day: &DayInput,
    writer: &mut W,
) -> Result<(), Stop> {
    let mut call = Making {
        places: day.batch.len(),
    };
    try_rehearsed(alloc, day, &mut call, writer)
}
