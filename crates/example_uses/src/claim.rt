//! A use of `reg_claim`.

ghost use Rattle.std.specs.Prelude.{◌≡◌, IfOk, true, false};

use reg_claim::{ClaimTable, NoMemory};
use std::alloc::Global;

/// Claims the one place of a table twice, and finishes it. Answers both claims, and how many places are finished.
///
/// # Errors
/// `NoMemory` if memory ran out.
pub fn claim_twice(alloc: Global) -> Result<(bool, bool, u32), NoMemory>
    ensures { IfOk result (λ seen. seen ≡ (true, false, 1)) }
{
    let (table, mut seat) = ClaimTable::new(alloc, 1)?;
    let first = table.claim(&mut seat, 1);
    let second = table.claim(&mut seat, 1);
    table.finish(&mut seat, 1);
    let tally = table.close(seat);
    Ok((first, second, tally.done))
}
