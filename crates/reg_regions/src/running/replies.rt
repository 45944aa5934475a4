//! The replies of regions, put into the order of the batch.

ghost use Rattle.std.specs.Prelude.{IfOk};
ghost use Rattle.reg_regions.specs.Dealing.{AreInPlaces, AreLeftOf};
ghost use Rattle.reg_regions.specs.Lists.{joined_lists};

use crate::instruction::Placed;
use reg_advice::numbers::{number_or_zero, put_number, short};
use reg_base::NoMemory;
use reg_rules::Reply;
use std::alloc::Global;
use std::vec::IntoIter;

/// The replies to so many instructions by their places, out of those of regions, of which each has its own by rising
/// place.
///
/// # Errors
/// `NoMemory` if memory ran out.
pub(crate) fn in_places(
    alloc: Global,
    count: u32,
    regions: Vec<Vec<Placed>>,
) -> Result<Vec<Reply>, NoMemory>
    ensures { IfOk result (λ replies. AreInPlaces count (joined_lists regions.items) replies.items) }
{
    let homes = homes_of(alloc, count, &regions)?;
    let mut left = from_the_first(alloc, regions)?;
    let mut replies = Vec::with_capacity(alloc, count as usize)?;
    for before in 0..count {
        // Each place was dealt once, and has a reply: so neither comes.
        let home = number_or_zero(&homes, before) as usize;
        if home >= left.len() {
            return Err(NoMemory);
        }
        let Some(placed) = left[home].next() else {
            return Err(NoMemory);
        };
        // Each place is in one region, and comes there behind those that are lower: so it is this one.
        if placed.place != before + 1 {
            return Err(NoMemory);
        }
        replies.push(placed.reply)?;
    }
    Ok(replies)
}

// Which region has each of so many places.
fn homes_of(alloc: Global, count: u32, regions: &[Vec<Placed>]) -> Result<Vec<u32>, NoMemory> {
    let mut homes = vec![in alloc; 0u32; count as usize]?;
    for (home, region) in regions.iter().enumerate() {
        for placed in region {
            put_number(&mut homes, placed.place.saturating_sub(1), short(home));
        }
    }
    Ok(homes)
}

// The replies of each region, to be taken from the first on.
fn from_the_first(
    alloc: Global,
    regions: Vec<Vec<Placed>>,
) -> Result<Vec<IntoIter<Placed>>, NoMemory>
    ensures { IfOk result (λ left. AreLeftOf (joined_lists regions.items) left.items) }
{
    let mut left = Vec::with_capacity(alloc, regions.len())?;
    for region in regions {
        left.push(region.into_iter())?;
    }
    Ok(left)
}
