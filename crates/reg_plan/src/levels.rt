//! The level of each place: 1 more than how many instructions have to come before it, one after another.

ghost use Rattle.std.specs.Prelude.{◌≡◌, ◌≤◌, All, IfOk, length};
ghost use Rattle.std.specs.List.Sorted.{IsNonDecreasingBy};
ghost use Rattle.reg_base.specs.declared.limits.TheConstants.{MOST_INSTRUCTIONS};
ghost use Rattle.reg_plan.specs.Plans.{IsBetween, AreLevels};

use crate::arrow::Arrow;
use reg_base::NoMemory;
use std::alloc::Global;

// The level of each of so many places, by arrows in the order of their heads.
pub(crate) fn find_levels(
    alloc: Global,
    arrows: &[Arrow],
    places: usize,
) -> Result<Vec<u32>, NoMemory>
    requires by_head { IsNonDecreasingBy (λ arrow. arrow.to) arrows.now }
    requires between { All (IsBetween places) arrows.now }
    requires few { places ≤ MOST_INSTRUCTIONS }
    ensures size { IfOk result (λ levels. length levels.items ≡ places) }
    ensures levels { IfOk result (λ levels. AreLevels arrows.now levels.items) }
{
    let mut levels = vec![in alloc; 1u32; places]?;
    raise(&mut levels, arrows);
    Ok(levels)
}

// Raises each head above its tails: an arrow's tail has its level before, since no later arrow leads to it.
fn raise(levels: &mut [u32], arrows: &[Arrow])
    requires by_head { IsNonDecreasingBy (λ arrow. arrow.to) arrows.now }
    requires between { All (IsBetween (length levels.old)) arrows.now }
    requires few { length levels.old ≤ MOST_INSTRUCTIONS }
    requires one { All (λ level. level ≡ 1) levels.old }
    ensures { AreLevels arrows.now levels.new }
{
    for arrow in arrows {
        let level = levels[arrow.from as usize - 1] + 1;
        let head = arrow.to as usize - 1;
        levels[head] = levels[head].max(level);
    }
}
