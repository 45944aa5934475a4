//! A use of `reg_regions`.

ghost use Rattle.reg_regions.specs.Laws.{RegionEndsAsTheDay};

use reg_regions::region_is_as_the_day;

/// Settled alone, the accounts of a region end as the day leaves them.
pub fn a_region_ends_as_the_day()
    ensures { RegionEndsAsTheDay }
{
    region_is_as_the_day();
}
