//! What is true of every region. Each law is the contract of a function that does nothing.

ghost use Rattle.reg_regions.specs.Laws.{RegionIsAsTheDay, RegionEndsAsTheDay, RegionRepliesAsTheDay};
ghost use Rattle.reg_regions.specs.Laws.{RegionKeepsNumbers};
ghost use Rattle.reg_regions.specs.Days.{RegionsAreADay};

use reg_book::{each_is_a_step, stays_ready};
use reg_rules::step_laws;

/// Carrying out the instructions of a region on its own accounts alone is settling the day, as far as these accounts
/// go: after the places up to any one, each account of the region is as it then is on the day, because the instructions
/// between touch nothing here. So are the accounts at the end, and each reply.
pub fn region_is_as_the_day()
    ensures each { RegionIsAsTheDay }
    ensures last { RegionEndsAsTheDay }
    ensures replies { RegionRepliesAsTheDay }
    ensures numbers { RegionKeepsNumbers }
{
    step_laws();
    each_is_a_step();
}

/// If the accounts of a book are dealt out to regions, and the instruction at each place of the day was carried out in
/// one of them, the regions leave what the day leaves: each account is as it then is, and each reply is the day's.
pub fn regions_are_a_day()
    ensures { RegionsAreADay }
{
    step_laws();
    stays_ready();
    region_is_as_the_day();
}
