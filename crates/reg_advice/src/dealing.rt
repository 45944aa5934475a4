//! How the accounts of a book and the instructions of a day are dealt out to regions.

ghost use Rattle.std.specs.Prelude.{◌≡◌, IfOk};
ghost use Rattle.reg_base.specs.Rising.{count_up};

use reg_base::NoMemory;
use reg_book::Indexes;
use std::alloc::Global;

/// Two indexes of a list whose elements are swapped, each counted from 0.
#[derive(Clone, Copy, Debug, PartialEq, Eq, Drop)]
pub struct Swap {
    /// The one.
    pub one: u32,
    /// The other.
    pub other: u32,
}

/// What a region has to do.
#[derive(Drop)]
pub struct Deal {
    /// The places of its instructions, counted from 1. They rise.
    pub places: Vec<u32>,
    /// For each of these instructions where its accounts stand in the region.
    pub indexes: Vec<Indexes>,
}

impl Deal {
    /// All of so many instructions, with where the accounts of each stand.
    ///
    /// # Errors
    /// `NoMemory` if memory ran out.
    pub fn of_all(alloc: Global, count: u32, indexes: Vec<Indexes>) -> Result<Deal, NoMemory>
        ensures places { IfOk result (λ d. d.places.items ≡ count_up 1 count) }
        ensures indexes { IfOk result (λ d. d.indexes ≡ indexes) }
    {
        let places = all_places(alloc, count)?;
        Ok(Deal { places, indexes })
    }
}

// The places 1 to this one.
fn all_places(alloc: Global, count: u32) -> Result<Vec<u32>, NoMemory>
    ensures { IfOk result (λ places. places.items ≡ count_up 1 count) }
{
    let mut places = Vec::with_capacity(alloc, count as usize)?;
    for before in 0..count {
        places.push(before + 1)?;
    }
    Ok(places)
}

/// Regions, and the swaps after which the accounts of each stand together. Nothing is promised of it: who uses it tests
/// it first.
#[derive(Drop)]
pub struct Dealing {
    /// For each list the region that it becomes a part of, counted from 0.
    pub joins: Vec<u32>,
    /// The swaps, in their order. Each brings an account into the region to which its instructions are dealt.
    pub swaps: Vec<Swap>,
    /// What each region has to do, one region behind the other.
    pub deals: Vec<Deal>,
}
