//! The arrows of one place, among arrows that are sorted by one of their ends.

ghost use Rattle.std.specs.Prelude.{◌≡◌, ◌≤◌, true, length};
ghost use Rattle.std.specs.List.Sorted.{IsNonDecreasingBy};
ghost use Rattle.reg_plan.specs.Ends.{end_at, with_end, AreBefore};

use crate::arrow::Arrow;
use reg_base::NoMemory;
use std::alloc::Global;

/// One end of an arrow.
#[derive(Clone, Copy)]
pub(crate) enum End {
    Head,
    Tail,
}

impl End {
    // The place at this end of an arrow.
    fn of(self, arrow: &Arrow) -> u32
        ensures { result ≡ end_at self arrow.now }
    {
        match self {
            End::Head => arrow.to,
            End::Tail => arrow.from,
        }
    }
}

/// For each place, how many arrows have this end before it. Nothing is promised of them: whoever takes one tests
/// whether it is right.
///
/// # Errors
/// `NoMemory` if memory ran out.
pub(crate) fn likely_counts(
    alloc: Global,
    end: End,
    arrows: &[Arrow],
    places: usize,
) -> Result<Vec<u32>, NoMemory> {
    let mut counts = vec![in alloc; 0u32; places.saturating_add(2)]?;
    for arrow in arrows {
        let behind = (end.of(arrow) as usize).saturating_add(1);
        if let Some(count) = counts.get_mut(behind) {
            *count = count.saturating_add(1);
        }
    }
    let mut sum: u32 = 0;
    for count in counts.iter_mut() {
        sum = sum.saturating_add(*count);
        *count = sum;
    }
    Ok(counts)
}

// The likely count of a place.
fn likely_at(counts: &[u32], place: usize) -> usize {
    match counts.get(place) {
        Some(count) => *count as usize,
        None => 0,
    }
}

// Whether so many arrows have the end before the place, and no later arrow does: the neighbours at that position tell.
fn are_before(arrows: &[Arrow], end: End, place: u64, count: usize) -> bool
    requires { IsNonDecreasingBy (end_at end) arrows.now }
    ensures within { result ≡ true → count ≤ length arrows.now }
    ensures before { result ≡ true → AreBefore end place arrows.now count }
{
    if count > arrows.len() {
        return false;
    }
    if count > 0 && u64::from(end.of(&arrows[count - 1])) >= place {
        return false;
    }
    count == arrows.len() || u64::from(end.of(&arrows[count])) >= place
}

// How many arrows have the end before the place. If the likely count is right, two comparisons show it.
fn count_before(arrows: &[Arrow], end: End, place: u64, likely: usize) -> usize
    requires { IsNonDecreasingBy (end_at end) arrows.now }
    ensures within { result ≤ length arrows.now }
    ensures before { AreBefore end place arrows.now result }
{
    if are_before(arrows, end, place, likely) {
        return likely;
    }
    arrows.partition_point(|arrow| u64::from(end.of(arrow)) < place)
}

/// The arrows that have this end at the place, among arrows that are sorted by it. `likely` are the likely counts of
/// the places; if they are right, the time does not depend on the number of arrows, and else it is logarithmic in it.
pub(crate) fn with_end<'a>(arrows: &'a [Arrow], end: End, likely: &[u32], place: u32) -> &'a [Arrow]
    requires { IsNonDecreasingBy (end_at end) arrows.now }
    ensures { result.now ≡ with_end end arrows.now place }
{
    let at = place as usize;
    let first = count_before(arrows, end, u64::from(place), likely_at(likely, at));
    let next = count_before(arrows, end, u64::from(place) + 1, likely_at(likely, at + 1));
    let rest = &arrows[first..];
    &rest[..next - first]
}
