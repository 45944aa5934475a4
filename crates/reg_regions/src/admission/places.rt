//! Whether regions have all places of a batch.

ghost use Rattle.std.specs.Prelude.{◌≡◌, ◌++◌, [], ◌∷◌, ℕ, List, All, IfOk, IsTrue, length};
ghost use Rattle.reg_facts.specs.Counting.{times, once};
ghost use Rattle.reg_regions.specs.Homes.{AreMarked, dealt_places};

use reg_advice::Deal;
use reg_base::NoMemory;
use std::alloc::Global;

/// Whether the regions have each of the places 1 to this one once, and no other.
///
/// # Errors
/// `NoMemory` if memory ran out.
pub(crate) fn have_all_places(alloc: Global, count: u32, deals: &[Deal]) -> Result<bool, NoMemory>
    ensures { IfOk result (λ all. IsTrue all
        → (place : ℕ) → times place (dealt_places deals.now) ≡ once count place) }
{
    let mut marks = vec![in alloc; false; count as usize]?;
    Ok(are_dealt_once(&mut marks, deals))
}

// Marks the places of these regions. Whether each of the places was marked once, and there is no other.
fn are_dealt_once(marks: &mut [bool], deals: &[Deal]) -> bool
    requires { AreMarked [] marks.old }
    ensures { IsTrue result → (place : ℕ) → times place (dealt_places deals.now) ≡ once (length marks.old) place }
{
    for deal in deals {
        if !mark_while_new(marks, &deal.places) {
            return false;
        }
    }
    are_set(marks)
}

fn are_set(marks: &[bool]) -> bool
    ensures { IsTrue result → All (λ mark. IsTrue mark) marks.now }
{
    for mark in marks {
        if !*mark {
            return false;
        }
    }
    true
}

// Marks these places, up to the first that is none, or is marked already. Whether there is no such one.
fn mark_while_new(marks: &mut [bool], places: &[u32]) -> bool
    ensures size { length marks.new ≡ length marks.old }
    ensures marked { IsTrue result
        → (done : List ℕ) → AreMarked done marks.old → AreMarked (done ++ places.now) marks.new }
{
    for place in places {
        if !mark_if_new(marks, *place) {
            return false;
        }
    }
    true
}

// Marks a place, if it is one and is not marked already. Answers whether it has marked it.
fn mark_if_new(marks: &mut [bool], place: u32) -> bool
    ensures size { length marks.new ≡ length marks.old }
    ensures marked { IsTrue result
        → (done : List ℕ) → AreMarked done marks.old → AreMarked (done ++ place ∷ []) marks.new }
{
    if place < 1 {
        return false;
    }
    let index = place as usize - 1;
    if index >= marks.len() {
        return false;
    }
    if marks[index] {
        return false;
    }
    marks[index] = true;
    true
}
