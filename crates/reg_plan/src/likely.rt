//! For each touch the likely slot of its account.

use crate::arrow::Touch;
use crate::touched::Touched;
use reg_base::NoMemory;
use std::alloc::Global;

/// The likely slots of the accounts that an instruction touches, in their order. The slot of an account is the index of
/// its opening in a plan, counted from 0. Nothing is promised of them: whoever takes one tests whether it is the
/// account's.
#[derive(Clone, Copy)]
pub struct LikelySlots<'a> {
    slots: &'a [u32],
    first: usize,
}

impl<'a> LikelySlots<'a> {
    // The slots of a list from the index `first` on. Behind those of one instruction stand those of the next.
    pub(crate) fn from(slots: &'a [u32], first: usize) -> LikelySlots<'a> {
        LikelySlots { slots, first }
    }

    /// The slot of the account at this index of the footprint, counted from 0. Behind the last account the answer is of
    /// no use.
    pub fn at(&self, position: usize) -> u32 {
        match self.slots.get(self.first.saturating_add(position)) {
            Some(slot) => *slot,
            None => 0,
        }
    }

    /// The slot of the first account, which is then left out.
    pub fn next(&mut self) -> u32 {
        let slot = self.at(0);
        self.first = self.first.saturating_add(1);
        slot
    }
}

/// For each account that an instruction touches, one instruction after another, its likely slot, by the touches in the
/// order of accounts.
///
/// # Errors
/// `NoMemory` if memory ran out.
pub(crate) fn find_slots(
    alloc: Global,
    touched: &Touched,
    touches: &[Touch],
) -> Result<Vec<u32>, NoMemory> {
    let mut slots = vec![in alloc; 0u32; touched.count()]?;
    let Some(first) = touches.first() else {
        return Ok(slots);
    };
    let mut account = first.account;
    let mut slot: u32 = 0;
    for touch in touches {
        if touch.account != account {
            slot = slot.saturating_add(1);
            account = touch.account;
        }
        if let Some(found) = slots.get_mut(touched.likely_index(*touch)) {
            *found = slot;
        }
    }
    Ok(slots)
}
