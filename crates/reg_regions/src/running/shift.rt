//! The instructions of one region, carried out on its accounts, and who did so.

ghost use Rattle.std.specs.Prelude.{◌≡◌, ◌+◌, ◌≤◌, [], ◌∷◌, ◌++◌, ℕ, List, Bool, IfOk, OnOk};
ghost use Rattle.reg_rules.specs.State.{numbers};
ghost use Rattle.reg_rules.specs.Laws.{IsReady};
ghost use Rattle.reg_base.specs.Rules.{AreRules};
ghost use Rattle.reg_book.specs.Indexes.{index_lists};
ghost use Rattle.reg_regions.specs.Homes.{IsHome, AreHome};
ghost use Rattle.reg_regions.specs.Settling.{IsCarriedOut, IsRun, kept, places_in};

use crate::gate::PlaceGate;
use crate::instruction::Placed;
use reg_account::Account;
use reg_base::{Batch, NoMemory, RecordNo};
use reg_book::Indexes;
use reg_rules::{Reply, Setting, execute_at, step_laws};
use std::alloc::Global;

/// The place of an instruction that was carried out. Only `settle_noted` makes one.
#[derive(Drop)]
pub(crate) struct Carried {
    place: u32,
}

/// What a worker notes of what it carries out: its shift, or nothing.
pub(crate) trait Notes: Drop {
    // The number of the worker.
    ghost worker: { Self → ℕ };

    // Whether places are kept.
    ghost keeps: { Bool };

    // Those that are.
    ghost places: { Self → List ℕ };

    /// The notes of a worker that carried out nothing yet.
    fn begin(alloc: Global, number: u32) -> Self
        ensures worker { worker result ≡ number }
        ensures empty { places result ≡ [] };

    /// The number of the worker, counted from 0.
    fn number(&self) -> u32
        ensures { result ≡ worker self.now };

    /// Notes that the places from here on are those of another region, and whether it came from another worker's deque.
    fn own(&mut self, stolen: bool) -> Result<(), NoMemory>
        ensures worker { worker self.new ≡ worker self.old }
        ensures same { places self.new ≡ places self.old };

    /// Notes a place behind the others, if places are kept.
    fn note(&mut self, carried: Carried) -> Result<(), NoMemory>
        ensures worker { worker self.new ≡ worker self.old }
        ensures noted { OnOk result (places self.new ≡ places self.old ++ kept keeps (carried.place ∷ [])) };
}

/// A region that a worker owned.
#[derive(Clone, Copy, Debug, PartialEq, Eq, Drop)]
pub struct OwnedRegion {
    /// How many places of the worker's shift are those of regions that it owned before.
    pub before: usize,
    /// Whether it came from another worker's deque.
    pub stolen: bool,
}

/// What a worker carried out. A place comes into it by `note` alone, which takes what only `settle_noted` makes: so a
/// shift can't be made of numbers, none can be made of two, and its places stand in the order in which the worker
/// carried them out.
#[derive(Debug, Drop)]
pub struct WorkShift {
    worker: u32,
    places: Vec<u32>,
    regions: Vec<OwnedRegion>,
}

impl WorkShift {
    /// The number of the worker, counted from 0.
    pub fn worker(&self) -> u32
        ensures { result ≡ self.now.worker }
    {
        self.worker
    }

    /// The places of the instructions, counted from 1, in the order in which the worker carried them out.
    pub fn places(&self) -> &[u32]
        ensures { result.now ≡ self.now.places.items }
    {
        &self.places
    }

    /// The regions that the worker owned, in the order in which it took them. Some may have no instructions.
    pub fn regions(&self) -> &[OwnedRegion]
        ensures { result.now ≡ self.now.regions.items }
    {
        &self.regions
    }
}

impl Notes for WorkShift {
    ghost use Rattle.std.specs.Prelude.{true};

    ghost worker = { λ s. s.worker };

    ghost keeps = { true };

    ghost places = { λ s. s.places.items };

    fn begin(alloc: Global, number: u32) -> WorkShift {
        WorkShift {
            worker: number,
            places: Vec::new(alloc),
            regions: Vec::new(alloc),
        }
    }

    fn number(&self) -> u32 {
        self.worker
    }

    fn own(&mut self, stolen: bool) -> Result<(), NoMemory> {
        let before = self.places.len();
        self.regions.push(OwnedRegion { before, stolen })?;
        Ok(())
    }

    fn note(&mut self, carried: Carried) -> Result<(), NoMemory> {
        self.places.push(carried.place)?;
        Ok(())
    }
}

/// The number of a worker that notes nothing.
#[derive(Drop)]
pub(crate) struct NoShift {
    worker: u32,
}

impl Notes for NoShift {
    ghost use Rattle.std.specs.Prelude.{false};

    ghost worker = { λ s. s.worker };

    ghost keeps = { false };

    ghost places = { λ _. [] };

    fn begin(_alloc: Global, number: u32) -> NoShift {
        NoShift { worker: number }
    }

    fn number(&self) -> u32 {
        self.worker
    }

    fn own(&mut self, _stolen: bool) -> Result<(), NoMemory> {
        Ok(())
    }

    fn note(&mut self, _carried: Carried) -> Result<(), NoMemory> {
        Ok(())
    }
}

/// Carries out the instructions at these places, one after another, on accounts that have those that they touch at
/// these indexes. The worker whose notes these are passes the gate before each instruction, and behind it.
///
/// # Errors
/// `NoMemory` if memory ran out.
pub(crate) fn settle_gated<N: Notes, G: PlaceGate>(
    alloc: Global,
    setting: &Setting,
    batch: &Batch,
    places: &[u32],
    indexes: &[Indexes],
    accounts: &mut [Account],
    gate: &G,
    notes: &mut N,
) -> Result<Vec<Placed>, NoMemory>
    requires rules { AreRules setting.now.rules }
    requires ready { IsReady (batch.now.base + 1) accounts.old }
    requires home { AreHome setting.now batch.now (numbers accounts.old) places.now (index_lists indexes.now) }
    ensures run { IfOk result (λ replies. IsRun setting.now batch.now accounts.old accounts.new replies.items) }
    ensures places { IfOk result (λ replies. places_in replies.items ≡ places.now) }
    ensures worker { N.worker notes.new ≡ N.worker notes.old }
    ensures noted { IfOk result
        (λ replies. N.places notes.new ≡ N.places notes.old ++ kept N.keeps (places_in replies.items)) }
{
    step_laws();
    let mut replies = Vec::with_capacity(alloc, places.len())?;
    for (index, place) in places.iter().enumerate() {
        gate.enter(notes.number(), *place);
        let reply = settle_noted(
            alloc,
            setting,
            batch,
            *place,
            &indexes[index],
            accounts,
            notes,
        )?;
        push_reply(&mut replies, *place, reply)?;
        gate.leave(notes.number(), *place);
    }
    Ok(replies)
}

fn push_reply(replies: &mut Vec<Placed>, place: u32, reply: Reply) -> Result<(), NoMemory>
    ensures { OnOk result (replies.new.items ≡ replies.old.items ++ record { place = place; reply = reply } ∷ []) }
{
    if replies.push(Placed { place, reply }).is_err() {
        return Err(NoMemory);
    }
    Ok(())
}

// Carries out the instruction at a place, and notes it. Its accounts are at these indexes.
fn settle_noted<N: Notes>(
    alloc: Global,
    setting: &Setting,
    batch: &Batch,
    place: u32,
    indexes: &Indexes,
    accounts: &mut [Account],
    notes: &mut N,
) -> Result<Reply, NoMemory>
    requires rules { AreRules setting.now.rules }
    requires home { IsHome setting.now batch.now (numbers accounts.old) place indexes.now.items }
    requires ready { IsReady (batch.now.base + place) accounts.old }
    ensures made { IfOk result (λ reply. IsCarriedOut setting.now batch.now place accounts.old accounts.new reply) }
    ensures worker { N.worker notes.new ≡ N.worker notes.old }
    ensures noted { OnOk result (N.places notes.new ≡ N.places notes.old ++ kept N.keeps (place ∷ [])) }
{
    step_laws();
    // (for the proof: the date is within its limits)
    setting.day.get();
    let number = RecordNo::new(batch.base() + u64::from(place)).unwrap();
    let instructions = batch.instructions();
    let index = place as usize - 1;
    let instruction = &instructions[index];
    let movement = instruction.act.movement();
    let reply = execute_at(
        alloc,
        setting,
        &movement,
        number,
        instruction,
        accounts,
        indexes.as_slice(),
    )?;
    notes.note(Carried { place })?;
    Ok(reply)
}
