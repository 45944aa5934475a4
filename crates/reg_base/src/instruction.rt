//! Instructions.

ghost use Rattle.std.specs.Prelude.{◌≡◌, ◌&&◌, ◌++◌, true, All};
ghost use Rattle.std.specs.Option.{option_map_or, option_to_list};
ghost use Rattle.std.specs.List.{list_all};
ghost use Rattle.reg_base.specs.Acts.{parties_of, other_known};
ghost use Rattle.reg_base.specs.Directory.{is_known};
ghost use Rattle.reg_base.specs.Footprint.{footprint};
ghost use Rattle.reg_base.specs.Instructions.{IsInstruction};

use crate::act::Act;
use crate::directory::Directory;
use crate::footprint::Footprint;
use crate::movement::Movement;
use crate::numbers::{AccountNo, Day, UserNo};
use crate::shares::Share;

/// An instruction: which user proposed which act, on which date, and which user approved it, if one did.
#[derive(Clone, Copy, Debug, PartialEq, Eq)]
pub struct Instruction {
    /// The date on which it was proposed.
    pub proposed: Day,
    /// The user who proposed it.
    pub proposer: UserNo,
    /// The user who approved it, if there is one.
    pub approver: Option<UserNo>,
    /// What it asks for.
    pub act: Act,
}

impl Instruction {
    /// The accounts that the instruction reads or changes: its act's first account and those that receive, each
    /// once. The footprint is empty if one of them is not in the directory, or if [`Movement::also_known`] is not.
    pub fn touches(&self, directory: &Directory) -> Footprint
        ensures { result ≡ footprint directory.now self.now.act }
    {
        let movement = self.act.movement();
        if knows_all(directory, &movement) {
            movement.parties()
        } else {
            Footprint::none()
        }
    }

    /// Each number in an instruction is within its range. This method does nothing when it runs. A function whose
    /// proof needs this fact calls it.
    pub fn is_within_limits(&self)
        ensures { IsInstruction self.now }
    {
        know_instruction(self);
    }
}

// Whether each account that has to be in the directory is there.
fn knows_all(directory: &Directory, movement: &Movement) -> bool
    ensures { result ≡ list_all (is_known directory.now)
        (parties_of movement.now ++ option_to_list (other_known movement.now.change)) }
{
    knows_parties(directory, movement) && knows_other(directory, movement.also_known())
}

// Whether the first account is in the directory, and each that receives.
fn knows_parties(directory: &Directory, movement: &Movement) -> bool
    ensures { result ≡ (is_known directory.now movement.now.first
        && list_all (λ share. is_known directory.now share.to) movement.now.shares) }
{
    directory.find(movement.first).is_some() && knows_each(directory, movement.shares.as_slice())
}

// Whether the account is in the directory, if there is one that has to be.
fn knows_other(directory: &Directory, other: Option<AccountNo>) -> bool
    ensures { result ≡ option_map_or (is_known directory.now) other true }
{
    match other {
        Some(other) => directory.find(other).is_some(),
        None => true,
    }
}

fn knows_each(directory: &Directory, shares: &[Share]) -> bool
    ensures { result ≡ list_all (λ share. is_known directory.now share.to) shares.now }
{
    shares
        .iter()
        .all(|share| directory.find(share.to).is_some())
}

// Reads each number in these instructions, so that a proof knows its range.
pub(crate) fn know_instructions(instructions: &[Instruction])
    ensures { All IsInstruction instructions.now }
{
    for instruction in instructions {
        know_instruction(instruction);
    }
}

fn know_instruction(instruction: &Instruction)
    ensures { IsInstruction instruction.now }
{
    instruction.proposed.get();
    instruction.proposer.get();
    if let Some(approver) = instruction.approver {
        approver.get();
    }
    instruction.act.movement().know_numbers();
}
