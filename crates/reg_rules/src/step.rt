//! One step: carrying out an instruction, or refusing it.

ghost use Rattle.std.specs.Prelude.{◌≡◌, ◌+◌, ◌≤◌, ◌++◌, [], Some, None, IfOk, OnOk, OnErr, length, map, nat_eq, All};
ghost use Rattle.std.specs.List.{AllByRecursion, IsDistinct};
ghost use Rattle.std.specs.Option.{option_copied};
ghost use Rattle.reg_base.specs.Acts.{movement_of, parties};
ghost use Rattle.reg_base.specs.Footprint.{footprint};
ghost use Rattle.reg_account.specs.Years.{FigureFits};
ghost use Rattle.reg_rules.specs.State.{numbers, account};
ghost use Rattle.reg_account.specs.Account.{held_by, debited, CanTrust};
ghost use Rattle.reg_account.specs.Rows.{FateFits};
ghost use Rattle.reg_rules.specs.Cases.{effect_day, figure_asked};
ghost use Rattle.reg_rules.specs.Checks.{refusal};
ghost use Rattle.reg_rules.specs.Effect.{made_by, with_changes, changed_by, fate_of, given};
ghost use Rattle.reg_rules.specs.Effect.{new_row as row_of_today, assessed, listed_from, CanMake};
ghost use Rattle.reg_rules.specs.Effect.{CanChange, IsBehind};
ghost use Rattle.reg_rules.specs.Indexed.{accounts_at, StandAt, CanGive};
ghost use Rattle.reg_rules.specs.Step.{step, holdings_of, figure_made};

use crate::checks::judge;
use crate::found::Found;
use crate::indexed::{front, next_at};
use crate::reply::{Closing, HeldNow, Holdings, LogRow, Reply};
use crate::setting::Setting;
use reg_account::{Account, Fate, FigureFault, RetirementRow};
use reg_base::laws::each_footprint_is_sound;
use reg_base::{
    AccountNo, Act, AllowanceKind, Change, Day, Directory, Instruction, Movement, NoMemory,
    RecordNo, Retirement, Rules, Share, Year,
};
use std::alloc::Global;

/// Carries the instruction out, or refuses it. A refused instruction changes nothing and takes no memory.
///
/// `accounts` must be the accounts that the instruction touches, in the order of [`Instruction::touches`]. The record
/// number must be above those of their surrenders and deletions.
///
/// # Errors
/// `NoMemory` if there was no memory for what its accounts then hold, or for what the act adds to its first account. No
/// check fails in this case, and the accounts are unchanged.
pub fn execute(
    alloc: Global,
    rules: &Rules,
    day: Day,
    number: RecordNo,
    instruction: &Instruction,
    directory: &Directory,
    accounts: &mut [Account],
) -> Result<Reply, NoMemory>
    requires own { numbers accounts.old ≡ footprint directory.now instruction.now.act }
    requires behind { All (IsBehind number) accounts.old }
    ensures ok { IfOk result
        (λ reply. (accounts.new, reply)
        ≡ step (record { rules = rules.now; day = day; directory = directory.now }) accounts.old number
        instruction.now) }
    ensures err { OnErr result
        ((accounts.new ≡ accounts.old)
        × (refusal (record { rules = rules.now; day = day; directory = directory.now }) accounts.old instruction.now
        ≡ None)) }
{
    let setting = Setting {
        rules,
        day,
        directory,
    };
    let movement = instruction.act.movement();
    each_footprint_is_sound();
    let indexes = front(accounts, &movement);
    execute_at(
        alloc,
        &setting,
        &movement,
        number,
        instruction,
        accounts,
        indexes,
    )
}

/// Carries the instruction out on a list of accounts that has those that it touches, or refuses it: those are at these
/// indexes, counted from 0, in the order of [`Instruction::touches`]. `movement` must be [`Act::movement`] of the
/// instruction. No account may be in the list twice, and the record number must be above those of the surrenders and
/// deletions of all accounts of the list. All else is as in [`execute`].
///
/// # Errors
/// `NoMemory` if there was no memory for what its accounts then hold, or for what the act adds to its first account. No
/// check fails in this case, and the accounts are unchanged.
pub fn execute_at(
    alloc: Global,
    setting: &Setting,
    movement: &Movement,
    number: RecordNo,
    instruction: &Instruction,
    accounts: &mut [Account],
    indexes: &[u32],
) -> Result<Reply, NoMemory>
    requires movement { movement.now ≡ movement_of instruction.now.act }
    requires once { IsDistinct nat_eq (numbers accounts.old) }
    requires behind { All (IsBehind number) accounts.old }
    requires there { StandAt (numbers accounts.old) indexes.now (footprint setting.now.directory instruction.now.act) }
    ensures ok { IfOk result (λ reply. (accounts.new, reply) ≡ step setting.now accounts.old number instruction.now) }
    ensures err { OnErr result
        ((accounts.new ≡ accounts.old) × (refusal setting.now accounts.old instruction.now ≡ None)) }
{
    let act = &instruction.act;
    each_footprint_is_sound();
    let found = match judge(setting, instruction, movement, accounts, indexes) {
        Ok(found) => found,
        Err(refusal) => {
            return Ok(Reply::Refused(refusal));
        }
    };
    // The room comes first, so that the accounts are as they were if memory runs out.
    let mut room = Holdings::with_capacity(alloc, indexes.len())?;
    apply(setting, number, act, movement, &found, accounts, indexes)?;
    put_each(&mut room, accounts, indexes);
    Ok(Reply::Done {
        closing: Closing::new(room),
        figure: figure_made(movement, accounts, indexes),
    })
}

/// The log row of an instruction, done or refused. Takes no memory.
pub fn log_row(number: RecordNo, day: Day, instruction: Instruction, reply: Reply) -> LogRow
    ensures { result ≡ record { number = number; day = day; instruction = instruction; reply = reply } }
{
    LogRow {
        number,
        day,
        instruction,
        reply,
    }
}

// The effect of an act that no check refuses, on a list that has its accounts at these indexes: the change of the first
// account, and then the shares of the others. Only the first change can run out of memory.
fn apply(
    setting: &Setting,
    number: RecordNo,
    act: &Act,
    movement: &Movement,
    found: &Found,
    accounts: &mut [Account],
    indexes: &[u32],
) -> Result<(), NoMemory>
    requires movement { movement.now ≡ movement_of act.now }
    requires effective { found.now.effective ≡ effect_day setting.now movement.now.change }
    requires figure { found.now.figure
        ≡ figure_asked setting.now.rules movement.now.change
        (account (accounts_at accounts.old indexes.now) movement.now.first) }
    requires fits { IfOk found.now.figure FigureFits }
    requires once { IsDistinct nat_eq (numbers accounts.old) }
    requires there { StandAt (numbers accounts.old) indexes.now (parties act.now) }
    requires apart { IsDistinct nat_eq (parties act.now) }
    requires can { AllByRecursion (CanChange setting.now number act.now) (accounts_at accounts.old indexes.now) }
    ensures ok { OnOk result (accounts.new ≡ map (changed_by setting.now number act.now) accounts.old) }
    ensures err { OnErr result (accounts.new ≡ accounts.old) }
{
    let _act = act;
    match indexes.split_first() {
        None => Ok(()),
        Some((first, receivers)) => {
            let first = *first as usize;
            change_first(
                setting,
                number,
                &movement.change,
                found,
                &mut accounts[first],
            )?;
            give_shares(
                movement.kind,
                movement.shares.as_slice(),
                accounts,
                receivers,
            );
            Ok(())
        }
    }
}

// Makes this change of the first account, with what was found for it.
fn change_first(
    setting: &Setting,
    number: RecordNo,
    change: &Change,
    found: &Found,
    account: &mut Account,
) -> Result<(), NoMemory>
    requires can { CanMake setting.now number change.now account.old }
    requires effective { found.now.effective ≡ effect_day setting.now change.now }
    requires figure { found.now.figure ≡ figure_asked setting.now.rules change.now (Some account.old) }
    requires fits { IfOk found.now.figure FigureFits }
    ensures ok { OnOk result
        (account.new ≡ with_changes account.old (made_by setting.now number change.now account.old)) }
    ensures err { OnErr result (account.new ≡ account.old) }
{
    match *change {
        Change::Debit { kind, amount } => {
            debit(account, kind, amount);
            Ok(())
        }
        Change::Credit { kind, amount } => {
            account.credit(kind, amount);
            Ok(())
        }
        Change::Retire {
            retirement,
            kind,
            amount,
        } => account.retire(new_row(setting, number, retirement, kind, amount)),
        Change::Unretire { number: reversed } => {
            account.unretire(reversed);
            Ok(())
        }
        Change::Trust { other } => trust(account, other, found.effective),
        Change::Untrust { other } => {
            account.untrust(other);
            Ok(())
        }
        Change::SetStatus { status } => {
            account.set_status(status);
            Ok(())
        }
        Change::SetEmissions { year, tonnes } => account.set_emissions(year, tonnes),
        Change::Determine { year } => assess(account, year, found.figure),
    }
}

// Takes allowances from an account. It holds them, so their number has 64 bits.
fn debit(account: &mut Account, kind: AllowanceKind, amount: u128)
    requires { amount ≤ held_by account.old kind }
    ensures { account.new ≡ debited account.old kind amount }
{
    account.is_within_limits();
    account.debit(kind, amount as u64);
}

// The row of a surrender or deletion that is carried out now.
fn new_row(
    setting: &Setting,
    number: RecordNo,
    retirement: Retirement,
    kind: AllowanceKind,
    amount: u64,
) -> RetirementRow
    ensures value { result ≡ row_of_today setting.now number retirement kind amount }
    ensures fate { FateFits result.fate }
{
    RetirementRow {
        number,
        fate: fate_of(setting.rules, retirement),
        kind,
        amount,
        day: setting.day,
        reversed: false,
    }
}

// What becomes today of allowances that are surrendered, for the current period, or deleted.
fn fate_of(rules: &Rules, retirement: Retirement) -> Fate
    ensures value { result ≡ fate_of rules.now retirement }
    ensures fits { FateFits result }
{
    match retirement {
        Retirement::Surrendered => Fate::Surrendered {
            period: rules.current(),
        },
        Retirement::Deleted => Fate::Deleted,
    }
}

// Puts the other account on the list, from this day of effect, if there is one.
fn trust(account: &mut Account, other: AccountNo, effective: Option<Day>) -> Result<(), NoMemory>
    requires { CanTrust account.old }
    ensures ok { OnOk result (account.new ≡ listed_from account.old other effective) }
    ensures err { OnErr result (account.new ≡ account.old) }
{
    match effective {
        Some(day) => account.trust(other, day),
        None => Ok(()),
    }
}

// Determines the figure of the year, if there is one.
fn assess(
    account: &mut Account,
    year: Year,
    figure: Result<i64, FigureFault>,
) -> Result<(), NoMemory>
    requires { IfOk figure FigureFits }
    ensures ok { OnOk result (account.new ≡ assessed account.old year figure) }
    ensures err { OnErr result (account.new ≡ account.old) }
{
    match figure {
        Ok(figure) => account.determine(year, figure),
        Err(_) => Ok(()),
    }
}

// Gives each of the accounts at these indexes its share: the first account the first share, and so on.
fn give_shares(kind: AllowanceKind, shares: &[Share], accounts: &mut [Account], indexes: &[u32])
    requires { CanGive kind accounts.old indexes.now shares.now }
    ensures { accounts.new ≡ map (given kind shares.now) accounts.old }
{
    match indexes.split_first() {
        None => (),
        Some((index, others)) => match shares.split_first() {
            None => (),
            Some((share, rest)) => {
                let index = *index as usize;
                accounts[index].credit(kind, share.amount);
                give_shares(kind, rest, accounts, others);
            }
        },
    }
}

// The figure that was determined, as it stands in its account now.
fn figure_made(movement: &Movement, accounts: &[Account], indexes: &[u32]) -> Option<i64>
    ensures { result ≡ figure_made (accounts_at accounts.now indexes.now) movement.now.first movement.now.change }
{
    match movement.change {
        Change::Determine { year } => match find_account(accounts, indexes, movement.first) {
            Some(account) => account.determined(year),
            None => None,
        },
        _ => None,
    }
}

fn find_account<'a>(
    accounts: &'a [Account],
    indexes: &'a [u32],
    number: AccountNo,
) -> Option<&'a Account>
    ensures { option_copied result ≡ account (accounts_at accounts.now indexes.now) number }
{
    match next_at(accounts, indexes) {
        None => None,
        Some((account, others)) => {
            if account.number() == number {
                Some(account)
            } else {
                find_account(accounts, others, number)
            }
        }
    }
}

// Puts what the accounts at these indexes hold now behind what is there. There is room for it.
fn put_each(held: &mut Holdings, accounts: &[Account], indexes: &[u32])
    requires { length held.old.items + length indexes.now ≤ held.old.capacity }
    ensures { held.new.items ≡ held.old.items ++ map holdings_of (accounts_at accounts.now indexes.now) }
{
    match next_at(accounts, indexes) {
        None => (),
        Some((account, others)) => {
            held.push_reserved(HeldNow {
                account: account.number(),
                general: account.held(AllowanceKind::General),
                aviation: account.held(AllowanceKind::Aviation),
            });
            put_each(held, accounts, others);
        }
    }
}
