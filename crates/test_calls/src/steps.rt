//! One instruction, executed on copies of the accounts that it touches.

ghost use Rattle.std.specs.Prelude.{◌≡◌, All, IsTrue, OnErr};
ghost use Rattle.std.specs.List.{list_all};
ghost use Rattle.std.specs.Prelude.{nat_lt};
ghost use Rattle.reg_base.specs.Footprint.{footprint};
ghost use Rattle.reg_rules.specs.State.{numbers};
ghost use Rattle.reg_rules.specs.Effect.{IsBehind};

use crate::accounts::has_rows_below;
use crate::call::{Call, try_call};
use crate::digest::{Digest, digest_of};
use crate::endings::Ended;
use crate::stop::Stop;
use reg_account::Account;
use reg_base::{AccountNo, Directory, Instruction, NoMemory, RecordNo};
use reg_book::{Settled, settle_plain};
use reg_rules::{LogRow, execute, log_row};
use reg_text::DayInput;
use std::alloc::Global;
use std::io::Write;

// Whether these accounts have these numbers, in this order.
fn have_numbers(accounts: &[Account], wanted: &[AccountNo]) -> bool
    ensures { IsTrue result → numbers accounts.now ≡ wanted.now }
{
    match (accounts.split_first(), wanted.split_first()) {
        (Some((account, accounts)), Some((number, wanted))) => {
            account.number() == *number && have_numbers(accounts, wanted)
        }
        (None, None) => true,
        _ => false,
    }
}

// Whether these are the accounts that the instruction touches, in its order.
fn are_touched(accounts: &[Account], instruction: &Instruction, directory: &Directory) -> bool
    ensures { IsTrue result → numbers accounts.now ≡ footprint directory.now instruction.now.act }
{
    let touched = instruction.touches(directory);
    have_numbers(accounts, touched.as_slice())
}

fn have_rows_below(accounts: &[Account], number: RecordNo) -> bool
    ensures { result ≡ list_all (λ v. list_all (λ row. nat_lt row.number number) v.rows) accounts.now }
{
    accounts
        .iter()
        .all(|account| has_rows_below(account, number))
}

fn are_behind(accounts: &[Account], number: RecordNo) -> bool
    ensures { IsTrue result → All (IsBehind number) accounts.now }
{
    have_rows_below(accounts, number)
}

// An instruction, and the day and the record number under which it is executed.
#[derive(Drop)]
struct Setting<'d> {
    day: &'d DayInput,
    directory: &'d Directory,
    instruction: Instruction,
    number: RecordNo,
}

// The row of the instruction after it was executed on these accounts, which are those that it touches, in its order.
fn execute_on(
    alloc: Global,
    setting: &Setting,
    accounts: &mut [Account],
) -> Result<LogRow, NoMemory>
    requires own { numbers accounts.old ≡ footprint setting.now.directory.now setting.now.instruction.act }
    requires behind { All (IsBehind setting.now.number) accounts.old }
    ensures same { OnErr result (accounts.new ≡ accounts.old) }
{
    let rules = &setting.day.rules;
    let on = setting.day.batch.day();
    let instruction = setting.instruction;
    let reply = execute(
        alloc,
        rules,
        on,
        setting.number,
        &instruction,
        setting.directory,
        accounts,
    )?;
    Ok(log_row(setting.number, on, instruction, reply))
}

// Executes the instruction on these accounts, if they are those that it touches.
fn execute_checked(alloc: Global, setting: &Setting, accounts: &mut [Account]) -> Ended {
    if !are_touched(accounts, &setting.instruction, setting.directory) {
        return Ended::Otherwise;
    }
    if !are_behind(accounts, setting.number) {
        return Ended::Otherwise;
    }
    match execute_on(alloc, setting, accounts) {
        Ok(row) => Ended::Done(digest_after(&row, accounts)),
        Err(NoMemory) => Ended::NoMemory,
    }
}

// The digest of a row and the accounts that its instruction has left.
fn digest_after(row: &LogRow, accounts: &[Account]) -> Digest {
    let mut digest = digest_of(row);
    for account in accounts {
        digest.add(account);
    }
    digest
}

// `execute`.
#[derive(Drop)]
struct Executing<'d> {
    setting: Setting<'d>,
    accounts: Vec<Account>,
}

impl Call for Executing<'_> {
    fn make(&mut self, alloc: Global) -> Ended {
        execute_checked(alloc, &self.setting, self.accounts.as_mut_slice())
    }

    fn lent(&self) -> Digest {
        digest_of(&self.accounts)
    }
}

// Copies of the accounts that an instruction touches, in its order.
fn copies(alloc: Global, day: &DayInput, instruction: &Instruction) -> Result<Vec<Account>, Stop> {
    let touched = instruction.touches(day.book.directory());
    let mut copies = Vec::new(alloc);
    for number in touched.as_slice() {
        let Some(account) = day.book.get(*number) else {
            return Err(Stop::Input);
        };
        match account.copy(alloc) {
            Ok(copy) => copies.push(copy)?,
            Err(NoMemory) => return Err(Stop::Short),
        }
    }
    Ok(copies)
}

// The first instruction of a day, and its record number.
fn first_of(day: &DayInput) -> Result<(Instruction, RecordNo), Stop> {
    let Some(instruction) = day.batch.instructions().first() else {
        return Err(Stop::Input);
    };
    let Some(number) = RecordNo::new(day.book.next_record()) else {
        return Err(Stop::Input);
    };
    Ok((*instruction, number))
}

// What the first instruction and these accounts are to be on a settled day.
fn wanted_of(accounts: &[Account], settled: &Settled) -> Result<Digest, Stop> {
    let Some(row) = settled.rows().first() else {
        return Err(Stop::Input);
    };
    let mut digest = digest_of(row);
    for account in accounts {
        let Some(account) = settled.account(account.number()) else {
            return Err(Stop::Input);
        };
        digest.add(account);
    }
    Ok(digest)
}

// What settling the day leaves of the first instruction and these accounts.
fn settled_of(alloc: Global, day: &DayInput, accounts: &[Account]) -> Result<Digest, Stop> {
    match settle_plain(alloc, &day.book, &day.rules, &day.batch) {
        Ok(settled) => wanted_of(accounts, &settled),
        Err(_) => Err(Stop::Short),
    }
}

/// Tries `execute` of the first instruction. No other instruction may touch its accounts.
pub(crate) fn try_execute<W: Write>(
    alloc: Global,
    day: &DayInput,
    writer: &mut W,
) -> Result<(), Stop> {
    let (instruction, number) = first_of(day)?;
    let setting = Setting {
        day,
        directory: day.book.directory(),
        instruction,
        number,
    };
    let accounts = copies(alloc, day, &instruction)?;
    let wanted = settled_of(alloc, day, accounts.as_slice())?;
    let mut call = Executing { setting, accounts };
    try_call(alloc, day, &mut call, Ended::Done(wanted), writer)
}
