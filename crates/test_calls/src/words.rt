//! The names of calls.

use crate::accounts::{Change, try_change, try_copy};
use crate::books::{try_directory, try_draft};
use crate::claims::try_table;
use crate::docks::{try_dock, try_docks};
use crate::plans::{try_check, try_plan, try_plan_text, try_plan_with};
use crate::settling::{try_order, try_plain, try_regions, try_waves, try_workers};
use crate::single::try_apply;
use crate::steps::try_execute;
use crate::stop::Stop;
use crate::tasks::{try_context, try_gather, try_opening, try_run};
use crate::texts::{
    Written, try_pieces, try_read, try_read_pieces, try_read_row, try_read_version, try_text,
};
use crate::worlds::{try_event, try_start};
use crate::yards::{try_put, try_yard};
use reg_text::{DayInput, read_day};
use std::alloc::Global;
use std::io::Write;
use std::sync::Wait;
use std::thread::Threads;

/// Tries the call of a name, with the number that stands behind it or 0, on a day text.
///
/// # Errors
/// `Stop::Input` if no call has this name, the call needs a day and the text is no day text, or the call cannot be made
/// on that day; `Stop::Short` and `Stop::Output` as they say.
pub fn try_named<R: Threads + Wait + Sync, W: Write>(
    rt: &R,
    alloc: Global,
    name: &str,
    number: u32,
    text: &[u8],
    writer: &mut W,
) -> Result<(), Stop> {
    if name == "read_day" {
        return try_read(alloc, text, writer);
    }
    if name == "read_instruction" {
        return try_read_row(alloc, text, writer);
    }
    if name == "read_version" {
        return try_read_version(alloc, text, writer);
    }
    if name == "read_day_of_pieces" {
        return try_read_pieces(rt, alloc, text, number, writer);
    }
    if name == "write_report_pieces" {
        return try_pieces(rt, alloc, text, 1, number, writer);
    }
    if name == "write_report_of_lists" {
        return try_pieces(rt, alloc, text, number, number, writer);
    }
    if name == "apply" {
        return try_apply(alloc, text, writer);
    }
    if name == "settle_regions" {
        return try_regions(rt, alloc, text, number, writer);
    }
    let Ok(day) = read_day(alloc, text) else {
        return Err(Stop::Input);
    };
    try_on_day(rt, alloc, name, number, &day, writer)
}

// Tries a call on a day that starts threads or settles it, or one of the others.
fn try_on_day<R: Threads + Wait + Sync, W: Write>(
    rt: &R,
    alloc: Global,
    name: &str,
    number: u32,
    day: &DayInput,
    writer: &mut W,
) -> Result<(), Stop> {
    match name {
        "settle_plain" => try_plain(alloc, day, writer),
        "run_order" => try_order(alloc, day, writer),
        "plan_with" => try_plan_with(rt, alloc, day, number, writer),
        "settle_waves" => try_waves(rt, alloc, day, number, writer),
        "settle_with" => try_workers(rt, alloc, day, number, writer),
        _ => try_on_accounts(alloc, name, number, day, writer),
    }
}

// Tries a call on accounts, or one of the others.
fn try_on_accounts<W: Write>(
    alloc: Global,
    name: &str,
    number: u32,
    day: &DayInput,
    writer: &mut W,
) -> Result<(), Stop> {
    match name {
        "copy" => try_copy(alloc, day, writer),
        "retire" => try_change(alloc, day, Change::Retire, writer),
        "trust" => try_change(alloc, day, Change::Trust, writer),
        "set_emissions" => try_change(alloc, day, Change::SetEmissions, writer),
        "determine" => try_change(alloc, day, Change::Determine, writer),
        "execute" => try_execute(alloc, day, writer),
        "draft_insert" => try_draft(alloc, day, number as usize, writer),
        "directory_insert" => try_directory(alloc, day, number != 0, writer),
        _ => try_on_plan(alloc, name, number, day, writer),
    }
}

// Tries a call on a plan or on tasks, or one of the others.
fn try_on_plan<W: Write>(
    alloc: Global,
    name: &str,
    number: u32,
    day: &DayInput,
    writer: &mut W,
) -> Result<(), Stop> {
    match name {
        "plan_of" => try_plan(alloc, day, writer),
        "check_order" => try_check(alloc, day, writer),
        "plan_text" => try_plan_text(alloc, day, writer),
        "context_of" => try_context(alloc, day, writer),
        "opening" => try_opening(alloc, day, writer),
        "task_run" => try_run(alloc, day, writer),
        "gather" => try_gather(alloc, day, writer),
        _ => try_on_workers(alloc, name, number, day, writer),
    }
}

// Tries a call on what workers share, or one of the others.
fn try_on_workers<W: Write>(
    alloc: Global,
    name: &str,
    number: u32,
    day: &DayInput,
    writer: &mut W,
) -> Result<(), Stop> {
    match name {
        "world_new" => try_start(alloc, day, number, writer),
        "world_run" => try_event(alloc, day, number, writer),
        "claim_table" => try_table(alloc, day, writer),
        "dock_new" => try_dock(alloc, day, writer),
        "docks_new" => try_docks(alloc, day, writer),
        "yard_new" => try_yard(alloc, number, writer),
        "put" => try_put(alloc, day, number, writer),
        _ => try_on_texts(alloc, name, day, writer),
    }
}

// Tries a call that writes a text.
fn try_on_texts<W: Write>(
    alloc: Global,
    name: &str,
    day: &DayInput,
    writer: &mut W,
) -> Result<(), Stop> {
    let written = match name {
        "write_report" => Written::Report,
        "write_book" => Written::Book,
        "figures" => Written::Figures,
        "totals_text" => Written::Totals,
        "statement" => Written::Statement,
        "all_statements" => Written::Statements,
        "write_front" => Written::Front,
        "write_log_row" => Written::LogRow,
        _ => return Err(Stop::Input),
    };
    try_text(alloc, day, written, writer)
}
