//! The program's words: which command they ask for.

ghost use Rattle.std.specs.Prelude.{◌≡◌, IfErr, IfOk, IfSome, IsTrue, MatchOption, Some, codes, map};
ghost use Rattle.clap.specs.Words.{HasMatchesOf, app_of, found_of, kind_of, rows_of, subcommand_rows_of};
ghost use Rattle.clap.specs.declared.error.kind.ErrorKind.TheVariants.{MissingSubcommand, ValueValidation};
ghost use Rattle.reg_front.specs.declared.command.Command.{Command as Asked};
ghost use Rattle.registry.specs.Program.{IsDescribed, figures_shape, plan_shape, program, program_shape, settle_shape};
ghost use Rattle.registry.specs.Program.{statement_shape, totals_shape};
ghost use Rattle.registry.specs.Words.{AsksFor, IsAnError, IsCommandOf, IsCommandIn};

use clap::builder::ValueParser;
use clap::error::ErrorKind;
use clap::{Arg, ArgMatches, Command as Program, Error, value_parser};
use reg_base::{AccountNo, MOST_NUMBER};
use reg_front::Command;
use std::alloc::{AllocError, Global};
use std::convert::AsStr;

// The command that takes a number of workers.
const SETTLE: &str = "settle";

// The version of the program. No source can name its own commit: `./run --version` tells that.
const VERSION: &str = "1.2";

const WHAT_IT_DOES: &str = "\
Settles one day of an emission allowance registry: reads a day text from standard input,
and writes the text of a command to standard output";

const EXAMPLE_AND_STATUSES: &str = "\
Example:
  registry settle < examples/first-transfer.csv

Exit statuses:
  0  the text was written
  2  the words, the number of workers or the account were not taken
  3  the input is not a day text: standard error names the first faulty row and the cause
  4  memory ran out
  5  standard input or standard output failed";

/// The command that these words ask for. They stand without the program's name.
///
/// # Errors
/// What is to be shown in place of a run: the help or the version that was asked for, or why the words are not taken.
/// `OutOfMemory` if memory ran out.
pub(crate) fn read_words<'a, S: AsStr>(alloc: Global, words: &'a [S]) -> Result<Command, Error>
    ensures command { IfOk result (AsksFor (map S.text words.entry.now)) }
    ensures error { IfErr result (λ error. IsAnError (map S.text words.entry.now) (kind_of error)) }
{
    match find_words(alloc, words) {
        Ok(Some(command)) => Ok(command),
        Ok(None) => Err(command_missing(alloc)?),
        Err(error) if is_of_workers(&error, words) => Err(workers_refused(alloc)?),
        Err(error) => Err(error),
    }
}

fn command_missing(alloc: Global) -> Result<Error, AllocError>
    ensures { IfOk result (λ error. kind_of error ≡ MissingSubcommand) }
{
    let mut program = describe_registry(alloc)?;
    program.error(ErrorKind::MissingSubcommand, "a command is needed")
}

// Whether the word for the number of workers is no number of 32 bits. `clap` would tell the limits of that type, which
// are others than 1 to 8.
fn is_of_workers<S: AsStr>(error: &Error, words: &[S]) -> bool
    ensures { IsTrue result → kind_of error.now ≡ ValueValidation }
{
    let is_settle = words.first().is_some_and(|word| word.as_str() == SETTLE);
    is_settle && error.kind() == ErrorKind::ValueValidation
}

fn workers_refused(alloc: Global) -> Result<Error, AllocError>
    ensures { IfOk result (λ error. kind_of error ≡ ValueValidation) }
{
    let mut settle = describe_settle(alloc)?.bin_name("registry settle")?;
    settle.error(ErrorKind::ValueValidation, "workers must be 1 to 8")
}

// The command among the words, if the program takes them.
fn find_words<'a, S: AsStr>(alloc: Global, words: &'a [S]) -> Result<Option<Command>, Error>
    ensures command { IfOk result (λ found. MatchOption found
        ((command : Asked) → AsksFor (map S.text words.entry.now) command → ⊥) (AsksFor (map S.text words.entry.now))) }
    ensures error { IfErr result (λ error. IsAnError (map S.text words.entry.now) (kind_of error)) }
{
    match parse(alloc, words) {
        Ok(matches) => Ok(find_command(&matches)),
        Err(error) => Err(error),
    }
}

// What `clap` finds among the words.
fn parse<'a, S: AsStr>(alloc: Global, words: &'a [S]) -> Result<ArgMatches<'a>, Error>
    ensures matches { IfOk result (HasMatchesOf program (map S.text words.entry.now)) }
    ensures error { IfErr result (λ error. IsAnError (map S.text words.entry.now) (kind_of error)) }
{
    describe_program(alloc)?.try_get_matches_from(words)
}

// The command that was found among the words, with its values.
fn find_command(matches: &ArgMatches<'_>) -> Option<Command>
    ensures command { IfSome result (IsCommandIn (subcommand_rows_of matches.now)) }
    ensures each { (command : Asked) → IsCommandIn (subcommand_rows_of matches.now) command → result ≡ Some command }
{
    let (name, found) = matches.subcommand()?;
    command_named(name, found)
}

// The command of this name, with its values.
fn command_named(name: &str, found: &ArgMatches<'_>) -> Option<Command>
    ensures command { IfSome result (IsCommandOf name.now (rows_of (found_of found.now))) }
    ensures each { (command : Asked) → IsCommandOf name.now (rows_of (found_of found.now)) command
        → result ≡ Some command }
{
    if name == SETTLE {
        return settle_found(found);
    }
    if name == "plan" {
        return Some(Command::Plan);
    }
    if name == "statement" {
        return statement_found(found);
    }
    if name == "figures" {
        return Some(Command::Figures);
    }
    if name == "totals" {
        return Some(Command::Totals);
    }
    None
}

fn settle_found(found: &ArgMatches<'_>) -> Option<Command>
    ensures command { IfSome result (IsCommandOf (codes "settle") (rows_of (found_of found.now))) }
    ensures each { (command : Asked) → IsCommandOf (codes "settle") (rows_of (found_of found.now)) command
        → result ≡ Some command }
{
    let workers = found.get_one::<u32>("workers")?;
    Some(Command::Settle { workers })
}

fn statement_found(found: &ArgMatches<'_>) -> Option<Command>
    ensures command { IfSome result (IsCommandOf (codes "statement") (rows_of (found_of found.now))) }
    ensures each { (command : Asked) → IsCommandOf (codes "statement") (rows_of (found_of found.now)) command
        → result ≡ Some command }
{
    let number = found.get_one::<u32>("account")?;
    let account = AccountNo::new(number)?;
    Some(Command::Statement { account })
}

// The program and its commands, as its help shows them.
fn describe_program<'a>(alloc: Global) -> Result<Program<'a>, AllocError>
    ensures { IfOk result (λ described. app_of described ≡ program) }
{
    describe_registry(alloc)?
        .subcommand(describe_settle(alloc)?)?
        .subcommand(describe_plan(alloc))?
        .subcommand(describe_statement(alloc)?)?
        .subcommand(describe_figures(alloc))?
        .subcommand(describe_totals(alloc))
}

fn describe_registry<'a>(alloc: Global) -> Result<Program<'a>, AllocError>
    ensures { IfOk result (IsDescribed program_shape) }
{
    let program = Program::new(alloc, "registry")
        .bin_name("registry")?
        .version(VERSION)
        .about(WHAT_IT_DOES)
        .after_help(EXAMPLE_AND_STATUSES)
        .no_binary_name(true)
        .subcommand_required(true)
        .arg_required_else_help(true);
    Ok(program)
}

fn describe_settle<'a>(alloc: Global) -> Result<Program<'a>, AllocError>
    ensures { IfOk result (IsDescribed settle_shape) }
{
    let workers = Arg::new(alloc, "workers")
        .long("workers")
        .value_name("N")
        .value_parser(value_parser!(u32))
        .default_value("4")
        .help("How many workers settle the day, 1 to 8; what is written does not depend on it");
    Program::new(alloc, "settle")
        .about("Settle the day; write its log, the accounts after it and the totals")
        .arg(workers)
}

fn describe_plan<'a>(alloc: Global) -> Program<'a>
    ensures { IsDescribed plan_shape result }
{
    Program::new(alloc, "plan").about(
        "Write which instructions must wait for which others; settle nothing",
    )
}

fn describe_statement<'a>(alloc: Global) -> Result<Program<'a>, AllocError>
    ensures { IfOk result (IsDescribed statement_shape) }
{
    let account = Arg::new(alloc, "account")
        .required(true)
        .value_name("ACCOUNT")
        .value_parser(ValueParser::unsigned(1, u64::from(MOST_NUMBER)))
        .help("The number of the account");
    Program::new(alloc, "statement")
        .about("Settle the day; write what an account held, its log rows, and what it holds then")
        .arg(account)
}

fn describe_figures<'a>(alloc: Global) -> Program<'a>
    ensures { IsDescribed figures_shape result }
{
    Program::new(alloc, "figures").about(
        "Settle the day; write the compliance figures determined then, of all accounts and years",
    )
}

fn describe_totals<'a>(alloc: Global) -> Program<'a>
    ensures { IsDescribed totals_shape result }
{
    Program::new(alloc, "totals").about(
        "Settle the day; write what all accounts hold, have surrendered and have deleted then",
    )
}
