//! The arguments of a command, as `clap` reads them.

ghost use Rattle.std.specs.Prelude.{◌≡◌, ◌≤◌, false, not, is_some, ℕ, List, ◌∷◌, IfOk, IfSome, Option, option_map, option_and_then, map, codes};
ghost use Rattle.adj_tool.specs.Arguments.{Adjoint, Tangent, Plan, bare_program, program, command_rule, numbers_rule, option_rule, lacks, name_of, names_of, request_asked, number_or, limits_asked, run_asked, check_asked, jacobian_asked, lacks_options, schedule_asked, numbers_asked, sample_asked, number_asked, command_asked, asked, taken};
ghost use Rattle.adj_tool_answer.specs.EndingViews.{asked_of};
ghost use Rattle.adj_tool.specs.Views.{command_of, some_request};
ghost use Rattle.clap.specs.Simple.{app_of, with_rule};
ghost use Rattle.clap.specs.Matches.{found_of};
ghost use Rattle.clap.specs.Walk.{rows_of, rule_of, first_of, all_of};

use crate::task::{CheckRequest, Request, Reversal, Task};
use crate::text::Text;
use crate::values::{name_of, names_of, number_argument};
use adj_tool_answer::RunRequest;
use adj_tree::{Memory, Name, NameList};
use clap::error::ErrorKind;
use clap::{Arg, ArgMatches, Command};
use std::alloc::Global;

// An option that takes one value.
fn option<'a>(alloc: Global, name: &'a str) -> Arg<'a>
    ensures rule { rule_of result ≡ option_rule name.entry.now }
    ensures local { result.global ≡ false }
{
    Arg::new(alloc, name).long(name)
}

// The name of the command, which is required.
fn command_argument<'a>(alloc: Global) -> Arg<'a>
    ensures rule { rule_of result ≡ command_rule }
    ensures local { result.global ≡ false }
{
    Arg::new(alloc, "command").required(true)
}

// Any arguments behind it that are no options.
fn numbers_argument<'a>(alloc: Global) -> Arg<'a>
    ensures rule { rule_of result ≡ numbers_rule }
    ensures local { result.global ≡ false }
{
    Arg::new(alloc, "numbers").num_args(1..)
}

// A command line with no arguments, whose first argument is no program's name.
fn bare_line<'a>(alloc: Global) -> Command<'a>
    ensures { app_of result ≡ bare_program }
{
    Command::new(alloc, "adjtool").no_binary_name(true)
}

fn with_argument<'a>(command: Command<'a>, argument: Arg<'a>) -> Result<Command<'a>, Memory>
    requires { argument.global ≡ false }
    ensures { IfOk result (λ c. app_of c ≡ with_rule (app_of command.entry) (rule_of argument.entry)) }
{
    let command = command.arg(argument)?;
    Ok(command)
}

// The command line: a command, numbers, and options with a value each.
fn command_line<'a>(alloc: Global) -> Result<Command<'a>, Memory>
    ensures { IfOk result (λ c. app_of c ≡ program) }
{
    let line = bare_line(alloc);
    let line = with_argument(line, command_argument(alloc))?;
    let line = with_argument(line, numbers_argument(alloc))?;
    let line = with_argument(line, option(alloc, "head"))?;
    let line = with_argument(line, option(alloc, "vars"))?;
    let line = with_argument(line, option(alloc, "outvars"))?;
    let line = with_argument(line, option(alloc, "budget"))?;
    let line = with_argument(line, option(alloc, "tape"))?;
    Ok(line)
}

// The one value of an option or a name.
fn value<'a>(matches: &ArgMatches<'a>, id: &str) -> Option<&'a str>
    ensures { option_map (λ s. s.now) result ≡ first_of id.now (rows_of (found_of matches.now)) }
{
    matches.get_str(id)
}

// Whether an option or a name is absent.
fn is_absent(matches: &ArgMatches<'_>, id: &str) -> bool
    ensures { result ≡ not (is_some (first_of id.now (rows_of (found_of matches.now)))) }
{
    value(matches, id).is_none()
}

// All values of a name.
fn values<'a, 'b>(matches: &'b ArgMatches<'a>, id: &str) -> Option<&'b [&'a str]>
    ensures { option_map (λ s. map (λ v. v.now) s.now) result ≡ all_of id.now (rows_of (found_of matches.now)) }
{
    matches.get_strs(id)
}

fn name_option(alloc: Global, matches: &ArgMatches<'_>, id: &str) -> Result<Option<Name>, Memory>
    ensures { IfOk result (λ r. r ≡ option_and_then name_of (first_of id.now (rows_of (found_of matches.now)))) }
{
    match value(matches, id) {
        Some(argument) => name_of(alloc, argument.as_bytes()),
        None => Ok(None),
    }
}

fn list_option(
    alloc: Global,
    matches: &ArgMatches<'_>,
    id: &str,
) -> Result<Option<NameList>, Memory>
    ensures { IfOk result (λ r. r ≡ option_and_then names_of (first_of id.now (rows_of (found_of matches.now)))) }
{
    match value(matches, id) {
        Some(argument) => names_of(alloc, argument.as_bytes()),
        None => Ok(None),
    }
}

// --head NAME --vars LIST --outvars LIST
fn request_asked(alloc: Global, matches: &ArgMatches<'_>) -> Result<Option<Request>, Memory>
    ensures { IfOk result (λ r. some_request r ≡ request_asked (rows_of (found_of matches.now))) }
{
    let lacks = is_absent(matches, "numbers")
        && is_absent(matches, "budget")
        && is_absent(matches, "tape");
    if !lacks {
        return Ok(None);
    }
    let head = name_option(alloc, matches, "head")?;
    let vars = list_option(alloc, matches, "vars")?;
    let outvars = list_option(alloc, matches, "outvars")?;
    match (head, vars, outvars) {
        (Some(head), Some(vars), Some(outvars)) => Ok(Some(Request {
            head,
            vars,
            outvars,
        })),
        _ => Ok(None),
    }
}

// adjoint with these
fn adjoint_task(alloc: Global, matches: &ArgMatches<'_>) -> Result<Option<Task>, Memory>
    ensures { IfOk result (λ r. option_map command_of r ≡ option_map Adjoint (request_asked (rows_of (found_of matches.now)))) }
{
    match request_asked(alloc, matches)? {
        Some(request) => Ok(Some(Task::Adjoint(request))),
        None => Ok(None),
    }
}

// tangent with these
fn tangent_task(alloc: Global, matches: &ArgMatches<'_>) -> Result<Option<Task>, Memory>
    ensures { IfOk result (λ r. option_map command_of r ≡ option_map Tangent (request_asked (rows_of (found_of matches.now)))) }
{
    match request_asked(alloc, matches)? {
        Some(request) => Ok(Some(Task::Tangent(request))),
        None => Ok(None),
    }
}

// plan with these
fn plan_task(alloc: Global, matches: &ArgMatches<'_>) -> Result<Option<Task>, Memory>
    ensures { IfOk result (λ r. option_map command_of r ≡ option_map Plan (request_asked (rows_of (found_of matches.now)))) }
{
    match request_asked(alloc, matches)? {
        Some(request) => Ok(Some(Task::Plan(request))),
        None => Ok(None),
    }
}

// The number of an option, or another where the option is absent.
fn number_option(
    matches: &ArgMatches<'_>,
    id: &str,
    other: u64,
    least: u64,
    most: u64,
) -> Option<u64>
    requires { other ≤ most }
    ensures value { result ≡ number_or other least most (first_of id.now (rows_of (found_of matches.now))) }
    ensures within { IfSome result (λ n. n ≤ most) }
{
    match value(matches, id) {
        Some(argument) => number_argument(least, most, argument.as_bytes()),
        None => Some(other),
    }
}

// --head NAME, with --budget N and --tape N or neither
fn limits_asked(alloc: Global, matches: &ArgMatches<'_>) -> Result<Option<RunRequest>, Memory>
    ensures { IfOk result (λ r. option_map asked_of r ≡ limits_asked (rows_of (found_of matches.now))) }
{
    let head = name_option(alloc, matches, "head")?;
    let budget = number_option(matches, "budget", 100_000_000, 1, 9_223_372_036_854_775_807);
    let room = number_option(matches, "tape", 16_777_216, 0, 134_217_728);
    match (head, budget, room) {
        (Some(head), Some(budget), Some(room)) => Ok(Some(RunRequest { head, budget, room })),
        _ => Ok(None),
    }
}

// run with these
fn run_task(alloc: Global, matches: &ArgMatches<'_>) -> Result<Option<Task>, Memory>
    ensures { IfOk result (λ r. option_map command_of r ≡ run_asked (rows_of (found_of matches.now))) }
{
    let lacks = is_absent(matches, "numbers")
        && is_absent(matches, "vars")
        && is_absent(matches, "outvars");
    if !lacks {
        return Ok(None);
    }
    match limits_asked(alloc, matches)? {
        Some(request) => Ok(Some(Task::Run(request))),
        None => Ok(None),
    }
}

// check with these, --vars LIST and --outvars LIST
fn check_task(alloc: Global, matches: &ArgMatches<'_>) -> Result<Option<Task>, Memory>
    ensures { IfOk result (λ r. option_map command_of r ≡ check_asked (rows_of (found_of matches.now))) }
{
    if !is_absent(matches, "numbers") {
        return Ok(None);
    }
    let run = limits_asked(alloc, matches)?;
    let vars = list_option(alloc, matches, "vars")?;
    let outvars = list_option(alloc, matches, "outvars")?;
    match (run, vars, outvars) {
        (Some(run), Some(vars), Some(outvars)) => Ok(Some(Task::Check(CheckRequest {
            run,
            vars,
            outvars,
        }))),
        _ => Ok(None),
    }
}

// jacobian with these, --head NAME, --vars LIST and --outvars LIST, with --budget N or not
fn jacobian_task(alloc: Global, matches: &ArgMatches<'_>) -> Result<Option<Task>, Memory>
    ensures { IfOk result (λ r. option_map command_of r ≡ jacobian_asked (rows_of (found_of matches.now))) }
{
    let lacks = is_absent(matches, "numbers") && is_absent(matches, "tape");
    if !lacks {
        return Ok(None);
    }
    let run = limits_asked(alloc, matches)?;
    let vars = list_option(alloc, matches, "vars")?;
    let outvars = list_option(alloc, matches, "outvars")?;
    match (run, vars, outvars) {
        (Some(run), Some(vars), Some(outvars)) => Ok(Some(Task::Jacobian(CheckRequest {
            run,
            vars,
            outvars,
        }))),
        _ => Ok(None),
    }
}

fn schedule_numbers(numbers: &[&str]) -> Option<Task>
    ensures { option_map command_of result ≡ numbers_asked (map (λ v. v.now) numbers.now) }
{
    match numbers {
        [steps, snapshots] => {
            let steps = number_argument(0, 100_000, steps.as_bytes())?;
            let snapshots = number_argument(1, 64, snapshots.as_bytes())?;
            Some(Task::Schedule(Reversal {
                steps,
                snapshots: snapshots as u32,
            }))
        }
        _ => None,
    }
}

fn sample_number(numbers: &[&str]) -> Option<Task>
    ensures { option_map command_of result ≡ number_asked (map (λ v. v.now) numbers.now) }
{
    match numbers {
        [number] => {
            let number = number_argument(0, 18_446_744_073_709_551_615, number.as_bytes())?;
            Some(Task::Sample(number))
        }
        _ => None,
    }
}

// Whether the options of a command that takes numbers alone are absent.
fn lacks_options(matches: &ArgMatches<'_>) -> bool
    ensures { result ≡ lacks_options (rows_of (found_of matches.now)) }
{
    is_absent(matches, "head")
        && is_absent(matches, "vars")
        && is_absent(matches, "outvars")
        && is_absent(matches, "budget")
        && is_absent(matches, "tape")
}

// sample NUMBER
fn sample_task(matches: &ArgMatches<'_>) -> Option<Task>
    ensures { option_map command_of result ≡ sample_asked (rows_of (found_of matches.now)) }
{
    if !lacks_options(matches) {
        return None;
    }
    sample_number(values(matches, "numbers")?)
}

// schedule STEPS SNAPSHOTS
fn schedule_task(matches: &ArgMatches<'_>) -> Option<Task>
    ensures { option_map command_of result ≡ schedule_asked (rows_of (found_of matches.now)) }
{
    if !lacks_options(matches) {
        return None;
    }
    schedule_numbers(values(matches, "numbers")?)
}

// What the values of the command line ask for.
fn task_asked(alloc: Global, matches: &ArgMatches<'_>) -> Result<Option<Task>, Memory>
    ensures { IfOk result (λ r. option_map command_of r ≡ asked (rows_of (found_of matches.now))) }
{
    let name = match value(matches, "command") {
        Some(name) => name,
        None => return Ok(None),
    };
    if name == "adjoint" {
        let task = adjoint_task(alloc, matches)?;
        return Ok(task);
    }
    if name == "tangent" {
        let task = tangent_task(alloc, matches)?;
        return Ok(task);
    }
    if name == "plan" {
        let task = plan_task(alloc, matches)?;
        return Ok(task);
    }
    if name == "run" {
        let task = run_task(alloc, matches)?;
        return Ok(task);
    }
    if name == "check" {
        let task = check_task(alloc, matches)?;
        return Ok(task);
    }
    if name == "jacobian" {
        let task = jacobian_task(alloc, matches)?;
        return Ok(task);
    }
    if name == "schedule" {
        return Ok(schedule_task(matches));
    }
    if name == "sample" {
        return Ok(sample_task(matches));
    }
    Ok(None)
}

/// What the arguments ask for, or none where they are no command.
pub fn take(alloc: Global, arguments: &[Text]) -> Result<Option<Task>, Memory>
    ensures taken { IfOk result (λ r. option_map command_of r ≡ taken arguments.now) }
{
    let line = command_line(alloc)?;
    match line.try_get_matches_from(arguments) {
        Ok(matches) => task_asked(alloc, &matches),
        Err(error) => match error.kind() {
            ErrorKind::OutOfMemory => Err(Memory),
            _ => Ok(None),
        },
    }
}
