//! The meaning of the words of a command line.
ghost use Rattle.std.specs.Prelude.{◌≡◌, IfOk, IfSome, None, Ok, map, string_bytes, true, false};
ghost use Rattle.clap.specs.Words.{found_of, new_app, rows_of};
ghost use Rattle.surface_cli.specs.Arguments.{certify_app, certify_of, demo_app, demo_of, plain_app, slice_app, slice_of, with_workers, without_workers};
ghost use Rattle.surface_cli.specs.Commands.{commands};
ghost use Rattle.surface_cli.specs.Words.{AreValuesInRange, IsTaskInRange, meaning, names_command, where_taken};
ghost use Rattle.surface_cli.specs.Taking.{HasWorkers, is_sure_app};

use crate::arguments::{demo_command, plain_command, slice_command, taken};
use crate::certify_command::certify_command;
use crate::commands::{Command, meaning_at};
use crate::numbers::{height_in, natural_in};
use clap::ArgMatches;
use fku_types::NoMemory;
use std::alloc::Global;

/// A command, and how many pairs are solved at once: 1 to `MAX_WORKERS`, or `None` if the command has no such option.
#[derive(Clone, Copy, Debug, PartialEq, Eq)]
pub struct Task {
    pub command: Command,
    pub workers: Option<u32>,
}

/// The meaning of the words after the program's name; `None` for a usage error.
///
/// The first word is the name of a command, and the others are words that `clap` takes for this command. `--help`, a
/// number out of its range and an option that is given twice are usage errors. Or `NoMemory`, only if the first word is
/// the name of a command.
#[tactic(auto, unfolding(crate::specs::Words::meaning))]
pub fn meaning_of(alloc: Global, words: &[String]) -> Result<Option<Task>, NoMemory>
    ensures meaning { IfOk result (λ m. m ≡ meaning (map string_bytes words.now)) }
    // Every number of the task is in its range.
    ensures in_range { IfOk result (λ m. IfSome m IsTaskInRange) }
    // Words that do not begin with the name of a command have no meaning, whatever memory there is.
    ensures unnamed { names_command (map string_bytes words.now) ≡ false → result ≡ Ok None }
{
    match words {
        [] => Ok(None),
        [name, ..] => meaning_at(alloc, name.as_str(), words),
    }
}

// The task of a command that has `--workers`, with the given number or its default.
fn with_workers(command: Command, matches: &ArgMatches<'_>) -> Task
    requires workers { HasWorkers (found_of matches.now) }
    requires range { AreValuesInRange command }
    ensures task { result ≡ with_workers command (rows_of (found_of matches.now)) }
    ensures in_range { IsTaskInRange result }
{
    let workers = natural_in(matches, "workers");
    Task {
        command,
        workers: Some(workers),
    }
}

// The meaning of a command whose only option is `--workers`.
pub(crate) fn plain_task(
    alloc: Global,
    name: &str,
    command: Command,
    words: &[String],
) -> Result<Option<Task>, NoMemory>
    requires sure { is_sure_app (plain_app name.now) ≡ true }
    requires range { AreValuesInRange command }
    ensures meaning { IfOk result (λ m.
        m ≡ where_taken (plain_app name.now) (with_workers command) (map string_bytes words.now)) }
    ensures in_range { IfOk result (λ m. IfSome m IsTaskInRange) }
{
    let Some(matches) = taken(plain_command(alloc, name)?, words)? else {
        return Ok(None);
    };
    Ok(Some(with_workers(command, &matches)))
}

// The meaning of a command without arguments.
pub(crate) fn bare_task(
    alloc: Global,
    name: &str,
    command: Command,
    words: &[String],
) -> Result<Option<Task>, NoMemory>
    requires sure { is_sure_app (new_app name.now) ≡ true }
    requires range { AreValuesInRange command }
    ensures meaning { IfOk result (λ m.
        m ≡ where_taken (new_app name.now) (without_workers command) (map string_bytes words.now)) }
    ensures in_range { IfOk result (λ m. IfSome m IsTaskInRange) }
{
    let Some(_matches) = taken(clap::Command::new(alloc, name), words)? else {
        return Ok(None);
    };
    Ok(Some(Task {
        command,
        workers: None,
    }))
}

pub(crate) fn certify_task(alloc: Global, words: &[String]) -> Result<Option<Task>, NoMemory>
    ensures meaning { IfOk result (λ m. m ≡ where_taken certify_app certify_of (map string_bytes words.now)) }
    ensures in_range { IfOk result (λ m. IfSome m IsTaskInRange) }
{
    let Some(matches) = taken(certify_command(alloc)?, words)? else {
        return Ok(None);
    };
    let pair = natural_in(&matches, "pair");
    Ok(Some(Task {
        command: Command::Certify { pair },
        workers: None,
    }))
}

pub(crate) fn slice_task(alloc: Global, words: &[String]) -> Result<Option<Task>, NoMemory>
    ensures meaning { IfOk result (λ m. m ≡ where_taken slice_app slice_of (map string_bytes words.now)) }
    ensures in_range { IfOk result (λ m. IfSome m IsTaskInRange) }
{
    let Some(matches) = taken(slice_command(alloc)?, words)? else {
        return Ok(None);
    };
    let height = height_in(&matches);
    Ok(Some(with_workers(Command::Slice { height }, &matches)))
}

pub(crate) fn demo_task(alloc: Global, words: &[String]) -> Result<Option<Task>, NoMemory>
    ensures meaning { IfOk result (λ m. m ≡ where_taken demo_app demo_of (map string_bytes words.now)) }
    ensures in_range { IfOk result (λ m. IfSome m IsTaskInRange) }
{
    let Some(matches) = taken(demo_command(alloc)?, words)? else {
        return Ok(None);
    };
    let seed = natural_in(&matches, "seed");
    let sections = natural_in(&matches, "sections");
    let vertices = natural_in(&matches, "vertices");
    let command = Command::Demo {
        seed,
        sections,
        vertices,
    };
    Ok(Some(with_workers(command, &matches)))
}
