//! The commands as `clap` reads them, and what it makes of words.
ghost use Rattle.std.specs.Prelude.{◌≡◌, IfOk, false, true, map, string_bytes};
ghost use Rattle.clap.specs.Words.{app_of, rule_of};
ghost use Rattle.surface_cli.specs.Arguments.{demo_app, height_rule, plain_app, sections_rule, seed_rule, slice_app, vertices_rule, workers_rule};
ghost use Rattle.surface_cli.specs.Taking.{IsTaken, is_sure_app};

use clap::error::ErrorKind;
use clap::{Arg, ArgAction, ArgMatches, Command, value_parser};
use fku_types::NoMemory;
use fku_types::limits::{
    MAX_COORDINATE, MAX_DEMO_SECTIONS, MAX_DEMO_VERTICES, MAX_SEED, MAX_WORKERS,
};
use std::alloc::{AllocError, Global};

/// `--workers`, from 1 on; the default is 1.
fn workers_argument<'a>(alloc: Global) -> Arg<'a>
    ensures rule { rule_of result ≡ workers_rule }
    ensures local { result.global ≡ false }
{
    Arg::new(alloc, "workers")
        .long("workers")
        .action(ArgAction::Set)
        .value_parser(value_parser!(u32).range(1..=MAX_WORKERS as i64))
        .default_value("1")
}

/// `--height`.
fn height_argument<'a>(alloc: Global) -> Arg<'a>
    ensures rule { rule_of result ≡ height_rule }
    ensures local { result.global ≡ false }
{
    Arg::new(alloc, "height")
        .long("height")
        .action(ArgAction::Set)
        .value_parser(value_parser!(i32).range(-(MAX_COORDINATE as i64)..=MAX_COORDINATE as i64))
        .required(true)
}

/// SEED.
fn seed_argument<'a>(alloc: Global) -> Arg<'a>
    ensures rule { rule_of result ≡ seed_rule }
    ensures local { result.global ≡ false }
{
    Arg::new(alloc, "seed")
        .action(ArgAction::Set)
        .value_parser(value_parser!(u32).range(0..=MAX_SEED as i64))
        .required(true)
}

/// SECTIONS, from 1 on.
fn sections_argument<'a>(alloc: Global) -> Arg<'a>
    ensures rule { rule_of result ≡ sections_rule }
    ensures local { result.global ≡ false }
{
    Arg::new(alloc, "sections")
        .action(ArgAction::Set)
        .value_parser(value_parser!(u32).range(1..=MAX_DEMO_SECTIONS as i64))
        .required(true)
}

/// VERTICES, from 3 on.
fn vertices_argument<'a>(alloc: Global) -> Arg<'a>
    ensures rule { rule_of result ≡ vertices_rule }
    ensures local { result.global ≡ false }
{
    Arg::new(alloc, "vertices")
        .action(ArgAction::Set)
        .value_parser(value_parser!(u32).range(3..=MAX_DEMO_VERTICES as i64))
        .required(true)
}

/// A command of this name, whose only option is `--workers`.
pub(crate) fn plain_command<'a>(alloc: Global, name: &'a str) -> Result<Command<'a>, AllocError>
    ensures { IfOk result (λ c. app_of c ≡ plain_app name.now) }
{
    Command::new(alloc, name).arg(workers_argument(alloc))
}

/// `slice --height=Z [--workers W]`.
pub(crate) fn slice_command<'a>(alloc: Global) -> Result<Command<'a>, AllocError>
    ensures { IfOk result (λ c. app_of c ≡ slice_app) }
{
    Command::new(alloc, "slice")
        .arg(height_argument(alloc))?
        .arg(workers_argument(alloc))
}

/// `demo SEED SECTIONS VERTICES [--workers W]`.
pub(crate) fn demo_command<'a>(alloc: Global) -> Result<Command<'a>, AllocError>
    ensures { IfOk result (λ c. app_of c ≡ demo_app) }
{
    Command::new(alloc, "demo")
        .arg(seed_argument(alloc))?
        .arg(sections_argument(alloc))?
        .arg(vertices_argument(alloc))?
        .arg(workers_argument(alloc))
}

/// What `clap` finds in the words, the first of which is in the place of the program's name; `None` if it refuses them.
pub(crate) fn taken<'a>(
    command: Command<'a>,
    words: &'a [String],
) -> Result<Option<ArgMatches<'a>>, NoMemory>
    requires sure { is_sure_app (app_of command) ≡ true }
    ensures { IfOk result (IsTaken (app_of command.entry) (map string_bytes words.entry.now)) }
{
    match command.try_get_matches_from(words) {
        Ok(matches) => Ok(Some(matches)),
        Err(error) => {
            if error.kind() == ErrorKind::OutOfMemory {
                Err(NoMemory)
            } else {
                Ok(None)
            }
        }
    }
}
