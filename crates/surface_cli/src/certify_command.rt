//! The command `certify` as `clap` reads it.
ghost use Rattle.std.specs.Prelude.{◌≡◌, IfOk, false};
ghost use Rattle.clap.specs.Words.{app_of, rule_of};
ghost use Rattle.surface_cli.specs.Arguments.{certify_app, pair_rule};

use clap::{Arg, ArgAction, Command, value_parser};
use fku_types::limits::MAX_PAIRS;
use std::alloc::{AllocError, Global};

/// `--pair`, from 1 on; the default is 1.
fn pair_argument<'a>(alloc: Global) -> Arg<'a>
    ensures rule { rule_of result ≡ pair_rule }
    ensures local { result.global ≡ false }
{
    Arg::new(alloc, "pair")
        .long("pair")
        .action(ArgAction::Set)
        .value_parser(value_parser!(u32).range(1..=MAX_PAIRS as i64))
        .default_value("1")
}

/// `certify [--pair K]`.
pub(crate) fn certify_command<'a>(alloc: Global) -> Result<Command<'a>, AllocError>
    ensures { IfOk result (λ c. app_of c ≡ certify_app) }
{
    Command::new(alloc, "certify").arg(pair_argument(alloc))
}
