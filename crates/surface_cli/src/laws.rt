//! A law: what `clap`'s contract requires of the commands.
ghost use Rattle.std.specs.Prelude.{◌≡◌, true};
ghost use Rattle.std.specs.List.{list_all};
ghost use Rattle.clap.specs.Words.{is_simple_and_free};
ghost use Rattle.surface_cli.specs.Commands.{commands};

/// A law: each command is simple, and none of its arguments has a rule on another one. For other commands the contract
/// of `clap` says nothing of the words that it takes.
pub fn commands_are_simple()
    ensures { list_all (λ entry. is_simple_and_free entry.app) commands ≡ true }
{}
