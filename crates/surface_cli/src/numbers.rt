//! The numbers in the matches of a command.
ghost use Rattle.std.specs.Prelude.{◌≡◌, ◌≤◌, ℕ, pos, neg_ℤ, codes};
ghost use Rattle.clap.specs.Words.{found_of, rows_of};
ghost use Rattle.clap.specs.declared.builder.value_parser.ValueParser.TheVariants.{Signed};
ghost use Rattle.fku_types.specs.Points.{IsCoordinate};
ghost use Rattle.surface_cli.specs.Arguments.{integer_of, natural_of};
ghost use Rattle.surface_cli.specs.Taking.{HasNatural, HasValue};

use clap::ArgMatches;
use fku_types::limits::MAX_COORDINATE;

/// The number of an id whose value passed a range without negative numbers.
pub(crate) fn natural_in(matches: &ArgMatches<'_>, id: &str) -> u32
    requires { (least most : ℕ) × HasNatural least most id.now (found_of matches.now) }
    ensures value { result ≡ natural_of id.now (rows_of (found_of matches.now)) }
    ensures in_range { (least most : ℕ) → HasNatural least most id.now (found_of matches.now)
        → (least ≤ result) × (result ≤ most) }
{
    matches.get_one::<u32>(id).unwrap()
}

/// The height of `--height`, whose value passed the range of heights.
pub(crate) fn height_in(matches: &ArgMatches<'_>) -> i32
    requires { HasValue (Signed (neg_ℤ (pos MAX_COORDINATE)) (pos MAX_COORDINATE)) (codes "height")
        (found_of matches.now) }
    ensures value { result ≡ integer_of (codes "height") (rows_of (found_of matches.now)) }
    ensures in_range { IsCoordinate result }
{
    matches.get_one::<i32>("height").unwrap()
}
