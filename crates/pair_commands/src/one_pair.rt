//! A pair by its number.
ghost use Rattle.std.specs.Prelude.{◌≤◌, IfOk, IfErr, map};
ghost use Rattle.section_pairs.specs.Pairs.{pair_parts};
ghost use Rattle.pair_commands.specs.OnePair.{IsNoPair, IsPairOf};

use fku_types::Fault;
use section_pairs::GapPair;

/// The pair of a number, counted from 1; or the fault that there is none.
pub(crate) fn pair_of(pairs: &[GapPair], number: u32) -> Result<&GapPair, Fault>
    requires { 1 ≤ number }
    ensures found { IfOk result (λ p. IsPairOf (map pair_parts pairs.now) number (pair_parts p.now)) }
    ensures fault { IfErr result (IsNoPair (map pair_parts pairs.now) number) }
{
    match pairs.get(number as usize - 1) {
        Some(pair) => Ok(pair),
        None => Err(Fault::NoPair { number }),
    }
}
