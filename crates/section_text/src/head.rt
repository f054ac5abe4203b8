//! The lines before the first object.
ghost use Rattle.std.specs.Prelude.{◌≡◌, IfOk, IfErr};
ghost use Rattle.section_core.specs.Costs.{cost_parts};
ghost use Rattle.section_core.specs.Parts.{is_read, only_name};
ghost use Rattle.section_core.specs.Laws.{Facts};
ghost use Rattle.section_core.specs.Machine.{Item as Said, begun, advance, at_version, at_cost, at_rule};
ghost use Rattle.section_core.specs.Steps.{after, first_broken};
ghost use Rattle.section_core.specs.Reader.{judged};
ghost use Rattle.section_core.specs.Tallies.{Tallies};
ghost use Rattle.section_text.specs.Items.{ItemIs};
ghost use Rattle.section_text.specs.States.{TakesItem, state_of, IsFlatState, IsLineMemory};
ghost use Rattle.section_core.specs.declared.parts.Version.TheVariants as Version;

use crate::item::Item;
use crate::states::{Body, State};
use fku_types::{CostRule, Fault, Name};
use section_core::{Head, Tally, Version, mix};
use std::alloc::Global;

fn is_read(latest: Version, version: Version) -> bool
    ensures { result ≡ is_read latest version }
{
    match latest {
        Version::Two => true,
        Version::One => match version {
            Version::One => true,
            Version::Two => false,
        },
    }
}

/// The first line: the version.
pub fn at_version(latest: Version, item: Item, tally: &mut Tally, line: u32) -> Result<State, Fault>
    ensures takes { (it : Said) → ItemIs item it
        → (f : Facts) → Tallies tally.old f
        → TakesItem state_of line (judged (advance latest at_version it) (first_broken f it)) result tally.new
        (after f it) }
    ensures flat { IfOk result IsFlatState }
    ensures memory { IfErr result (IsLineMemory at_version) }
{
    match item {
        Item::Version(version) => {
            if !is_read(latest, version) {
                return Err(Fault::Form { line });
            }
            match version {
                Version::One => tally.begin(),
                Version::Two => {}
            }
            Ok(State::AtCost(version))
        }
        _ => Err(Fault::Form { line }),
    }
}

/// The second line: the cost rule.
pub fn at_cost(
    latest: Version,
    version: Version,
    item: Item,
    tally: &mut Tally,
    line: u32,
) -> Result<State, Fault>
    ensures takes { (it : Said) → ItemIs item it
        → (f : Facts) → Tallies tally.old f
        → TakesItem state_of line (judged (advance latest (at_cost version) it) (first_broken f it)) result tally.new
        (after f it) }
    ensures flat { IfOk result IsFlatState }
    ensures memory { IfErr result (IsLineMemory (at_cost version)) }
{
    match item {
        Item::Span => Ok(State::AtRule(version, CostRule::Span)),
        Item::Area => Ok(State::AtRule(version, CostRule::Area)),
        Item::Mix(span, area) => match mix(span, area) {
            None => Err(Fault::Range { line }),
            Some(cost) => Ok(State::AtRule(version, cost)),
        },
        _ => Err(Fault::Form { line }),
    }
}

// The name of the one object of version 1.
fn only_name() -> Name
    ensures { result ≡ only_name }
{
    Name::of(b"object").unwrap()
}

// The state after the head.
fn begun(alloc: Global, version: Version, head: Head) -> State
    ensures is { state_of result ≡ begun version (cost_parts head.cost) head.rule }
    ensures flat { IsFlatState result }
{
    match version {
        Version::One => State::InObject(version, head, Vec::new(alloc), only_name(), Body::Bare),
        Version::Two => State::NoObject(head),
    }
}

/// The third line: the rule of pairs.
pub fn at_rule(
    alloc: Global,
    latest: Version,
    version: Version,
    cost: CostRule,
    item: Item,
    tally: &mut Tally,
    line: u32,
) -> Result<State, Fault>
    ensures takes { (it : Said) → ItemIs item it
        → (f : Facts) → Tallies tally.old f
        → TakesItem state_of line (judged (advance latest (at_rule version (cost_parts cost)) it) (first_broken f it))
        result tally.new (after f it) }
    ensures flat { IfOk result IsFlatState }
    ensures memory { IfErr result (IsLineMemory (at_rule version (cost_parts cost))) }
{
    match item {
        Item::Rule(rule) => Ok(begun(alloc, version, Head { cost, rule })),
        _ => Err(Fault::Form { line }),
    }
}
