//! What has been read so far.
ghost use Rattle.std.specs.Prelude.{◌≡◌, false, MatchOption};
ghost use Rattle.section_text.specs.States.{is_ended};

use fku_types::{CostRule, Name};
use section_core::{Contour, Draft, Head, Link, Section, Version};
use std::mem;

/// What has been read of an object: the last section and its last contour may still be open.
#[derive(Drop)]
pub enum Body {
    Bare,
    InSection(Vec<Section>, Section),
    /// The last contour lacks one more point than the number says.
    InContour(Vec<Section>, Section, Contour, u32),
    InLinks(Vec<Section>, Vec<Link>),
}

/// What has been read: the last object may still be open.
#[derive(Drop)]
pub enum State {
    AtVersion,
    AtCost(Version),
    AtRule(Version, CostRule),
    /// Version 2, before its first object.
    NoObject(Head),
    InObject(Version, Head, Vec<Draft>, Name, Body),
    Ended(Version, Head, Vec<Draft>),
}

/// Whether the text has ended.
pub fn is_ended(state: &State) -> bool
    ensures { result ≡ is_ended state.now }
{
    matches!(state, State::Ended(_, _, _))
}

/// Takes the parts out of a text that has ended; none for any other state.
pub fn ended_parts(state: &mut State) -> Option<(Version, Head, Vec<Draft>)>
    ensures { MatchOption result (is_ended state.old ≡ false) (λ p. state.old ≡ State.Ended p.0 p.1 p.2) }
{
    match mem::replace(state, State::AtVersion) {
        State::Ended(version, head, drafts) => Some((version, head, drafts)),
        _ => None,
    }
}
