//! What is known of the corners of a ring, so that no corner is tested again while nothing near it has changed.

ghost use Rattle.std.specs.Prelude.{◌≡◌, ◌<◌, ℤ, List, length, map, remove};
ghost use Rattle.fku_types.specs.declared.points.Point.{Point};
ghost use Rattle.ring_polygons.specs.declared.twins.Twins.{Twins};
ghost use Rattle.ring_polygons.specs.States.{AreTrue, moved_state};

use crate::ears::{after_place, before_place};

/// What is known of a corner.
#[derive(Clone, Copy)]
pub enum EarState {
    /// It may be an ear. The search for a vertex that blocks it begins at this place.
    Open(usize),
    /// It is no ear, since it does not turn as the ring does.
    NotConvex,
    /// It is no ear, since the vertex at this place blocks it.
    Hindered(usize),
}

/// What is known of a corner after the vertex at a place is removed, which is not one of the corner's own.
fn moved(place: usize, state: EarState) -> EarState
    ensures { result ≡ moved_state place state }
{
    match state {
        EarState::Open(from) => EarState::Open(if from > place { from - 1 } else { from }),
        EarState::NotConvex => EarState::NotConvex,
        EarState::Hindered(other) => {
            if other == place {
                EarState::Open(other)
            } else {
                EarState::Hindered(if other > place { other - 1 } else { other })
            }
        }
    }
}

/// The same for each corner.
fn move_each(states: &mut [EarState], place: usize)
    ensures { states.new ≡ map (moved_state place) states.old }
{
    for state in states.iter_mut() {
        *state = moved(place, *state);
    }
}

/// Forgets what a cut changes: the neighbours of the corner that is cut off may be ears now, and so may the corners
/// that its vertex blocked. What is known of the others stays true of the ring without that corner.
pub fn forget(states: &mut [EarState], place: usize)
    requires { place < length states.now }
    ensures { (twins : Twins) (sign : ℤ) (ring : List Point) → 3 < length ring
        → AreTrue twins sign ring states.old
        → AreTrue twins sign (remove ring place) (remove states.new place) }
{
    let before = before_place(states.len(), place);
    let after = after_place(states.len(), place);
    move_each(states, place);
    states[before] = EarState::Open(0);
    states[after] = EarState::Open(0);
}
