//! The moves of the listed states: each kept target is listed with at most one more.

ghost use Rattle.std.specs.Prelude.{◌≡◌, ◌<◌, ◌≤◌, ◌^◌, true, length, MatchOption};
ghost use Rattle.std.specs.List.{list_all};
ghost use Rattle.graph_rules.specs.Graphs.{row};
ghost use Rattle.cert_check.specs.inside.Moves.{IsFirstStuck, all_pass, is_stuck_at, steps_on};
ghost use Rattle.cert_check.specs.inside.Places.{place_within, places_from};

use crate::places::Place;
use round_core::StepGraph;

/// Whether the state is listed with at most this distance.
pub(crate) fn is_within(places: &[Place], state: u32, most: u64) -> bool
    ensures { result ≡ place_within places.now most state }
{
    match places.get(state as usize) {
        Some(place) => place.line != 0 && u64::from(place.distance) <= most,
        None => false,
    }
}

/// Whether each target of the state is listed with at most this distance.
fn leads_on<G: StepGraph>(graph: &G, places: &[Place], state: u32, most: u64) -> bool
    requires { state < length (G.lists graph.now) }
    ensures { result ≡ list_all (place_within places.now most) (row (G.lists graph.now) state) }
{
    let mut cursor = graph.first(state);
    while let Some(target) = graph.next(&mut cursor) {
        if !is_within(places, target, most) {
            return false;
        }
    }
    true
}

/// Whether the place of the state isn't empty, and the state doesn't lead on.
fn is_stuck<G: StepGraph>(graph: &G, places: &[Place], state: u32, place: Place) -> bool
    requires { state < length (G.lists graph.now) }
    ensures { result ≡ is_stuck_at (G.lists graph.now) places.now state place }
{
    place.line != 0 && !leads_on(graph, places, state, u64::from(place.distance) + 1)
}

/// The line of the first listed state that doesn't lead on.
pub(crate) fn first_stuck<G: StepGraph>(graph: &G, places: &[Place]) -> Option<u32>
    requires count { length places.now ≤ length (G.lists graph.now) }
    requires few { length places.now < 2 ^ 32 }
    ensures { let test = steps_on (G.lists graph.now) places.now in
        let listed = places_from 0 places.now in
        MatchOption result (all_pass test listed ≡ true) (IsFirstStuck test listed) }
{
    for (state, place) in places.iter().enumerate() {
        if is_stuck(graph, places, state as u32, *place) {
            return Some(place.line);
        }
    }
    None
}
