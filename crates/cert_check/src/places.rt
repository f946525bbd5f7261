//! The listed states by their numbers.

ghost use Rattle.std.specs.Prelude.{◌≡◌, ◌≤◌, ◌<◌, IfOk};
ghost use Rattle.cert_check.specs.inside.Runs.{ListsRun};

use state_numbering::Numbering;
use std::alloc::AllocError;

/// The line that lists a state, and the distance there; line 0 where no line does.
#[derive(Clone, Copy, Debug, PartialEq, Eq)]
pub(crate) struct Place {
    pub(crate) line: u32,
    pub(crate) distance: u32,
}

/// Where no line lists the state.
const EMPTY: Place = Place {
    line: 0,
    distance: 0,
};

/// Lists the states from the first to the last in this place, where all are numbers of states and greater than those
/// listed before. The last place listed before isn't empty.
pub(crate) fn list_run(
    numbering: &Numbering<'_>,
    places: &mut Vec<Place>,
    first: u32,
    last: u32,
    place: Place,
) -> Result<bool, AllocError>
    requires order { first ≤ last }
    requires line { 0 < place.line }
    ensures { IfOk result (ListsRun numbering.now.entries numbering.now.words
        place.line first last place.distance places.old.items places.new.items) }
{
    if (first as usize) < places.len() || last >= numbering.count() {
        return Ok(false);
    }
    places.resize(first as usize, EMPTY)?;
    for state in first..last + 1 {
        if numbering.state(state).is_none() {
            return Ok(false);
        }
        places.push(place)?;
    }
    Ok(true)
}
