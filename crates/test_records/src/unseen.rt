//! Searches that have not seen that nothing is missing, and what the test after them says: yes where only the limit was
//! met, no where something is missing, or where the key of one leads to another.
ghost use Rattle.std.specs.Prelude.{◌<◌};

use std::alloc::{AllocError, Global};
use std::test::Fail;
use tlcheck_situations::{Found, STATES, Searched, is_known_closed, situation_key, state_key};

/// Whether a search of so many states sees that nothing is missing, and whether that is known after the test.
fn outcome(alloc: Global, found: Found, most: usize) -> Result<(bool, bool), AllocError> {
    let Searched { found, closed } = found.searched(alloc, most)?;
    let known = is_known_closed(&found, alloc, closed)?;
    Ok((closed, known))
}

/// The same, of so many clients.
fn outcome_of(alloc: Global, clients: u32, most: usize) -> Result<(bool, bool), AllocError>
    requires { 0 < clients }
{
    outcome(alloc, Found::new(alloc, clients), most)
}

#[test]
fn where_the_limit_is_met(rt: HostRuntime) -> Result<(), Fail> {
    let alloc = rt.alloc();
    assert_eq!(rt; outcome_of(alloc, 1, 0)?, (false, false));
    assert_eq!(rt; outcome_of(alloc, 1, 148)?, (false, false));
    assert_eq!(rt; outcome_of(alloc, 1, 296)?, (false, true));
    assert_eq!(rt; outcome_of(alloc, 1, 297)?, (true, true));
    assert_eq!(rt; outcome_of(alloc, 2, 5097)?, (false, true));
    Ok(())
}

/// All that one client comes to: 296 states and 319 situations.
fn all_of_one(alloc: Global) -> Result<Found, AllocError> {
    let Searched {
        found,
        closed: _closed,
    } = Found::all(alloc, 1)?;
    Ok(found)
}

/// Places of states and of situations: the first ones and some, up to the last state.
const PLACES: &[usize] = &[0, 1, 2, 40, 148, 159, 294, 295];

/// The outcome where the key of the state at a place of all leads to the first state.
fn with_state_key_taken(
    alloc: Global,
    all: &Found,
    place: usize,
) -> Result<(bool, bool), AllocError> {
    let mut found = Found::new(alloc, 1);
    if let Some(state) = all.states().get(place) {
        found.lead_state(state_key(state, 1), 0)?;
    }
    outcome(alloc, found, STATES)
}

/// The outcome where the key of the situation at a place of all leads to the first that has another key.
fn with_situation_key_taken(
    alloc: Global,
    all: &Found,
    place: usize,
) -> Result<(bool, bool), AllocError> {
    let mut found = Found::new(alloc, 1);
    if let Some(situation) = all.situations().get(place) {
        found.lead_situation(situation_key(situation), 0)?;
    }
    outcome(alloc, found, STATES)
}

/// The first of the places where the search or the test says yes, though a key there is taken.
fn first_missed(alloc: Global) -> Result<Option<usize>, AllocError> {
    let all = all_of_one(alloc)?;
    for place in PLACES {
        if with_state_key_taken(alloc, &all, *place)? != (false, false) {
            return Ok(Some(*place));
        }
        if with_situation_key_taken(alloc, &all, *place)? != (false, false) {
            return Ok(Some(*place));
        }
    }
    Ok(None)
}

#[test]
fn where_a_key_is_taken(rt: HostRuntime) -> Result<(), Fail> {
    assert_eq!(rt; first_missed(rt.alloc())?, None);
    Ok(())
}

/// Whether all that one client comes to is known to be closed, where the key of the state at a place leads to the next.
fn is_closed_with_one_key(alloc: Global, place: usize) -> Result<bool, AllocError> {
    let mut found = all_of_one(alloc)?;
    if let Some(state) = found.states().get(place) {
        let key = state_key(state, 1);
        found.lead_state(key, place.saturating_add(1))?;
    }
    is_known_closed(&found, alloc, false)
}

#[test]
fn where_two_states_have_one_key(rt: HostRuntime) -> Result<(), Fail> {
    for place in PLACES {
        let closed = is_closed_with_one_key(rt.alloc(), *place)?;
        assert!(rt; !closed, "state {place}");
    }
    assert!(rt; is_closed_with_one_key(rt.alloc(), 296)?);
    Ok(())
}
