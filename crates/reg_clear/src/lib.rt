// A register's readings cleared after a load, and whether its slices are long enough.
#![tactic(auto)]

ghost use Rattle.std.specs.Prelude.{◌≡◌, [], ◌≤◌, length, replicate};
ghost use Rattle.std.proofs.lemmas.List.Edits.{sets};
ghost use Rattle.spec_places.specs.Storage.{lent, all_readings};
ghost use Rattle.spec_places.specs.Calls.{has_room};

use reg_bytes::READINGS;

// Whether the slices are long enough for a register's places and states.
pub fn has_room(places: &[u8], states: &[u8]) -> bool
    ensures { result ≡ has_room (lent [] places.now states.now []) }
{
    reg_bytes::has_places(places) && READINGS <= states.len()
}

// Makes every reading never heard. Inner: reload calls it, and has asked for the states' length.
pub fn clear_states(states: &mut [u8])
    requires { all_readings ≤ length states.old }
    ensures { states.new ≡ sets states.old 0 (replicate all_readings 0) }
{
    states[..READINGS].fill(0);
}
