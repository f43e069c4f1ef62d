// Readings from the states and values that a caller in C lends.
#![tactic(auto)]

ghost use Rattle.std.specs.Prelude.{◌≡◌, drop};
ghost use Rattle.spec_calc.specs.States.{reading, readings};

use spec_calc::Reading;

#[tactic(auto, using(crate::specs::laws::Readings::unheard, crate::specs::laws::Readings::valued, crate::specs::laws::Readings::invalid))]
pub fn reading(state: u8, value: f64) -> Reading
    ensures { result ≡ reading state value }
{
    match state {
        0 => Reading::NeverHeard,
        2 => Reading::Value(value),
        _ => Reading::Invalid,
    }
}

// What stands from an index on; nothing, if the index lies beyond the end.
fn tail<T>(xs: &[T], from: usize) -> &[T]
    ensures { result.now ≡ drop from xs.now }
{
    match xs.get(from..) {
        Some(rest) => rest,
        None => &[],
    }
}

// The 21 readings that begin at an index; those beyond the states were never heard.
pub fn readings(states: &[u8], values: &[f64], from: usize) -> [Reading; 21]
    ensures { result ≡ readings states.now values.now from }
{
    let (states, values) = (tail(states, from), tail(values, from));
    let mut rs = [Reading::NeverHeard; 21];
    for (i, r) in rs.iter_mut().enumerate() {
        let state = states.get(i).copied().unwrap_or(0);
        let value = values.get(i).copied().unwrap_or(f64::NAN);
        *r = reading(state, value);
    }
    rs
}
