// The inputs of a question: its readings as values, and which of them are good.
#![tactic(auto)]

ghost use Rattle.std.specs.Prelude.{◌≡◌, map, length};
ghost use Rattle.spec_calc.specs.Value.{heard, good};

use spec_calc::Reading;

// The inputs of a question: the value of each letter, and whether it is good.
// Stays: two arrays side by side, for a calculation's value is computed from the values alone, and its lowest bad letter from the others.
#[derive(Clone, Copy)]
pub struct Inputs {
    pub values: [f64; 21],
    pub good: [bool; 21],
    ghost whole: { length values ≡ 21 },
}

// The value of a reading, and 0 for one that has none.
pub fn value_of(r: Reading) -> f64
    ensures { result ≡ heard r }
{
    match r {
        Reading::Value(x) => x,
        Reading::NeverHeard | Reading::Invalid => 0.0,
    }
}

fn is_good(r: Reading) -> bool
    ensures { result ≡ good r }
{
    match r {
        Reading::Value(x) => calc_arith::is_finite(x),
        Reading::NeverHeard | Reading::Invalid => false,
    }
}

// The readings as inputs: they are matched on once, before any calculation runs.
// Stays: 21 readings are an array passed by value, a rule of the project (01, "Forms for each place").
pub fn inputs_of(rs: [Reading; 21]) -> Inputs
    ensures { (result.values ≡ map heard rs) × (result.good ≡ map good rs) }
{
    let mut inputs = Inputs {
        values: [0.0; 21],
        good: [false; 21],
    };
    for (i, r) in rs.iter().enumerate() {
        inputs.values[i] = value_of(*r);
        inputs.good[i] = is_good(*r);
    }
    inputs
}
