// The inputs of a group's calculations, straight from the states and values of a register: no reading is made and taken apart again.
#![tactic(auto)]

ghost use Rattle.std.specs.Prelude.{◌≡◌, map, ◌<◌};
ghost use Rattle.spec_calc.specs.Value.{heard, good};
ghost use Rattle.spec_calc.specs.States.{reading_at, readings};

use calc_inputs::Inputs;

// The value of the k-th reading, and whether it is good.
fn input_at(states: &[u8], values: &[f64], k: usize) -> (f64, bool)
    ensures { (result.0 ≡ heard (reading_at states.now values.now k)) × (result.1 ≡ good (reading_at states.now values.now k)) }
{
    let state = states.get(k).copied().unwrap_or(0);
    if state != 2 {
        return (0.0, false);
    }
    let value = values.get(k).copied().unwrap_or(f64::NAN);
    (value, calc_arith::is_finite(value))
}

// The inputs of the 21 readings that begin at an index. Inner: reg_kept calls it, with 21 times a group's number, of which there are 64.
pub fn inputs_at(states: &[u8], values: &[f64], from: usize) -> Inputs
    requires { from < 1344 }
    ensures { (result.values ≡ map heard (readings states.now values.now from))
        × (result.good ≡ map good (readings states.now values.now from)) }
{
    let mut heard = [0.0; 21];
    let mut good = [false; 21];
    for i in 0..21 {
        let (value, is_good) = input_at(states, values, from + i);
        heard[i] = value;
        good[i] = is_good;
    }
    Inputs {
        values: heard,
        good,
    }
}
