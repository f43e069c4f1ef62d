// What a calculation comes to, of the inputs of a question: true, false, or bad by a letter.
#![tactic(auto)]

ghost use Rattle.std.specs.Prelude.{◌≡◌, false};
ghost use Rattle.spec_lists.specs.Select.{missing};
ghost use Rattle.spec_calc.specs.Reader.{tree_of};
ghost use Rattle.calc_truth.specs.Answer.{outcome_with, near_computed};

use calc_inputs::Inputs;
use spec_rule::Outcome;

// Whether there is a value, and it counts as true.
fn near(value: Option<f64>) -> Outcome
    ensures { result ≡ near_computed value }
{
    match value {
        Some(v) => {
            if calc_arith::near_one(v) {
                Outcome::True
            } else {
                Outcome::False
            }
        }
        None => Outcome::False,
    }
}

// What a calculation comes to, from the letters' values and which of them are good.
// Inner: callers have the text of a rule in a checked table, which is a calculation.
pub fn outcome_with(s: &[u8], inputs: &Inputs) -> Outcome
    requires { missing (tree_of s.now) ≡ false }
    ensures { result ≡ outcome_with inputs.now.values inputs.now.good (tree_of s.now) }
{
    match calc_letters::lowest_bad(s, &inputs.good) {
        Some(letter) => Outcome::Stopped(letter),
        None => near(calc_value::compute(s, &inputs.values)),
    }
}
