// Operations on the values of a calculation, and the test for true. Of a side or a condition that is not finite comes not-a-number.
#![tactic(auto)]

ghost use Rattle.std.specs.Prelude.{◌≡◌, ◌&&◌};
ghost use Rattle.std.specs.Float.{nan};
ghost use Rattle.spec_calc.specs.Value.{finite, near_one};
ghost use Rattle.calc_arith.specs.Strict.{strict_not, strict_apply, strict_choice};

use calc_operator::{is_true_value, operation, truth_of};
use spec_calc::Operator;

// Whether a value is neither infinite nor not-a-number.
#[tactic(auto, using(crate::specs::laws::Finite::finite_is))]
pub fn is_finite(x: f64) -> bool
    ensures { result ≡ finite x }
{
    x.is_finite()
}

fn both_finite(x: f64, y: f64) -> bool
    ensures { result ≡ finite x && finite y }
{
    is_finite(x) && is_finite(y)
}

// Not v; not-a-number where v is not finite.
#[tactic(auto, using(crate::specs::laws::Finite::nan_is))]
pub fn denied(v: f64) -> f64
    ensures { result ≡ strict_not v }
{
    if is_finite(v) {
        truth_of(!is_true_value(v))
    } else {
        f64::NAN
    }
}

// The value of `c ? x : y`; not-a-number where c is not finite. The branch that is not chosen may be anything.
#[tactic(auto, using(crate::specs::laws::Finite::nan_is))]
pub fn chosen(c: f64, x: f64, y: f64) -> f64
    ensures { result ≡ strict_choice c x y }
{
    if is_finite(c) {
        if is_true_value(c) { x } else { y }
    } else {
        f64::NAN
    }
}

// The operator o between x and y; not-a-number where a side is not finite.
#[tactic(auto, using(crate::specs::laws::Finite::nan_is))]
pub fn applied(o: Operator, x: f64, y: f64) -> f64
    ensures { result ≡ strict_apply o x y }
{
    if both_finite(x, y) {
        operation(o, x, y)
    } else {
        f64::NAN
    }
}

// Whether a value counts as true at the end of a calculation.
pub fn near_one(x: f64) -> bool
    ensures { result ≡ near_one x }
{
    0.99 < x && x < 1.01
}
