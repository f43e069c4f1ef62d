// Whether a calculation is allowed, its value, and whether it is true.
#![tactic(auto)]

ghost use Rattle.std.specs.Prelude.{◌≡◌, not, cond};
ghost use Rattle.spec_lists.specs.Select.{missing};
ghost use Rattle.spec_calc.specs.Value.{finite, worth, true_worth};
ghost use Rattle.spec_calc.specs.Reader.{tree_of};
ghost use Rattle.spec_rule.specs.Rule.{true_tree};

use spec_calc::{Reading, Worth};

// Whether a text is a calculation.
pub fn allowed(s: &[u8]) -> bool
    ensures { result ≡ not (missing (tree_of s.now)) }
{
    calc_value::compute(s, &[0.0; 21]).is_some()
}

// A value, or bad by arithmetic where it is not finite: so it is computed where an evaluated part is not.
fn if_finite(v: f64) -> Worth
    ensures { result ≡ cond (finite v) (Worth.Is v) Worth.BadByArithmetic }
{
    if calc_arith::is_finite(v) {
        Worth::Is(v)
    } else {
        Worth::BadByArithmetic
    }
}

// What a text comes to: bad by the lowest letter of it that is bad, in either branch; or by arithmetic, if an evaluated part of it is not finite.
pub fn value(s: &[u8], rs: [Reading; 21]) -> Worth
    ensures { result ≡ worth rs (tree_of s.now) }
{
    let inputs = calc_inputs::inputs_of(rs);
    let Some(v) = calc_value::compute(s, &inputs.values) else {
        return Worth::NoCalculation;
    };
    match calc_letters::lowest_bad(s, &inputs.good) {
        Some(letter) => Worth::BadBy(letter),
        None => if_finite(v),
    }
}

// Whether it is a value, and counts as true.
fn near(w: Worth) -> bool
    ensures { result ≡ true_worth w }
{
    match w {
        Worth::Is(v) => calc_arith::near_one(v),
        Worth::NoCalculation | Worth::BadBy(_) | Worth::BadByArithmetic => false,
    }
}

// Whether a calculation is true of readings.
pub fn holds(s: &[u8], rs: [Reading; 21]) -> bool
    ensures { result ≡ true_tree rs (tree_of s.now) }
{
    near(value(s, rs))
}
