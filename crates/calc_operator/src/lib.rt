// The operators of a calculation on any values, by IEEE 754.
#![tactic(auto)]

ghost use Rattle.std.specs.Prelude.{◌≡◌};
ghost use Rattle.spec_calc.specs.Value.{truth, is_true, apply};

use spec_calc::Operator;

// Comparisons and logic give 1 or 0.
pub fn truth_of(b: bool) -> f64
    ensures { result ≡ truth b }
{
    if b { 1.0 } else { 0.0 }
}

// Anything but 0 is true as an operand.
pub fn is_true_value(x: f64) -> bool
    ensures { result ≡ is_true x }
{
    x != 0.0
}

// The operator o between x and y, by IEEE 754.
pub fn operation(o: Operator, x: f64, y: f64) -> f64
    ensures { result ≡ apply o x y }
{
    match o {
        Operator::Or => truth_of(is_true_value(x) || is_true_value(y)),
        Operator::And => truth_of(is_true_value(x) && is_true_value(y)),
        Operator::Less => truth_of(x < y),
        Operator::AtMost => truth_of(x <= y),
        Operator::More => truth_of(x > y),
        Operator::AtLeast => truth_of(x >= y),
        Operator::Equal => truth_of(x == y),
        Operator::Differs => truth_of(x != y),
        Operator::Plus => x + y,
        Operator::Minus => x - y,
        Operator::Times => x * y,
        Operator::Over => x / y,
    }
}
