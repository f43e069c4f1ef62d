// The value of a calculation's text: recursion over its expression.
#![tactic(auto)]

ghost use Rattle.std.specs.Prelude.{◌≡◌, map, ◌+◌, ◌≤◌, length};
ghost use Rattle.spec_calc.specs.Expression.{Tree, longest_calculation};
ghost use Rattle.spec_calc.specs.Reader.{wanted, have, tree_of};
ghost use Rattle.calc_value.specs.Parse.{value_with, ParsesAs, ContinuesAs, in_if, in_else};
ghost use Rattle.calc_value.specs.Answer.{computed};

use calc_symbol::{First, Joint};
use spec_calc::Reading;

// A longer text is no calculation, and no function here is called on one: their calls nest as deep as the text does.
const LONGEST: usize = 79;

// A text that may be a calculation, and the values of its letters. Each method reads from an offset on, and answers a value and the offset
// behind its text.
#[derive(Clone, Copy)]
struct Source<'a> {
    text: &'a [u8],
    values: &'a [f64; 21],
    ghost short: { length text.now ≤ longest_calculation },
    ghost whole: { length values.now ≡ 21 },
}

impl<'a> Source<'a> {
    // An operand, and the operators of level l and tighter behind it; at level 0 conditionals too.
    #[cycle(parse)]
    fn expression(&self, at: usize, l: usize) -> Option<(f64, usize)>
        requires { at ≤ length self.now.text.now }
        ensures { ParsesAs self.now.values.now self.now.text.now wanted l at (at + 1) result }
    {
        let (v, n) = self.operand(at)?;
        self.rest(n, l, v)
    }

    // What continues behind an operand of value v, at level l.
    #[cycle(parse)]
    fn rest(&self, at: usize, l: usize, v: f64) -> Option<(f64, usize)>
        requires { at ≤ length self.now.text.now }
        ensures { ContinuesAs self.now.values.now self.now.text.now have l at v result }
    {
        let Some((joint, p)) = calc_symbol::joint_at(self.text, at, l) else {
            return Some((v, at));
        };
        match joint {
            Joint::Choice => self.branches(p, v),
            Joint::By(o) => {
                let (u, n) = self.expression(p, calc_symbol::level_of(o) + 1)?;
                self.rest(n, l, calc_arith::applied(o, v, u))
            }
        }
    }

    // The two branches of a conditional whose condition has the value v.
    #[cycle(parse)]
    fn branches(&self, at: usize, v: f64) -> Option<(f64, usize)>
        requires { at ≤ length self.now.text.now }
        ensures { ContinuesAs self.now.values.now self.now.text.now in_if 0 at v result }
    {
        let (x, n) = self.expression(at, 0)?;
        let p = calc_symbol::mark_at(self.text, n, b':')?;
        self.other(p, v, x)
    }

    // The second branch, the first having the value x.
    #[cycle(parse)]
    fn other(&self, at: usize, v: f64, x: f64) -> Option<(f64, usize)>
        requires { at ≤ length self.now.text.now }
        ensures { (c : Tree) → value_with self.now.values.now c ≡ v → ContinuesAs self.now.values.now self.now.text.now (in_else c) 0 at x result }
    {
        let (y, n) = self.expression(at, 0)?;
        Some((calc_arith::chosen(v, x, y), n))
    }

    // A number, a letter, a prefix and its operand, or a parenthesis.
    #[cycle(parse)]
    fn operand(&self, at: usize) -> Option<(f64, usize)>
        requires { at ≤ length self.now.text.now }
        ensures { ParsesAs self.now.values.now self.now.text.now wanted 6 at (at + 1) result }
    {
        let (first, p) = calc_symbol::first_at(self.text, at)?;
        match first {
            First::Number(v) => Some((v, p)),
            First::Letter(i) => Some((self.values[usize::from(i)], p)),
            First::Minus => {
                let (v, n) = self.operand(p)?;
                Some((-v, n))
            }
            First::Not => {
                let (w, n) = self.operand(p)?;
                Some((calc_arith::denied(w), n))
            }
            First::Open => {
                let (x, n) = self.expression(p, 0)?;
                let q = calc_symbol::mark_at(self.text, n, b')')?;
                Some((x, q))
            }
        }
    }
}

// The value of a whole text, if it is a calculation, the letters having the values vs. calc and calc_truth call it with an array of 21.
pub fn compute(s: &[u8], vs: &[f64; 21]) -> Option<f64>
    requires { length vs.now ≡ 21 }
    ensures { result ≡ computed (map Reading.Value vs.now) (tree_of s.now) }
{
    if LONGEST < s.len() {
        return None;
    }
    let source = Source {
        text: s,
        values: vs,
    };
    let (v, n) = source.expression(0, 0)?;
    if calc_symbol::is_end(s, n) {
        Some(v)
    } else {
        None
    }
}
