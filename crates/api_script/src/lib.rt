// A script of calls in numbers: its words, levels and texts, and what its calls answer.
#![tactic(auto)]

ghost use Rattle.std.specs.Prelude.{◌≡◌, ◌+◌, ◌*◌, ◌≤◌, ◌<◌, length, get_or};
ghost use Rattle.load_tokens.specs.Arrays.{between};
ghost use Rattle.api_script.specs.Script.{word, text_at};

use spec_calc::Worth;
use spec_decision::{Answer, Found};
use spec_export::Exported;
use spec_load::{Listed, Loaded};

// The answers of a load and of a question after it.
#[derive(Clone, Copy)]
pub struct Asked {
    pub loaded: Loaded,
    pub answer: Answer,
}

// What a call answers. Of the name that a look-up finds, its length: no answer holds a part of the table.
#[derive(Clone, Copy)]
pub enum Reply {
    Loaded(Loaded),
    Listed(Listed),
    Exported(Exported),
    Checked(bool),
    Answered(Answer),
    Found(Found),
    Named(usize),
    Allowed(bool),
    Valued(Worth),
    Holds(bool),
}

// What stands in the pool between two places, as far as it goes.
fn part<'a>(pool: &'a [u8], from: usize, to: usize) -> &'a [u8]
    ensures { result.now ≡ between pool.now from to }
{
    let to = to.min(pool.len());
    if from < to { &pool[from..to] } else { &[] }
}

// The j-th word of the i-th call. The caller, api_call, asks for calls that stand in the script whole.
pub fn word(script: &[usize], i: usize, j: usize) -> usize
    requires { (i * 16 + 16 ≤ length script.now) × (j < 16) }
    ensures { result ≡ word script.now i j }
{
    script[i * 16 + j]
}

// The level or letter of the i-th call.
pub fn level(levels: &[u32], i: usize) -> u32
    ensures { result ≡ get_or levels.now i 0 }
{
    levels.get(i).copied().unwrap_or(0)
}

// The text that the j-th word of the i-th call and the next give. The caller, api_call, asks for calls that stand whole, and for words that a call has.
pub fn text_at<'a>(script: &[usize], pool: &'a [u8], i: usize, j: usize) -> &'a [u8]
    requires { (i * 16 + 16 ≤ length script.now) × (j + 1 < 16) }
    ensures { result.now ≡ text_at script.now pool.now i j }
{
    part(pool, word(script, i, j), word(script, i, j + 1))
}
