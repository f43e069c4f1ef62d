// Refusals 2 to 10 and 12: the judgment on a text.
#![tactic(auto)]

ghost use Rattle.std.specs.Prelude.{◌≤◌, length};
ghost use Rattle.load_tokens.specs.Scratch.{Scratch};
ghost use Rattle.load_syntax.specs.Syntax.{Capacity};
ghost use Rattle.load_judge.specs.Judged.{Judged};

use load_spans::Tokens;
use load_tokens::Token;
use spec_file::Refusal;
use spec_grammar::Role;
use spec_token::Kind;

// How many tokens there is room for. A text has no more tokens than bytes, and clearing room for the longest text takes as long as loading a
// short one.
pub const SHORT: usize = 2048;

pub const LONGEST: usize = 16384;

// What stands there before a token does.
pub const BLANK: Token = Token {
    kind: Kind::Uag,
    role: Role::NoRole,
    place: 0,
    start: 0,
    end: 0,
};

// The refusals of a text, with scratch for N tokens.
fn judge_by<const N: usize>(text: &[u8], tokens: &mut [Token]) -> Result<usize, (Refusal, usize)>
    requires capacity { Capacity text.now tokens.old }
    requires short { length text.now ≤ N }
    requires fits { N ≤ 16384 }
    ensures { Judged text.now tokens.new result }
{
    let n = load_syntax::read(text, tokens)?;
    let mut seen = [0u16; N];
    let found = Tokens {
        text,
        list: &tokens[..n],
    };
    load_causes::by_causes(&found, &mut seen)?;
    Ok(n)
}

// The refusals 2 to 10 and 12, each with its place, or how many tokens a text has that has none: they stand first. Else the tokens are
// scratch. The callers, warnings and load, have looked at the text's length and have room for as many tokens as it has bytes.
pub fn judge(text: &[u8], tokens: &mut [Token]) -> Result<usize, (Refusal, usize)>
    requires { Capacity text.now tokens.old }
    ensures judged { Judged text.now tokens.new result }
    ensures scratch { Scratch tokens.old tokens.new }
{
    if text.len() <= SHORT {
        judge_by::<SHORT>(text, tokens)
    } else {
        judge_by::<LONGEST>(text, tokens)
    }
}
