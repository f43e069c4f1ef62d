// Refusals 2 to 4: bytes, braces, grammar.
#![tactic(auto)]

ghost use Rattle.std.specs.Prelude.{◌≡◌, cond, List, ℕ, ltb, length, get_or};
ghost use Rattle.load_tokens.specs.Views.{places};
ghost use Rattle.load_tokens.specs.Scratch.{Scratch};
ghost use Rattle.load_syntax.specs.Syntax.{Capacity, Parsed, Read};

use load_tokens::Token;
use spec_file::Refusal;

// Where reading stopped: at a token, or at the end of the text.
fn place_of(tokens: &[Token], i: usize, end: usize) -> usize
    ensures { result ≡ cond (ltb i (length tokens.now)) (get_or (places tokens.now) i 0) end }
{
    match tokens.get(i) {
        Some(token) => token.place(),
        None => end,
    }
}

// The refusals 3 and 4, of the tokens of a text of that length.
fn parse(tokens: &mut [Token], long: usize) -> Result<(), (Refusal, usize)>
    ensures { (s : List ℕ) → Parsed s tokens.old tokens.new long result }
{
    if let Some(p) = load_depth::too_deep(tokens) {
        return Err((Refusal::TooDeep, p));
    }
    match load_parse::read(tokens) {
        Ok(()) => Ok(()),
        Err(i) => Err((Refusal::Ungrammatical, place_of(tokens, i, long))),
    }
}

// The refusals 2 to 4. The first tokens, as many as the answer says, are those of a text that has none of them; all else is scratch.
// The caller, load_judge, is called with room for as many tokens as a text has bytes that is not too long.
pub fn read(s: &[u8], tokens: &mut [Token]) -> Result<usize, (Refusal, usize)>
    requires { Capacity s.now tokens.old }
    ensures read { Read s.now tokens.new result }
    ensures scratch { Scratch tokens.old tokens.new }
{
    match load_scan::scan(s, tokens) {
        Err(p) => Err((Refusal::BadByte, p)),
        Ok(count) => {
            parse(&mut tokens[..count], s.len())?;
            Ok(count)
        }
    }
}
