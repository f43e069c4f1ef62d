// The tokens of a text, found in one pass.
#![tactic(auto)]

ghost use Rattle.std.specs.Prelude.{◌≡◌, ◌≤◌, ◌<◌, length};
ghost use Rattle.spec_token.specs.Scanner as lexeme;
ghost use Rattle.load_scan.specs.Found.{Short, BeginsAt, Found};
ghost use Rattle.load_scan.specs.Stored.{kept_as, Small};
ghost use Rattle.load_tokens.specs.Scratch.{Scratch};
ghost use Rattle.load_scan.specs.Answer.{Answer};

use load_tokens::Token;
use load_word::{Class, Start};
use spec_grammar::Role;
use spec_token::Kind;

// A token before it is kept.
// Stays: a `Step` with a `Token` in it would be packed into one word and taken apart again at each step, where a token stands or
// not, so that a load of comments and blanks takes 1.3 times as long.
#[derive(Clone, Copy)]
pub struct Entry {
    pub kind: Kind,
    pub place: usize,
    pub start: usize,
    pub end: usize,
}

// What stands at a place: a token, or none, and where the scan goes on.
#[derive(Clone, Copy)]
pub enum Step {
    Token(Entry, usize),
    Skip(usize),
}

fn stop_token(s: &[u8], at: usize) -> Step
    requires { BeginsAt s.now at lexeme.stop }
    ensures { Found s.now at (Ok result) }
{
    let kind = load_word::stop_kind(s[at]);
    let end = at + 1;
    let entry = Entry {
        kind,
        place: at,
        start: at,
        end,
    };
    Step::Token(entry, end)
}

fn word_token(s: &[u8], at: usize) -> Step
    requires { BeginsAt s.now at lexeme.word }
    ensures { Found s.now at (Ok result) }
{
    let end = load_word::run_end(Class::Name, s, at);
    let kind = load_kind::word_kind(&s[at..end]);
    let entry = Entry {
        kind,
        place: at,
        start: at,
        end,
    };
    Step::Token(entry, end)
}

// A quoted text is a STRING, whatever it spells. Err is the place of a bad byte.
fn quote_token(s: &[u8], quote: usize) -> Result<Step, usize>
    requires { BeginsAt s.now quote lexeme.quote }
    ensures { Found s.now quote result }
{
    let end = load_quote::end_behind(s, quote)?;
    let start = quote + 1;
    let entry = Entry {
        kind: Kind::String,
        place: quote,
        start,
        end,
    };
    Ok(Step::Token(entry, end + 1))
}

// What the byte at a place begins. Err is the place of a bad byte.
fn step_at(s: &[u8], at: usize) -> Result<Step, usize>
    requires short { Short s.now }
    requires here { at < length s.now }
    ensures { Found s.now at result }
{
    match load_word::begun_by(s[at]) {
        Start::Blank => Ok(Step::Skip(at + 1)),
        Start::Comment => Ok(Step::Skip(load_word::run_end(Class::Comment, s, at + 1))),
        Start::Quote => quote_token(s, at),
        Start::Stop => Ok(stop_token(s, at)),
        Start::Word => Ok(word_token(s, at)),
        Start::Wrong => Err(at),
    }
}

// The token that is kept for an entry; what it says in its place in the grammar isn't known yet.
fn kept_as(entry: Entry) -> Token
    requires { Small entry }
    ensures { result ≡ kept_as entry }
{
    Token {
        kind: entry.kind,
        role: Role::NoRole,
        place: entry.place as u16,
        start: entry.start as u16,
        end: entry.end as u16,
    }
}

// How many tokens a text has; they are kept in order from the first on. Err is the place of the first bad byte.
// The caller, load_judge by load_syntax, has looked at the text's length and has room for as many tokens as the text has bytes.
pub fn scan(s: &[u8], tokens: &mut [Token]) -> Result<usize, usize>
    requires short { Short s.now }
    requires room { length s.now ≤ length tokens.old }
    ensures answer { Answer s.now tokens.new result }
    ensures scratch { Scratch tokens.old tokens.new }
{
    let mut at = 0;
    let mut count = 0;
    // Stays: no plainer as a `for`, since the step jumps behind a token.
    while at < s.len() {
        match step_at(s, at)? {
            Step::Token(entry, to) => {
                tokens[count] = kept_as(entry);
                count += 1;
                at = to;
            }
            Step::Skip(to) => {
                at = to;
            }
        }
    }
    Ok(count)
}
