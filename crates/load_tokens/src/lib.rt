// How a load keeps tokens: a slice of structs, and in specs/ what they mean.
#![tactic(auto)]

ghost use Rattle.std.specs.Prelude.{◌≡◌, ◌≤◌, length};
ghost use Rattle.spec_grammar.specs.Codes.{kind_number};
ghost use Rattle.load_tokens.specs.Names.{is_name};

use spec_grammar::Role;
use spec_token::Kind;

// A token of a file: its kind, what it says in its place in the grammar, its place, and where its text starts and ends.
#[derive(Clone, Copy)]
pub struct Token {
    pub kind: Kind,
    pub role: Role,
    pub place: u16,
    pub start: u16,
    pub end: u16,
}

impl Token {
    ghost use Rattle.load_tokens.specs.Arrays.{between};

    // Its place as a count.
    pub fn place(&self) -> usize
        ensures { result ≡ self.now.place }
    {
        usize::from(self.place)
    }

    // Its text in the file. Callers, load_spans::Tokens, know from load_scan's promise (specs/Stores: Good) that it lies there.
    pub fn text<'a>(&self, file: &'a [u8]) -> &'a [u8]
        requires { (self.now.start ≤ self.now.end) × (self.now.end ≤ length file.now) }
        ensures { result.now ≡ between file.now self.now.start self.now.end }
    {
        &file[usize::from(self.start)..usize::from(self.end)]
    }
}

// generic_block_elem_name, by the number of a kind: spec_grammar/specs/Codes.antt, kind_number. A number of no kind is none.
pub fn is_name(kind: u8) -> bool
    ensures { result ≡ is_name kind }
{
    kind <= Kind::Inp as u8 || kind == Kind::String as u8
}

// The same by the kind.
pub fn is_name_kind(kind: Kind) -> bool
    ensures { result ≡ is_name (kind_number kind) }
{
    matches!(
        kind,
        Kind::Uag | Kind::Hag | Kind::Asg | Kind::Rule | Kind::Calc | Kind::Inp | Kind::String
    )
}
