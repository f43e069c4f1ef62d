// Strings in parentheses and braces, as groups, inputs and rules have them.
#![tactic(auto)]

ghost use Rattle.std.specs.Prelude.{[], ◌∷◌};
ghost use Rattle.spec_grammar.specs.Reader.{named, string_list};
ghost use Rattle.load_elements.specs.Reads.{expected, Reads};
ghost use Rattle.load_strings.specs.Enclosed.{enclosed};

use load_elements::Parser;
use spec_grammar::Role;
use spec_token::Kind;

// A word that says this, and "(" STRING ")".
pub fn named(p: &mut Parser<'_>, word: Kind, says: Role, name: Role) -> Result<(), usize>
    ensures { Reads 1 (expected word says ∷ named name []) p.old p.new result }
{
    p.expect(word, says)?;
    p.expect(Kind::OpenParen, Role::NoRole)?;
    p.expect(Kind::String, name)?;
    p.expect(Kind::CloseParen, Role::NoRole)
}

// STRING { "," STRING }
fn strings(p: &mut Parser<'_>, role: Role) -> Result<(), usize>
    ensures { Reads 1 (string_list role []) p.old p.new result }
{
    p.expect(Kind::String, role)?;
    // Stays: no plainer as a `for`, since each turn reads two tokens and may stop.
    while p.next_is(Kind::Comma) {
        p.expect(Kind::Comma, Role::NoRole)?;
        p.expect(Kind::String, role)?;
    }
    Ok(())
}

// The same between two tokens.
pub fn strings_in(p: &mut Parser<'_>, first: Kind, last: Kind, role: Role) -> Result<(), usize>
    ensures { Reads 1 (enclosed first last (string_list role)) p.old p.new result }
{
    p.expect(first, Role::NoRole)?;
    strings(p, role)?;
    p.expect(last, Role::NoRole)
}
