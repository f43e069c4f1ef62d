// A parser's cursor over a file's tokens, and what 001 allows in an unknown part: elements, lists and heads.
// Each function reads on from where the parser stands, and writes the roles of the tokens that it reads. Err is the index of the token
// that may not come, or the number of tokens where they end too soon; it is final, and the caller hands it on.
#![tactic(auto)]

ghost use Rattle.std.specs.Prelude.{◌≡◌, [], ◌∷◌};
ghost use Rattle.spec_token.specs.declared.Kind.TheVariants as kind;
ghost use Rattle.spec_grammar.specs.Reader.{once, perhaps, element, more_until, arguments, headed, second_block};
ghost use Rattle.load_elements.specs.Reads.{kind_at, is_next, name_of, is_element, expected, Reads};

use load_tokens::{Token, is_name_kind};
use spec_grammar::Role;
use spec_token::Kind;

// The tokens, and the index of the one that stands next.
#[derive(Drop)]
pub struct Parser<'a> {
    pub tokens: &'a mut [Token],
    pub at: usize,
}

// What may stand as a generic_element: a name or a number.
fn is_element(kind: Kind) -> bool
    ensures { result ≡ is_element (Some kind) }
{
    is_name_kind(kind) || kind == Kind::Int || kind == Kind::Float
}

impl<'a> Parser<'a> {
    // The kind of the token that stands next; none at the end.
    pub fn kind(&self) -> Option<Kind>
        ensures { result ≡ kind_at self.now }
    {
        Some(self.tokens.get(self.at)?.kind)
    }

    // Whether a token of this kind stands next.
    pub fn next_is(&self, kind: Kind) -> bool
        ensures { result ≡ is_next kind (kind_at self.now) }
    {
        self.kind() == Some(kind)
    }

    // The kind of the token that stands next, if an element may have it as its name.
    pub fn name(&self) -> Option<Kind>
        ensures { result ≡ name_of (kind_at self.now) }
    {
        match self.kind() {
            Some(kind) if is_name_kind(kind) => Some(kind),
            _ => None,
        }
    }

    // A token of this kind, which gets this role.
    pub fn expect(&mut self, kind: Kind, role: Role) -> Result<(), usize>
        ensures { Reads 1 (expected kind role ∷ []) self.old self.new result }
    {
        if !self.next_is(kind) {
            return Err(self.at);
        }
        self.tokens[self.at].role = role;
        self.at += 1;
        Ok(())
    }

    // generic_element
    pub fn element(&mut self) -> Result<(), usize>
        ensures { Reads 1 (once element ∷ []) self.old self.new result }
    {
        match self.kind() {
            Some(kind) if is_element(kind) => self.expect(kind, Role::NoRole),
            _ => Err(self.at),
        }
    }

    // { "," generic_element } and the token that closes.
    fn list_rest(&mut self, close: Kind) -> Result<(), usize>
        ensures { Reads 1 (more_until close) self.old self.new result }
    {
        // Stays: no plainer as a `for`, since each turn reads as many tokens as the grammar says and may stop.
        while self.next_is(Kind::Comma) {
            self.expect(Kind::Comma, Role::NoRole)?;
            self.element()?;
        }
        self.expect(close, Role::NoRole)
    }

    // What follows "(" in a generic_head.
    pub fn arguments(&mut self) -> Result<(), usize>
        ensures { Reads 1 (once arguments ∷ []) self.old self.new result }
    {
        if self.next_is(Kind::CloseParen) {
            return self.expect(Kind::CloseParen, Role::NoRole);
        }
        self.element()?;
        self.list_rest(Kind::CloseParen)
    }

    // generic_head
    pub fn head(&mut self) -> Result<(), usize>
        ensures { Reads 1 (headed []) self.old self.new result }
    {
        self.expect(Kind::OpenParen, Role::NoRole)?;
        self.arguments()
    }

    // generic_list and "}"
    pub fn list(&mut self) -> Result<(), usize>
        ensures { Reads 1 (once element ∷ more_until kind.CloseBrace) self.old self.new result }
    {
        self.element()?;
        self.list_rest(Kind::CloseBrace)
    }

    // The second half of a generic_list_block, which need not come.
    pub fn second_block(&mut self) -> Result<(), usize>
        ensures { Reads 0 (perhaps second_block ∷ []) self.old self.new result }
    {
        if !self.next_is(Kind::OpenBrace) {
            return Ok(());
        }
        self.expect(Kind::OpenBrace, Role::NoRole)?;
        self.element()?;
        self.expect(Kind::Comma, Role::NoRole)?;
        self.list()
    }
}
