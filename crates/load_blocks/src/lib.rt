// The blocks behind an unknown item or predicate: recursion for nested blocks, a loop for siblings.
#![tactic(auto)]

ghost use Rattle.std.specs.Prelude.{◌≡◌, [], ◌∷◌};
ghost use Rattle.spec_grammar.specs.Reader.{once, perhaps, block, block_inside, block_name, block_number, top, inner};
ghost use Rattle.load_elements.specs.Reads.{kind_at, Reads};
ghost use Rattle.load_blocks.specs.Blocks.{is_number, to_come, Opens};

use load_elements::Parser;
use spec_grammar::Role;
use spec_token::Kind;

// How a block begins: with one element and its "}", done, or with an element that may nest, up to its "(".
#[derive(Clone, Copy)]
pub enum Opened {
    One,
    Done,
    Nested,
}

fn is_number(kind: Option<Kind>) -> bool
    ensures { result ≡ is_number kind }
{
    matches!(kind, Some(Kind::Int | Kind::Float))
}

// What follows "{" and a number.
fn after_number(p: &mut Parser<'_>) -> Result<Opened, usize>
    ensures { Opens 1 (λ d. once (block_number d) ∷ []) p.old p.new result }
{
    if p.next_is(Kind::CloseBrace) {
        p.expect(Kind::CloseBrace, Role::NoRole)?;
        return Ok(Opened::One);
    }
    p.expect(Kind::Comma, Role::NoRole)?;
    p.list()?;
    Ok(Opened::Done)
}

// What follows "{" and a name: "(", or what follows a number.
fn after_name(p: &mut Parser<'_>) -> Result<Opened, usize>
    ensures { Opens 1 (λ d. once (block_name d) ∷ []) p.old p.new result }
{
    if p.next_is(Kind::OpenParen) {
        p.expect(Kind::OpenParen, Role::NoRole)?;
        return Ok(Opened::Nested);
    }
    after_number(p)
}

// What follows "{".
fn inside(p: &mut Parser<'_>) -> Result<Opened, usize>
    ensures { Opens 1 (λ d. once (block_inside d) ∷ []) p.old p.new result }
{
    if is_number(p.kind()) {
        p.element()?;
        return after_number(p);
    }
    p.element()?;
    after_name(p)
}

// [ generic_block ], as far as it does not nest.
fn open_block(p: &mut Parser<'_>) -> Result<Opened, usize>
    ensures { Opens 0 (λ d. perhaps (block d) ∷ []) p.old p.new result }
{
    if !p.next_is(Kind::OpenBrace) {
        return Ok(Opened::Done);
    }
    p.expect(Kind::OpenBrace, Role::NoRole)?;
    inside(p)
}

// What is left of an opened block. The blocks within it are opened and read the same way; there is less left for each.
fn nested(p: &mut Parser<'_>, opened: Opened) -> Result<(), usize>
    ensures { Reads 0 (to_come inner opened) p.old p.new result }
{
    match opened {
        Opened::One | Opened::Done => Ok(()),
        // Stays: no plainer as a `for`, since each turn reads as many tokens as the grammar says and may stop.
        Opened::Nested => loop {
            p.arguments()?;
            let within = open_block(p)?;
            nested(p, within)?;
            let Some(name) = p.name() else {
                return p.expect(Kind::CloseBrace, Role::NoRole);
            };
            p.expect(name, Role::NoRole)?;
            p.expect(Kind::OpenParen, Role::NoRole)?;
        },
    }
}

// [ generic_block ]
pub fn block(p: &mut Parser<'_>) -> Result<(), usize>
    ensures { Reads 0 (perhaps (block inner) ∷ []) p.old p.new result }
{
    let opened = open_block(p)?;
    nested(p, opened)
}

// [ generic_block ] or generic_list_block, behind an unknown item.
pub fn top_block(p: &mut Parser<'_>) -> Result<(), usize>
    ensures { Reads 0 (perhaps (block top) ∷ []) p.old p.new result }
{
    match open_block(p)? {
        Opened::One => p.second_block(),
        Opened::Done => Ok(()),
        Opened::Nested => nested(p, Opened::Nested),
    }
}
