// The items of a file by 001's grammar, over its tokens: the role of each token, or where reading stops.
#![tactic(auto)]

ghost use Rattle.std.specs.Prelude.{[], ◌∷◌};
ghost use Rattle.spec_token.specs.declared.Kind.TheVariants as kind;
ghost use Rattle.spec_grammar.specs.declared.Role.TheVariants as role;
ghost use Rattle.spec_grammar.specs.Reader.{Expected, once, perhaps, often, no_role, string, named, headed, block, top, asg_block, asg_item, item};
ghost use Rattle.load_elements.specs.Reads.{Reads};
ghost use Rattle.load_strings.specs.Enclosed.{in_braces};
ghost use Rattle.load_parse.specs.Reads.{group, Members, Ends, Answers};

use load_blocks::top_block;
use load_elements::Parser;
use load_rules::rule;
use load_strings::{named, strings_in};
use load_tokens::Token;
use spec_grammar::Role;
use spec_token::Kind;

// A user or host access group: its word, the role of its name, and the role of its members.
fn group(p: &mut Parser<'_>, word: Kind, name: Role, member: Role) -> Result<(), usize>
    ensures { (x : Expected) → Members member x → Reads 1 (group word name x) p.old p.new result }
{
    named(p, word, Role::NoRole, name)?;
    if !p.next_is(Kind::OpenBrace) {
        return Ok(());
    }
    strings_in(p, Kind::OpenBrace, Kind::CloseBrace, member)
}

// asg_body_item
fn asg_item(p: &mut Parser<'_>) -> Result<(), usize>
    ensures { Reads 1 (once asg_item ∷ []) p.old p.new result }
{
    if p.next_is(Kind::Inp) {
        return named(p, Kind::Inp, Role::Input, Role::Pvname);
    }
    rule(p)
}

// asg_body
fn asg_block(p: &mut Parser<'_>) -> Result<(), usize>
    ensures { Reads 1 (in_braces (λ k. once asg_item ∷ often asg_item ∷ k)) p.old p.new result }
{
    p.expect(Kind::OpenBrace, Role::NoRole)?;
    asg_item(p)?;
    // Stays: no plainer as a `for`, since each turn reads as many tokens as the grammar says and may stop.
    while !p.next_is(Kind::CloseBrace) {
        asg_item(p)?;
    }
    p.expect(Kind::CloseBrace, Role::NoRole)
}

// An access security group.
fn asg(p: &mut Parser<'_>) -> Result<(), usize>
    ensures { Reads 1 (no_role kind.Asg ∷ named role.AsgName (perhaps asg_block ∷ [])) p.old p.new result }
{
    named(p, Kind::Asg, Role::NoRole, Role::AsgName)?;
    if !p.next_is(Kind::OpenBrace) {
        return Ok(());
    }
    asg_block(p)
}

// An unknown item.
fn unknown_item(p: &mut Parser<'_>) -> Result<(), usize>
    ensures { Reads 1 (string role.UnknownItem ∷ headed (perhaps (block top) ∷ [])) p.old p.new result }
{
    p.expect(Kind::String, Role::UnknownItem)?;
    p.head()?;
    top_block(p)
}

// asconfig_item
fn item(p: &mut Parser<'_>) -> Result<(), usize>
    ensures { Reads 1 (once item ∷ []) p.old p.new result }
{
    let Some(kind) = p.kind() else {
        return Err(p.at);
    };
    match kind {
        Kind::Uag => group(p, Kind::Uag, Role::UagName, Role::User),
        Kind::Hag => group(p, Kind::Hag, Role::HagName, Role::Host),
        Kind::Asg => asg(p),
        _ => unknown_item(p),
    }
}

// All of a file's tokens.
fn file(p: &mut Parser<'_>) -> Result<(), usize>
    ensures { Ends p.old p.new result }
{
    item(p)?;
    // Stays: no plainer as a `for`, since each turn reads as many tokens as the grammar says and may stop.
    while p.kind().is_some() {
        item(p)?;
    }
    Ok(())
}

// What each of a file's tokens says, or the index of the token at which reading stops; that is their number if they end too soon.
pub fn read(tokens: &mut [Token]) -> Result<(), usize>
    ensures { Answers tokens.old tokens.new result }
{
    let mut parser = Parser { tokens, at: 0 };
    file(&mut parser)
}
