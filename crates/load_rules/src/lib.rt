// A rule of an access security group.
#![tactic(auto)]

ghost use Rattle.std.specs.Prelude.{[], ◌∷◌, ◌++◌};
ghost use Rattle.spec_grammar.specs.declared.Role.TheVariants as role;
ghost use Rattle.spec_grammar.specs.Reader.{once, perhaps, often, string_list, no_role, headed, block, inner, log_option, rule_item, rule_block};
ghost use Rattle.load_elements.specs.Reads.{expected, Reads};
ghost use Rattle.load_strings.specs.Enclosed.{in_braces, in_parens};
ghost use Rattle.load_rules.specs.Rules.{permission, rule_head};

use load_blocks::block;
use load_elements::Parser;
use load_strings::{named, strings_in};
use spec_grammar::Role;
use spec_token::Kind;

// The end of a rule_head, with or without rule_log_option.
fn log_option(p: &mut Parser<'_>) -> Result<(), usize>
    ensures { Reads 1 (once log_option ∷ []) p.old p.new result }
{
    if !p.next_is(Kind::Comma) {
        return p.expect(Kind::CloseParen, Role::NoRole);
    }
    p.expect(Kind::Comma, Role::NoRole)?;
    p.expect(Kind::String, Role::LogOption)?;
    p.expect(Kind::CloseParen, Role::NoRole)
}

// What follows the level in a rule_head.
fn permission(p: &mut Parser<'_>) -> Result<(), usize>
    ensures { Reads 1 permission p.old p.new result }
{
    p.expect(Kind::Comma, Role::NoRole)?;
    p.expect(Kind::String, Role::Permission)?;
    log_option(p)
}

// RULE and rule_head.
fn rule_head(p: &mut Parser<'_>) -> Result<(), usize>
    ensures { Reads 1 rule_head p.old p.new result }
{
    p.expect(Kind::Rule, Role::RuleWord)?;
    p.expect(Kind::OpenParen, Role::NoRole)?;
    p.expect(Kind::Int, Role::Level)?;
    permission(p)
}

// UAG or HAG, and the groups that it names.
fn groups(p: &mut Parser<'_>, word: Kind, role: Role) -> Result<(), usize>
    ensures { Reads 1 (no_role word ∷ in_parens (string_list role)) p.old p.new result }
{
    p.expect(word, Role::NoRole)?;
    strings_in(p, Kind::OpenParen, Kind::CloseParen, role)
}

// An unknown predicate with this name.
fn predicate(p: &mut Parser<'_>, name: Kind) -> Result<(), usize>
    ensures { Reads 1 (expected name role.UnknownPredicate ∷ headed (perhaps (block inner) ∷ []))
        p.old p.new result }
{
    p.expect(name, Role::UnknownPredicate)?;
    p.head()?;
    block(p)
}

// rule_list_item
fn rule_item(p: &mut Parser<'_>) -> Result<(), usize>
    ensures { Reads 1 (once rule_item ∷ []) p.old p.new result }
{
    let Some(name) = p.name() else {
        return Err(p.at);
    };
    match name {
        Kind::Uag => groups(p, Kind::Uag, Role::UagNamed),
        Kind::Hag => groups(p, Kind::Hag, Role::HagNamed),
        Kind::Calc => named(p, Kind::Calc, Role::CalcWord, Role::Calculation),
        _ => predicate(p, name),
    }
}

// rule_body
fn rule_block(p: &mut Parser<'_>) -> Result<(), usize>
    ensures { Reads 1 (in_braces (λ k. once rule_item ∷ often rule_item ∷ k)) p.old p.new result }
{
    p.expect(Kind::OpenBrace, Role::NoRole)?;
    rule_item(p)?;
    // Stays: no plainer as a `for`, since each turn reads as many tokens as the grammar says and may stop.
    while !p.next_is(Kind::CloseBrace) {
        rule_item(p)?;
    }
    p.expect(Kind::CloseBrace, Role::NoRole)
}

// A rule.
pub fn rule(p: &mut Parser<'_>) -> Result<(), usize>
    ensures { Reads 1 (rule_head ++ (perhaps rule_block ∷ [])) p.old p.new result }
{
    rule_head(p)?;
    if !p.next_is(Kind::OpenBrace) {
        return Ok(());
    }
    rule_block(p)
}
