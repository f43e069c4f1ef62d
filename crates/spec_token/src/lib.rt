#![tactic(auto)]

// The terminals of the grammar: 001, "Lexical tokens".

#[derive(Clone, Copy, PartialEq, Eq)]
pub enum Kind {
    Uag,
    Hag,
    Asg,
    Rule,
    Calc,
    Inp,
    Int,
    Float,
    String,
    OpenParen,
    CloseParen,
    OpenBrace,
    CloseBrace,
    Comma,
}
