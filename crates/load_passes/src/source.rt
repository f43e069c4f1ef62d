ghost use Rattle.std.specs.Prelude.{length};
ghost use Rattle.load_spans.specs.Spans.{AmongTokens};

use load_spans::Tokens;

// The tokens of a file, and those that define its user groups and host groups, by whose order references are numbered.
#[derive(Clone, Copy)]
pub struct Source<'a> {
    pub tokens: Tokens<'a>,
    pub uags: &'a [u16],
    pub hags: &'a [u16],
    pub ghost users: { AmongTokens uags.now (length tokens.list.now) },
    pub ghost hosts: { AmongTokens hags.now (length tokens.list.now) },
}
