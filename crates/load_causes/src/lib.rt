// Refusals 5 to 7, 12, 8 to 10: the causes in their order.
#![tactic(auto)]

ghost use Rattle.std.specs.Prelude.{◌≡◌, ◌<◌, ◌≤◌, length, IfSome};
ghost use Rattle.load_tokens.specs.Scratch.{Scratch};
ghost use Rattle.load_causes.specs.Cause.{refusal_at, JudgedTokens};

use load_spans::Tokens;
use spec_file::Refusal;

// The refusal for a cause, if it applies to a token, with that token's place.
fn refuse(t: &Tokens<'_>, refusal: Refusal, first: Option<usize>) -> Result<(), (Refusal, usize)>
    requires { IfSome first (λ i. i < length t.now.list.now) }
    ensures { result ≡ refusal_at t.now.list.now refusal first }
{
    match first {
        Some(i) => Err((refusal, t.list[i].place())),
        None => Ok(()),
    }
}

// The first cause that applies to a file's tokens, at its earliest place: spec_file/specs/Refusal.antt has their order.
// The caller, load_judge, lends seen, an entry for each byte of the text, to work in.
pub fn by_causes(t: &Tokens<'_>, seen: &mut [u16]) -> Result<(), (Refusal, usize)>
    requires { length t.now.list.now ≤ length seen.old }
    ensures judged { JudgedTokens t.now.text.now t.now.list.now result }
    ensures scratch { Scratch seen.old seen.new }
{
    refuse(t, Refusal::StringTooLong, load_limits::too_long(t))?;
    refuse(t, Refusal::TooMany, load_limits::too_many(t))?;
    refuse(t, Refusal::GivenAgain, load_repeats::given_again(t, seen))?;
    refuse(
        t,
        Refusal::UndefinedGroup,
        load_groups::undefined_group(t, seen),
    )?;
    refuse(t, Refusal::BadLevel, load_heads::bad_level(t))?;
    refuse(t, Refusal::UnknownWord, load_heads::unknown_word(t))?;
    refuse(t, Refusal::BadCalculation, load_calcs::bad_calculation(t))
}
