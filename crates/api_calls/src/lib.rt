// The calls that only read: on the table, and on a calculation's text.
#![tactic(auto)]

ghost use Rattle.std.specs.Prelude.{◌≡◌, ℕ, ◌<◌};
ghost use Rattle.spec_rule.specs.Question.{lent_question};
ghost use Rattle.spec_decision.specs.Decision.{decide};
ghost use Rattle.spec_decision.specs.LookUp.{look_up};
ghost use Rattle.api_script.specs.Script.{call_of};
ghost use Rattle.api_script.specs.Replies.{answer_to};

use api_script::Reply;
use spec_calc::Reading;
use spec_decision::{Answer, Found};

// A question to decide_checked, which is called on a table only.
fn ask_checked(
    lent: &[u8],
    group: &[u8],
    user: &[u8],
    host: &[u8],
    roles: &[u8],
    lengths: &[u8],
    level: u32,
    rs: [Reading; 21],
) -> Answer
    ensures { result ≡ decide lent.now (lent_question group.now user.now host.now roles.now lengths.now level rs) }
{
    if table::is_table(lent) {
        ask_checked::decide_checked(lent, group, user, host, roles, lengths, level, rs)
    } else {
        Answer::NotTable
    }
}

// The same of a look-up.
fn find_checked(lent: &[u8], group: &[u8], letter: u32) -> Found
    ensures { result ≡ look_up lent.now group.now letter }
{
    if table::is_table(lent) {
        ask_input::find_input_checked(lent, group, letter)
    } else {
        Found::NotTable
    }
}

// A call on the table.
// Stays: a call is a number, as the definition Script.call_of and the theorem of sequence are stated with it.
fn call_on_table(
    what: usize,
    a: &[u8],
    b: &[u8],
    c: &[u8],
    roles: &[u8],
    lengths: &[u8],
    skip: usize,
    n: u32,
    rs: [Reading; 21],
    lent: &[u8],
) -> Reply
    requires { (2 < what) × (what < 10) }
    ensures { (room : ℕ) → result ≡ answer_to lent.now (call_of what a.now b.now c.now roles.now lengths.now skip n rs room) }
{
    if what == 3 {
        return Reply::Checked(table::is_table(lent));
    }
    if what == 4 {
        return Reply::Answered(ask::decide(lent, a, b, c, roles, lengths, n, rs));
    }
    if what == 5 {
        return Reply::Answered(ask_checked(lent, a, b, c, roles, lengths, n, rs));
    }
    if what == 6 {
        return Reply::Found(ask::find_input(lent, a, n));
    }
    if what == 7 {
        return Reply::Found(find_checked(lent, a, n));
    }
    if what == 8 {
        let name = ask::look_up(lent, a, n);
        return Reply::Named(name.len());
    }
    Reply::Found(ask::group_at(lent, skip))
}

// A call on a calculation's text.
fn call_on_text(
    what: usize,
    a: &[u8],
    b: &[u8],
    c: &[u8],
    roles: &[u8],
    lengths: &[u8],
    skip: usize,
    n: u32,
    rs: [Reading; 21],
    lent: &[u8],
) -> Reply
    requires { 9 < what }
    ensures { (room : ℕ) → result ≡ answer_to lent.now (call_of what a.now b.now c.now roles.now lengths.now skip n rs room) }
{
    if what == 10 {
        return Reply::Allowed(calc::allowed(a));
    }
    if what == 11 {
        return Reply::Valued(calc::value(a, rs));
    }
    Reply::Holds(calc::holds(a, rs))
}

// A call that only reads: it is given the table as &[u8]. Its caller, api_call, has made the calls that write itself.
// Whatever room is lent for a text, the others answer the same.
pub fn call_reading(
    what: usize,
    a: &[u8],
    b: &[u8],
    c: &[u8],
    roles: &[u8],
    lengths: &[u8],
    skip: usize,
    n: u32,
    rs: [Reading; 21],
    lent: &[u8],
) -> Reply
    requires { 2 < what }
    ensures { (room : ℕ) → result ≡ answer_to lent.now (call_of what a.now b.now c.now roles.now lengths.now skip n rs room) }
{
    if what < 10 {
        call_on_table(what, a, b, c, roles, lengths, skip, n, rs, lent)
    } else {
        call_on_text(what, a, b, c, roles, lengths, skip, n, rs, lent)
    }
}
