// Any sequence of calls, by a script; and demand 3 as the contract of one function.
#![tactic(auto)]

ghost use Rattle.std.specs.Prelude.{◌≡◌, length};
ghost use Rattle.spec_rule.specs.Question.{lent_question};
ghost use Rattle.api_script.specs.Script.{script_of, calls};
ghost use Rattle.api_script.specs.Replies.{lent_of, left_by_calls};
ghost use Rattle.api_script.specs.Demand.{NeverMore};

use api_script::Asked;
use spec_calc::Reading;

// Makes the calls of a script, one after the other; their answers are dropped.
pub fn follow(
    script: &[usize],
    pool: &[u8],
    levels: &[u32],
    states: &[u8],
    values: &[f64],
    lent: &mut [u8],
    numbers: &mut [u8],
    places: &mut [u16],
    text: &mut [u8],
)
    ensures { lent_of lent.new numbers.new places.new text.new
        ≡ left_by_calls (lent_of lent.old numbers.old places.old text.old)
        (calls (script_of script.now pool.now levels.now states.now values.now (length text.old))) }
{
    for i in 0..script.len() / 16 {
        api_call::call(
            script, i, pool, levels, states, values, lent, numbers, places, text,
        );
    }
}

// A load, the calls of a script, and a question: what we don't know never gives more access.
pub fn load_then_ask(
    file: &[u8],
    script: &[usize],
    pool: &[u8],
    levels: &[u32],
    states: &[u8],
    values: &[f64],
    group: &[u8],
    user: &[u8],
    host: &[u8],
    roles: &[u8],
    lengths: &[u8],
    level: u32,
    rs: [Reading; 21],
    lent: &mut [u8],
    numbers: &mut [u8],
    places: &mut [u16],
    text: &mut [u8],
) -> Asked
    ensures { NeverMore (lent_of lent.old numbers.old places.old text.old) file.now
        (calls (script_of script.now pool.now levels.now states.now values.now (length text.old)))
        (lent_question group.now user.now host.now roles.now lengths.now level rs)
        (lent_of lent.new numbers.new places.new text.new) result }
{
    let loaded = load::load(file, lent);
    follow(
        script, pool, levels, states, values, lent, numbers, places, text,
    );
    let answer = ask::decide(lent, group, user, host, roles, lengths, level, rs);
    Asked { loaded, answer }
}
