// The library's functions for C that decide a question. include/hrazvanut.h calls them.
#![tactic(auto)]

ghost use Rattle.std.specs.Prelude.{◌≡◌, true};
ghost use Rattle.spec_table.specs.Check.{is_table};
ghost use Rattle.abi_ask.specs.Answers.{Answers};

#[unsafe(no_mangle)]
pub extern "C" fn hrazvanut_abi_decide_letter(
    table: &[u8],
    group: &[u8],
    user: &[u8],
    host: &[u8],
    roles: &[u8],
    lengths: &[u8],
    level: u32,
    states: &[u8],
    values: &[f64],
) -> u64
    ensures { Answers table.now group.now user.now host.now roles.now lengths.now level
        states.now values.now result }
{
    let rs = calc_readings::readings(states, values, 0);
    let answer = ask::decide(table, group, user, host, roles, lengths, level, rs);
    api_answers::answer_number(answer)
}

// Asks of its caller: hrazvanut_abi_is_table has said 1 of the same bytes, or an accepted load left them.
#[unsafe(no_mangle)]
pub extern "C" fn hrazvanut_abi_decide_letter_checked(
    table: &[u8],
    group: &[u8],
    user: &[u8],
    host: &[u8],
    roles: &[u8],
    lengths: &[u8],
    level: u32,
    states: &[u8],
    values: &[f64],
) -> u64
    requires { is_table table.now ≡ true }
    ensures { Answers table.now group.now user.now host.now roles.now lengths.now level
        states.now values.now result }
{
    let rs = calc_readings::readings(states, values, 0);
    let answer = ask_checked::decide_checked(table, group, user, host, roles, lengths, level, rs);
    api_answers::answer_number(answer)
}
