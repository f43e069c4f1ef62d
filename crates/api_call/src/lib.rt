// One call of a script, of any kind.
#![tactic(auto)]

ghost use Rattle.std.specs.Prelude.{◌+◌, ◌*◌, ◌≤◌, length};
ghost use Rattle.api_script.specs.Script.{script_of, call_at};
ghost use Rattle.api_script.specs.Replies.{lent_of, Made};

use api_script::Reply;

// Makes the i-th call of a script. A list of warnings is written into arrays of its own, an exported text into bytes of its own: the table is lent to no
// call but a load for writing.
// The caller, sequence, asks for calls that stand in the script whole.
pub fn call(
    script: &[usize],
    i: usize,
    pool: &[u8],
    levels: &[u32],
    states: &[u8],
    values: &[f64],
    lent: &mut [u8],
    numbers: &mut [u8],
    places: &mut [u16],
    text: &mut [u8],
) -> Reply
    requires { i * 16 + 16 ≤ length script.now }
    ensures { Made (lent_of lent.old numbers.old places.old text.old)
        (call_at (script_of script.now pool.now levels.now states.now values.now (length text.old)) i)
        (lent_of lent.new numbers.new places.new text.new) result }
{
    let what = api_script::word(script, i, 0);
    let a = api_script::text_at(script, pool, i, 1);
    let skip = api_script::word(script, i, 7);
    if what == 0 {
        return Reply::Loaded(load::load(a, lent));
    }
    if what == 1 {
        return Reply::Listed(warnings::list_warnings(a, skip, numbers, places));
    }
    if what == 2 {
        return Reply::Exported(text::export(lent, text));
    }
    let b = api_script::text_at(script, pool, i, 3);
    let c = api_script::text_at(script, pool, i, 5);
    let roles = api_script::text_at(script, pool, i, 9);
    let lengths = api_script::text_at(script, pool, i, 11);
    let n = api_script::level(levels, i);
    let rs = calc_readings::readings(states, values, api_script::word(script, i, 8));
    api_calls::call_reading(what, a, b, c, roles, lengths, skip, n, rs, lent)
}
