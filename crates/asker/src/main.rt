// The asker: answers the questions of standard input by the rules in rules.acf. 01, "Two programs".
#![tactic(auto)]

// A missing file is an empty one. One byte more than the longest file shows that it is too long.
fn main(rt: HostRuntime) {
    let mut text = [0u8; 16385];
    let n = prog_input::read_or_empty(&rt, b"rules.acf", &mut text);
    let mut table = [0u8; 35108];
    prog_ask::answer(&rt, &text[..n], &mut table, &mut rt.stdin(), 4096);
}
