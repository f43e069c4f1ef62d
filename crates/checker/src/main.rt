// The checker: reads standard input and prints what is wrong with it as an access security file. 01, "Two programs".
#![tactic(auto)]

// One byte more than the longest file shows that it is too long. The input is read to its end, so that whoever writes it can finish.
fn main(rt: HostRuntime) {
    let mut text = [0u8; 16385];
    let n = prog_input::read_whole(&mut rt.stdin(), &mut text);
    let mut out = [0u8; prog_check::MOST_PRINTED];
    let printed = prog_check::check(&text[..n], &mut out);
    prog_output::put(&rt, &out[..printed]);
}
