// The program export: writes the rules in rules.acf back as text. 02, ticket 6.
#![tactic(auto)]

// A missing file is an empty one, and so is one that cannot be read to its end. One byte more than the longest file shows that it is too long.
fn main(rt: HostRuntime) {
    let mut text = [0u8; 16385];
    let n = prog_input::read_or_empty(&rt, b"rules.acf", &mut text);
    let mut table = [0u8; 35108];
    let mut out = [0u8; prog_export::MOST_PRINTED];
    let printed = prog_export::write_back(&text[..n], &mut table, &mut out);
    prog_output::put(&rt, &out[..printed]);
}
