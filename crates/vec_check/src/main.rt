// Checks and loads the file that each line of the file index names: what the checker prints, what the load answers, and what it leaves in the lent bytes.
#![tactic(auto)]

use prog_output::put;
use std::io::{Eprint, Print};
use std::rt::Files;
use vec_words::{for_each_line, word};

// A line of the index: a file, how many bytes are lent, and the file of its table where there is one.
fn judge(rt: &(impl Files + Print + Eprint), line: &[u8]) {
    put(rt, line);
    put(rt, b"\n");
    let room = vec_words::number(word(line, 1)) as usize;
    vec_load::check_and_load(rt, word(line, 0), room, word(line, 2));
}

fn main(rt: HostRuntime) {
    let mut buf = io::large_buffer();
    let n = prog_input::read(&rt, b"index", &mut buf);
    for_each_line(&buf[..n], |line| judge(&rt, line));
}
