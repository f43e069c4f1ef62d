// Says of each file that the lines of the file index name whether it is a table.
#![tactic(auto)]

use prog_output::put;
use std::io::{Eprint, Print};
use std::rt::Files;
use vec_words::{for_each_line, path};

// A line of the index: the four digits of a file.
fn judge(rt: &(impl Files + Print + Eprint), line: &[u8]) {
    let Some(name) = line.first_chunk::<4>() else {
        return;
    };
    let path = path(*name, *b".bin");
    let mut buf = io::large_buffer();
    let n = prog_input::read(rt, &path, &mut buf);
    put(rt, name);
    if table::is_table(&buf[..n]) {
        put(rt, b" table\n");
    } else {
        put(rt, b" no\n");
    }
}

fn main(rt: HostRuntime) {
    let mut buf = io::large_buffer();
    let n = prog_input::read(&rt, b"index", &mut buf);
    for_each_line(&buf[..n], |line| judge(&rt, line));
}
