// Makes the calls of each script that the file index names, and prints of each what it answers and all rights then.
#![tactic(auto)]

use prog_output::put;
use std::io::{Eprint, Print};
use std::rt::Files;
use vec_calls::{Call, MOST_TEXT};
use vec_clients::Register;
use vec_words::{decode, for_each_line, word};

fn load(rt: &(impl Print + Eprint), r: &mut Register, line: &[u8]) {
    let mut rules = [0; MOST_TEXT];
    let n = decode(word(line, 1), &mut rules);
    let answer = reload::reload(&mut r.places, &mut r.states, &rules[..n], &mut r.table);
    vec_answers::put_reloaded(rt, answer);
}

// Makes the call of a line and prints its answer, and behind it the rights then.
fn make(rt: &(impl Print + Eprint), r: &mut Register, line: &[u8]) {
    match vec_calls::call_of(line) {
        Some(Call::Load) => load(rt, r, line),
        _ => vec_clients::make(rt, r, line),
    }
    vec_answers::put_rights(rt, &r.places);
}

// Makes the calls of a script on an empty register over a zeroed buffer.
fn run(rt: &(impl Print + Eprint), script: &[u8]) {
    let mut r = Register {
        places: [0; 28672],
        states: [0; 1344],
        values: [0.0; 1344],
        table: [0; 35108],
    };
    for_each_line(script, |line| make(rt, &mut r, line));
}

// A line of the index: a script's file.
fn judge(rt: &(impl Files + Print + Eprint), path: &[u8]) {
    put(rt, path);
    put(rt, b"\n");
    let mut buf = io::large_buffer();
    let n = prog_input::read(rt, path, &mut buf);
    run(rt, &buf[..n]);
}

fn main(rt: HostRuntime) {
    let mut buf = io::buffer();
    let n = prog_input::read(&rt, b"index", &mut buf);
    for_each_line(&buf[..n], |line| judge(&rt, line));
}
