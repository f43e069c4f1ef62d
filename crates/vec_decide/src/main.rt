// Answers the questions, which have roles, of each file that a line of the file index names, by the rules in another.
#![tactic(auto)]

ghost use Rattle.io.specs.Counts.{IsPrefixLen};

use prog_output::put;
use prog_text::Writer;
use spec_decision::Answer;
use std::io::{Eprint, Print};
use std::rt::Files;
use vec_words::{Text, decode, for_each_line, word};

// Roles parted by commas, one behind the other in the pool, and the length of each; how many. There is room for more than a question may carry.
// `none` is no role, and none stands behind a last comma; one that is empty is `-`. A length that is too long stays so: 255 is over the 60 bytes of a role.
fn roles(s: &[u8], pool: &mut [u8], lengths: &mut [u8]) -> usize
    ensures { IsPrefixLen result lengths.new }
{
    if s.is_empty() || s == b"none".as_slice() {
        return 0;
    }
    let mut end = 0;
    let mut n = 0;
    for role in s.strip_suffix(b",").unwrap_or(s).split(|b| *b == b',') {
        if n == lengths.len() {
            break;
        }
        let length = decode(role, &mut pool[end..]);
        lengths[n] = u8::try_from(length).unwrap_or(u8::MAX);
        end += length;
        n += 1;
    }
    n
}

fn put_answer(rt: &(impl Print + Eprint), a: Answer) {
    let mut out = [0u8; 32];
    let mut w = Writer::new(&mut out);
    prog_answer::answer_text(&mut w, a);
    let end = w.at;
    put(rt, &out[..end]);
    put(rt, b"\n");
}

// A line: group, user, host, level, readings, roles.
fn answer(rt: &(impl Print + Eprint), table: &[u8], line: &[u8]) {
    let group = Text::<256>::read(word(line, 0));
    let user = Text::<256>::read(word(line, 1));
    let host = Text::<256>::read(word(line, 2));
    let mut pool = [0u8; 4096];
    let mut lengths = [0u8; 64];
    let n = roles(word(line, 5), &mut pool, &mut lengths);
    put_answer(
        rt,
        ask::decide(
            table,
            group.as_slice(),
            user.as_slice(),
            host.as_slice(),
            &pool,
            &lengths[..n],
            vec_words::number(word(line, 3)),
            vec_words::readings(word(line, 4), b','),
        ),
    );
}

// Rules that are refused leave no table, and each answer says so.
fn load(rt: &(impl Files + Print + Eprint), path: &[u8], table: &mut [u8]) {
    let mut rules = [0u8; 16385];
    let n = prog_input::read(rt, path, &mut rules);
    load::load(&rules[..n], table);
}

// A line of the index: a file of rules and one of questions.
fn judge(rt: &(impl Files + Print + Eprint), line: &[u8]) {
    put(rt, line);
    put(rt, b"\n");
    let mut table = [0u8; 35108];
    load(rt, word(line, 0), &mut table);
    let mut buf = io::large_buffer();
    let n = prog_input::read(rt, word(line, 1), &mut buf);
    for_each_line(&buf[..n], |line| answer(rt, &table, line));
}

fn main(rt: HostRuntime) {
    let mut buf = io::buffer();
    let n = prog_input::read(&rt, b"index", &mut buf);
    for_each_line(&buf[..n], |line| judge(&rt, line));
}
