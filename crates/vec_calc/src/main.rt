// Works out each calculation of the file calc, and says of it what that file should say: allowed or refused, the value, and whether it is true.
#![tactic(auto)]

use prog_output::put;
use spec_calc::Worth;
use std::io::{Eprint, Print};
use vec_words::{Text, for_each_line, part};

// Whether x is y, signs of zero told apart.
fn same(x: f64, y: f64) -> bool {
    x == y && 1.0 / x == 1.0 / y
}

// Whether a value has the bits that are written.
fn value_written(x: f64, s: &[u8]) -> bool {
    same(x, vec_bits::float(s))
}

// Whether a letter is the one that is written behind `bad `.
fn letter_written(i: u8, s: &[u8]) -> bool {
    i <= 20 && part(s, 0, b' ') == b"bad".as_slice() && part(s, 1, b' ') == [b'A' + i].as_slice()
}

// Whether what a text comes to is as written: a value, or bad with the letter of a reading, or with none where an evaluated part is.
fn as_written(w: Worth, s: &[u8]) -> bool {
    match w {
        Worth::NoCalculation => false,
        Worth::BadBy(i) => letter_written(i, s),
        Worth::BadByArithmetic => s == b"bad -".as_slice(),
        Worth::Is(x) => s.len() == 16 && value_written(x, s),
    }
}

// The third field of a line is its value, the fifth the readings: the value is printed as written, if it is that.
fn put_allowed(rt: &(impl Print + Eprint), text: &[u8], line: &[u8]) {
    let written = part(line, 2, b'\t');
    let rs = vec_words::readings(part(line, 4, b'\t'), b' ');
    put(rt, b"allowed\t");
    if as_written(calc::value(text, rs), written) {
        put(rt, written);
    } else {
        put(rt, b"another value");
    }
    if calc::holds(text, rs) {
        put(rt, b"\ttrue\n");
    } else {
        put(rt, b"\tfalse\n");
    }
}

// A line: the text in hexadecimal, allowed or refused, value, truth, readings.
fn judge(rt: &(impl Print + Eprint), line: &[u8]) {
    let text = Text::<128>::read(part(line, 0, b'\t'));
    if calc::allowed(text.as_slice()) {
        put_allowed(rt, text.as_slice(), line);
    } else {
        put(rt, b"refused\n");
    }
}

// So many zeros. A proof of main reads their number alone, and not each of them.
fn zeros<const N: usize>() -> [u8; N] {
    [0; N]
}

fn main(rt: HostRuntime) {
    let mut buf = zeros::<614400>();
    let n = prog_input::read(&rt, b"calc", &mut buf);
    for_each_line(&buf[..n], |line| judge(&rt, line));
}
