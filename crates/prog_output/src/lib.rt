// Printing on standard output. No contract can say what is printed.
#![tactic(auto)]

use std::io::{Eprint, Print};

// Prints, and says whether all of it was written; if not, standard error tells, so that nothing printed is not taken for a clean file.
pub fn put(rt: &(impl Print + Eprint), s: &[u8]) -> bool {
    match rt.write_all(s) {
        Ok(()) => true,
        Err(e) => {
            let _ = eprintln!(rt; "standard output: {e}");
            false
        }
    }
}

pub fn put_number(rt: &impl Print, n: usize) {
    let _ = print!(rt; "{n}");
}

// A word and two numbers behind it.
pub fn put_pair(rt: &(impl Print + Eprint), word: &[u8], a: usize, b: usize) {
    put(rt, word);
    put_number(rt, a);
    put(rt, b" ");
    put_number(rt, b);
}
