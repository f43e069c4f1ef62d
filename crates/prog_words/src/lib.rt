// The words that the asker prints for an answer. 01, "Two programs".
#![tactic(auto)]

ghost use Rattle.std.specs.Prelude.{◌≡◌, ◌++◌};
ghost use Rattle.spec_lists.specs.Text.{bytes};
ghost use Rattle.prog_text.specs.Writes.{Writes};
ghost use Rattle.prog_words.specs.Words.{access_word, log_word, letter_word};

use ask_number::letter_number;
use prog_text::Writer;
use spec_rule::{Access, Stop};

pub fn put_access(w: &mut Writer<'_>, a: Access)
    ensures lent { w.new.out.ghost_name ≡ w.old.out.ghost_name }
    ensures written { Writes (access_word a) w.old w.new }
{
    w.put(match a {
        Access::None => b"NONE",
        Access::Read => b"READ",
        Access::Write => b"WRITE",
    });
}

pub fn put_trap(w: &mut Writer<'_>, trap: bool)
    ensures lent { w.new.out.ghost_name ≡ w.old.out.ghost_name }
    ensures written { Writes (bytes " " ++ log_word trap) w.old w.new }
{
    w.put(if trap { b" TRAPWRITE" } else { b" NOTRAPWRITE" });
}

pub fn put_letter(w: &mut Writer<'_>, letter: Stop)
    ensures lent { w.new.out.ghost_name ≡ w.old.out.ghost_name }
    ensures written { Writes (bytes " " ++ letter_word letter) w.old w.new }
{
    let letters = b"-ABCDEFGHIJKLMNOPQRSTU";
    w.put(&[b' ', letters[letter_number(letter) as usize]]);
}
