// What the asker prints for an answer. 01, "Two programs".
#![tactic(auto)]

ghost use Rattle.std.specs.Prelude.{◌≡◌};
ghost use Rattle.prog_text.specs.Writes.{Writes};
ghost use Rattle.prog_words.specs.Words.{answer_text, refused_line};

use prog_text::Writer;
use prog_words::{put_access, put_letter, put_trap};
use spec_decision::Answer;

// What is printed for an answer.
pub fn answer_text(w: &mut Writer<'_>, a: Answer)
    ensures lent { w.new.out.ghost_name ≡ w.old.out.ghost_name }
    ensures written { Writes (answer_text a) w.old w.new }
{
    match a {
        Answer::Answered(d) => {
            put_access(w, d.access);
            put_trap(w, d.trap);
            put_letter(w, d.letter);
        }
        Answer::NotTable => w.put(b"refused 20"),
        Answer::BadLevel => w.put(b"refused 21"),
        Answer::BadRoles => w.put(b"refused 26"),
    }
}

// For a line that is refused.
pub fn refused_text(w: &mut Writer<'_>)
    ensures lent { w.new.out.ghost_name ≡ w.old.out.ghost_name }
    ensures written { Writes refused_line w.old w.new }
{
    w.put(b"refused line");
}
