// What the asker prints for a line of its input.
#![tactic(auto)]

ghost use Rattle.std.specs.Prelude.{◌≡◌, true};
ghost use Rattle.spec_table.specs.Check.{is_table};
ghost use Rattle.prog_line.specs.Line.{asks};
ghost use Rattle.prog_text.specs.Writes.{Writes};
ghost use Rattle.prog_reply.specs.Reply.{answered, reply};

use ask_checked::decide_checked;
use prog_answer::{answer_text, refused_text};
use prog_question::read_question;
use prog_text::Writer;

fn answer_line(w: &mut Writer<'_>, table: &[u8], line: &[u8])
    requires { is_table table.now ≡ true }
    ensures lent { w.new.out.ghost_name ≡ w.old.out.ghost_name }
    ensures written { Writes (answered table.now (asks line.now)) w.old w.new }
{
    match read_question(line) {
        None => refused_text(w),
        Some(q) => {
            let answer = decide_checked(
                table, q.group, q.user, q.host, b"", b"", q.level, q.readings,
            );
            answer_text(w, answer);
        }
    }
}

// The answer to a line, with its newline. The caller has loaded the table.
pub fn reply(w: &mut Writer<'_>, table: &[u8], line: &[u8])
    requires { is_table table.now ≡ true }
    ensures lent { w.new.out.ghost_name ≡ w.old.out.ghost_name }
    ensures written { Writes (reply table.now line.now) w.old w.new }
{
    answer_line(w, table, line);
    w.put(b"\n");
}
