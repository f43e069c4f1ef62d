// What a rule's flags say: its head, and that it is switched off.
#![tactic(auto)]

ghost use Rattle.std.specs.Prelude.{◌++◌};
ghost use Rattle.spec_lists.specs.Text.{bytes};
ghost use Rattle.spec_text.specs.Lines.{permission_word, log_word};
ghost use Rattle.text_marks.specs.Room.{Room};
ghost use Rattle.text_marks.specs.Writes.{Writes};
ghost use Rattle.text_head.specs.Head.{head_text, unknown_text};

use spec_rule::Access;
use text_marks::Writer;

// NONE, READ or WRITE, behind a comma.
fn put_permission(out: &mut Writer<'_>, access: Access)
    requires { Room out.old.at (bytes "," ++ permission_word access) }
    ensures { Writes out.old out.new (bytes "," ++ permission_word access) }
{
    match access {
        Access::None => out.put(b",NONE"),
        Access::Read => out.put(b",READ"),
        Access::Write => out.put(b",WRITE"),
    }
}

// The log word, behind a comma.
fn put_log(out: &mut Writer<'_>, trap: bool)
    requires { Room out.old.at (bytes "," ++ log_word trap) }
    ensures { Writes out.old out.new (bytes "," ++ log_word trap) }
{
    if trap {
        out.put(b",TRAPWRITE");
    } else {
        out.put(b",NOTRAPWRITE");
    }
}

// RULE with its level, permission and log word. Inner: text_rules calls it, with room for a rule.
pub fn put_head(out: &mut Writer<'_>, flags: usize)
    requires { Room out.old.at (head_text flags) }
    ensures { Writes out.old out.new (head_text flags) }
{
    // Stays: the bits of the flags by / and %, as the format of a table has them in one word.
    let level = [b'0' + (flags % 2) as u8];
    out.put(b"RULE(");
    out.put(&level);
    put_permission(out, ask_grant::granted_by(flags).access);
    put_log(out, ask_grant::is_set(flags / 8 % 2));
    out.put(b")");
}

// The line of a rule that is switched off. Inner: as put_head.
pub fn put_unknown(out: &mut Writer<'_>, flags: usize)
    requires { Room out.old.at (unknown_text flags) }
    ensures { Writes out.old out.new (unknown_text flags) }
{
    if ask_grant::is_set(flags / 16) {
        out.put(b"UNKNOWN()\n");
    }
}
