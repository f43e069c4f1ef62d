// The export: from a table to its text in lent bytes, or a refusal that leaves them as they are.
#![tactic(auto)]

ghost use Rattle.std.specs.Prelude.{◌≡◌};
ghost use Rattle.spec_export.specs.Export.{export};

use spec_export::Exported;

// The text of a table at the start of the lent bytes, or a refusal, which leaves them as they are. The text is measured first, by the code that
// writes it.
pub fn export(table: &[u8], lent: &mut [u8]) -> Exported
    ensures { record { answer = result; bytes = lent.new } ≡ export lent.old table.now }
{
    if !table::is_table(table) {
        return Exported::NotTable;
    }
    if text_judge::unwritable(table) {
        return Exported::Unwritable;
    }
    let needed = text_write::write(table, &mut lent[0..0]);
    if lent.len() < needed {
        return Exported::NoRoom(needed);
    }
    text_write::write(table, lent);
    Exported::Written(needed)
}
