// The library's function for C that writes a table back as text. include/hrazvanut.h calls it.
#![tactic(auto)]

ghost use Rattle.std.specs.Prelude.{◌≡◌};
ghost use Rattle.spec_export.specs.Export.{export};
ghost use Rattle.abi_export.specs.Answers.{Leaves};

#[unsafe(no_mangle)]
pub extern "C" fn hrazvanut_abi_export(table: &[u8], lent: &mut [u8]) -> u64
    ensures { Leaves (export lent.old table.now) lent.new result }
{
    api_answers::exported_number(text::export(table, lent))
}
