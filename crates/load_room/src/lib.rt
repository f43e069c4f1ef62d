// The whole table of an accepted file, written where there is room for it.
#![tactic(auto)]

ghost use Rattle.std.specs.Prelude.{◌≤◌, length};
ghost use Rattle.spec_table.specs.Layout.{greatest_table};
ghost use Rattle.load_write.specs.Table.{source_table, Wrote};

use load_passes::Source;
use load_write::table;

// No accepted file has a longer table: spec_table/specs/Layout.antt.
const GREATEST_TABLE: usize = 35108;

// The table's length, or the length for which there is no room: then nothing is written. Only where the greatest table has no room is one
// measured first. The caller, load_store, has the tokens of an accepted file, none of which has a longer table.
pub fn write(source: &Source, lent: &mut [u8]) -> Result<usize, usize>
    requires { length (source_table source.now) ≤ greatest_table }
    ensures { Wrote (source_table source.now) lent.old lent.new result }
{
    if lent.len() < GREATEST_TABLE {
        let needed = table(source, &mut lent[0..0]);
        if lent.len() < needed {
            return Err(needed);
        }
    }
    let size = table(source, lent);
    Ok(size)
}
