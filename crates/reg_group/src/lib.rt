// Rights renewed after a reading: of all places that an access group answers for.
#![tactic(auto)]

ghost use Rattle.spec_file.specs.Limit.{access_groups};
ghost use Rattle.spec_places.specs.Storage.{readings_in};
ghost use Rattle.table_read.specs.Stored.{Stored};
ghost use Rattle.reg_bytes.specs.Placed.{Placed};
ghost use Rattle.reg_renew.specs.Renew.{AllRenewed};

// Renews the rights of all places that an access group answers for, and says by bits which have changed; each calculation is run once.
// Inner: reg_set calls it, with a group that it has found in a checked table.
pub fn renew(places: &mut [u8], states: &[u8], values: &[f64], table: &[u8], group: usize) -> u64
    requires placed { Placed places.old 0 }
    requires stored { Stored table.now access_groups group }
    ensures { AllRenewed table.now group (readings_in states.now values.now group) places.old places.new result }
{
    let outcomes = reg_kept::outcomes_of(table, group, states, values);
    reg_renew::renew_by(places, table, group, &outcomes)
}
