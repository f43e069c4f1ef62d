// A load under a register: the table, every reading never heard, and each right by the new table.
#![tactic(auto)]

ghost use Rattle.reload.specs.Reload.{ReloadsAny};

use spec_load::Loaded;
use spec_register::Reloaded;

// Loads a text into the lent table, clears the readings and settles the rights of the lent places. A refused load changes nothing.
pub fn reload(places: &mut [u8], states: &mut [u8], text: &[u8], table: &mut [u8]) -> Reloaded
    ensures { ReloadsAny table.old places.old states.old text.now table.new places.new
        states.new result }
{
    if !reg_clear::has_room(places, states) {
        return Reloaded::NotRegister;
    }
    match load::load(text, table) {
        Loaded::Refused { refusal, place } => Reloaded::Refused { refusal, place },
        Loaded::Accepted { length, warnings } => {
            reg_clear::clear_states(states);
            let changed = reg_settle::settle(places, table);
            Reloaded::Accepted {
                length,
                warnings,
                changed,
            }
        }
    }
}
