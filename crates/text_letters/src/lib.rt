// The letters of a checked table's access group, and a calculation's letters among them.
#![tactic(auto)]

ghost use Rattle.std.specs.Prelude.{◌≡◌, ◌<◌, eqb};
ghost use Rattle.spec_file.specs.Limit.{access_groups, inputs, rules};
ghost use Rattle.spec_text.specs.Faults.{repeated};
ghost use Rattle.table_read.specs.Stored.{Stored, word_of};
ghost use Rattle.text_letters.specs.Letters.{letters_in, LettersAre, CalculationJudged};

use table_read::Section;

// The letter of an input, which a table keeps below 21.
fn letter_at(table: &[u8], i: usize) -> usize
    requires { Stored table.now inputs i }
    ensures { (result ≡ word_of table.now inputs i 0) × (result < 21) }
{
    table_read::field(table, Section::Inputs, i, 0)
}

// Whether two inputs of an access group have one letter. Inner: text_judge calls it, with a group of a checked table.
pub fn letter_repeated(table: &[u8], group: usize) -> bool
    requires { Stored table.now access_groups group }
    ensures { result ≡ repeated eqb (letters_in table.now group) }
{
    let mut seen = [false; 21];
    for i in table_read::run(table, Section::AccessGroups, group, 2) {
        let l = letter_at(table, i);
        if seen[l] {
            return true;
        }
        seen[l] = true;
    }
    false
}

// Which letters have an input in an access group. Inner: text_judge calls it, with a group of a checked table.
pub fn letters_of(table: &[u8], group: usize) -> [bool; 21]
    requires { Stored table.now access_groups group }
    ensures { LettersAre result (letters_in table.now group) }
{
    let mut given = [false; 21];
    for i in table_read::run(table, Section::AccessGroups, group, 2) {
        given[letter_at(table, i)] = true;
    }
    given
}

// Whether the calculation of a rule has a letter that is not given. Without calculation its text is empty and has none.
// Inner: text_judge calls it, with a rule from the run of its group.
pub fn letter_missing(table: &[u8], rule: usize, given: &[bool; 21]) -> bool
    requires { Stored table.now rules rule }
    ensures { CalculationJudged table.now rule given.now result }
{
    !calc_letters::letters_given(table_read::name_of(table, Section::Rules, rule), given)
}
