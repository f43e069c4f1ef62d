// Whether runs are those of a table: those of a kind follow each other and use up their section.
#![tactic(auto)]

ghost use Rattle.std.specs.Prelude.{◌≡◌, true, [], ◌∷◌, ◌+◌, ◌*◌, ◌≤◌, ◌<◌, length, slice_index, ℕ};
ghost use Rattle.spec_table.specs.View.{view};
ghost use Rattle.spec_table.specs.Check.{run_at, in_turn, sections_stand, runs_stand};
ghost use Rattle.spec_table.specs.Policy.{row};
ghost use Rattle.table_fields.specs.Field.{section, HasField};
ghost use Rattle.table_runs.specs.Follow.{Follow, HasRuns, runs_in, all_runs, members_follow, sum_limit, most_added};

use table_fields::Section;

// One run of a record.
fn run_follows(b: &[u8], s: Section, i: usize, j: usize, at: usize) -> Option<usize>
    requires { HasField b.now (section s) i (j + 1) × (at < sum_limit) }
    ensures { Follow (run_at j (row (view b.now) (section s) i) ∷ []) at (at + 65535) result }
{
    if table_fields::field(b, s, i, j) != at {
        return None;
    }
    Some(at + table_fields::field(b, s, i, j + 1))
}

// The runs of a record that begin at some of its words.
fn record_follows(b: &[u8], s: Section, i: usize, starts: &[usize], from: usize) -> Option<usize>
    requires runs { HasRuns b.now (section s) starts.now }
    requires inside { i < length ((view b.now).records (section s)) }
    requires fits { from + 131070 < sum_limit }
    ensures { Follow (runs_in starts.now (row (view b.now) (section s) i)) from (from + 131070) result }
{
    let mut at = from;
    for j in starts {
        at = run_follows(b, s, i, *j, at)?;
    }
    Some(at)
}

// The runs of a section.
fn runs_follow(b: &[u8], s: Section, starts: &[usize], from: usize) -> Option<usize>
    requires { HasRuns b.now (section s) starts.now × (from + most_added < sum_limit) }
    ensures { Follow (all_runs b.now (section s) starts.now) from (from + most_added) result }
{
    let mut at = from;
    for i in 0..table_fields::section_count(b, s) {
        at = record_follows(b, s, i, starts, at)?;
    }
    Some(at)
}

// Whether a section's runs use up the section that they are runs of.
fn used_up(b: &[u8], s: Section, starts: &[usize], of: Section) -> bool
    requires { HasRuns b.now (section s) starts.now }
    ensures { result ≡ in_turn 0 (all_runs b.now (section s) starts.now) (length ((view b.now).records (section of))) }
{
    let Some(end) = runs_follow(b, s, starts, 0) else {
        return false;
    };
    end == table_fields::section_count(b, of)
}

// Whether the runs of user groups, then of host groups, use up the members.
fn members_used_up(b: &[u8]) -> bool
    requires { sections_stand b.now ≡ true }
    ensures { result ≡ members_follow (view b.now) }
{
    let Some(users) = runs_follow(b, Section::UserGroups, &[2], 0) else {
        return false;
    };
    let hosts = runs_follow(b, Section::HostGroups, &[2], users);
    hosts == Some(table_fields::section_count(b, Section::Members))
}

// Whether the runs of a kind follow each other and use up their section. Inner: is_table has asked sections_stand before.
#[tactic(auto, using(table_runs::specs::laws::Used::runs_are))]
pub fn runs_stand(b: &[u8]) -> bool
    requires { sections_stand b.now ≡ true }
    ensures { result ≡ runs_stand (view b.now) }
{
    members_used_up(b)
        && used_up(b, Section::AccessGroups, &[2], Section::Inputs)
        && used_up(b, Section::AccessGroups, &[4], Section::Rules)
        && used_up(b, Section::Rules, &[1, 3], Section::References)
}
