// Whether a question may carry the roles that a caller lends.
#![tactic(auto)]

ghost use Rattle.std.specs.Prelude.{◌≡◌, ◌≤◌, leb, length, sum};
ghost use Rattle.std.specs.List.{list_all};
ghost use Rattle.spec_rule.specs.Roles.{most_roles, longest_role, roles_fit, lent_roles};

use ask_roles::Roles;

const MOST_ROLES: usize = 16;

const LONGEST_ROLE: u8 = 60;

fn are_short(lengths: &[u8]) -> bool
    ensures { result ≡ list_all (λ n. leb n longest_role) lengths.now }
{
    lengths.iter().all(|n| *n <= LONGEST_ROLE)
}

// How many bytes the roles have together.
fn total(lengths: &[u8]) -> usize
    requires { length lengths.now ≤ most_roles }
    ensures { result ≡ sum lengths.now }
{
    lengths.iter().map(|n| usize::from(*n)).sum()
}

// Whether a question may carry the roles: few enough, none too long, all inside the pool.
pub fn fit(roles: Roles) -> bool
    ensures { result ≡ roles_fit (lent_roles roles.entry.pool.now roles.entry.lengths.now) }
{
    if MOST_ROLES < roles.lengths.len() {
        return false;
    }
    let end = total(roles.lengths);
    are_short(roles.lengths) && end <= roles.pool.len()
}
