// A user with the roles that a caller lends it, and the members that match one.
#![tactic(auto)]

ghost use Rattle.std.specs.Prelude.{◌≡◌};
ghost use Rattle.spec_lists.specs.Text.{same};
ghost use Rattle.spec_lists.specs.Select.{any};
ghost use Rattle.spec_rule.specs.Roles.{cut_roles};
ghost use Rattle.spec_rule.specs.Rule.{matches_client};

// Roles as a caller lends them: one behind the other in one pool of bytes, and the length of each.
#[derive(Clone, Copy)]
pub struct Roles<'a> {
    pub pool: &'a [u8],
    pub lengths: &'a [u8],
}

impl Roles<'_> {
    // Whether one of the roles is the name. A role that passes the pool is as long as the pool goes.
    fn contain(self, name: &[u8]) -> bool
        ensures { result ≡ any (same name.now) (cut_roles self.entry.pool.now self.entry.lengths.now) }
    {
        let mut rest = self.pool;
        for n in self.lengths {
            let (role, later) = rest.split_at(rest.len().min(usize::from(*n)));
            if byte_compare::equal(name, role) {
                return true;
            }
            rest = later;
        }
        false
    }
}

// A user: its name and its roles.
#[derive(Clone, Copy)]
pub struct User<'a> {
    pub name: &'a [u8],
    pub roles: Roles<'a>,
}

impl User<'_> {
    // Whether a member of a user group matches: by a role if it begins so, else by the name.
    pub fn matches(self, member: &[u8]) -> bool
        ensures { result ≡ matches_client self.entry.name.now (cut_roles self.entry.roles.pool.now self.entry.roles.lengths.now) member.now }
    {
        match member.strip_prefix(b"role/") {
            Some(role) => self.roles.contain(role),
            None => byte_compare::equal(self.name, member),
        }
    }
}
