// Whether a user, by name or by a role, or a host is a member of one of the groups that a rule of a checked table names.
#![tactic(auto)]

ghost use Rattle.std.specs.Prelude.{◌≡◌, ◌<◌};
ghost use Rattle.spec_lists.specs.Select.{any};
ghost use Rattle.spec_rule.specs.Rule.{belongs};
ghost use Rattle.spec_file.specs.Limit.{rules, references};
ghost use Rattle.table_read.specs.Stored.{Stored, section};

use ask_roles::User;
use table_read::Section;

// The number of a reference to a group that is not defined.
const UNDEFINED: usize = 65535;

// A user, who is looked for in user groups, or a host, in host groups.
#[derive(Clone, Copy)]
pub enum Name<'a> {
    User(&'a User<'a>),
    Host(&'a [u8]),
}

impl Name<'_> {
    ghost use Rattle.ask_member.specs.Members.{groups, matches, references_word, members_in, Refers, members_referred, groups_named};

    // Whether a stored member matches. Stored hosts stand in lower case already, and have no roles.
    fn matches(self, stored: &[u8]) -> bool
        ensures { result ≡ matches self.entry stored.now }
    {
        match self {
            Name::User(user) => user.matches(stored),
            Name::Host(host) => byte_compare::equal_lowered(host, stored),
        }
    }

    fn groups(self) -> Section
        ensures { section result ≡ groups self.entry }
    {
        match self {
            Name::User(_) => Section::UserGroups,
            Name::Host(_) => Section::HostGroups,
        }
    }

    // The word of a rule at which the run of its references to such groups begins.
    fn references_word(self) -> usize
        ensures { result ≡ references_word self.entry }
    {
        match self {
            Name::User(_) => 1,
            Name::Host(_) => 3,
        }
    }

    // Whether it is a member of a group.
    fn is_member(self, table: &[u8], group: usize) -> bool
        requires { Stored table.now (groups self) group }
        ensures { result ≡ any (matches self.entry) (members_in table.now self.entry group) }
    {
        let run = table_read::run(table, self.groups(), group, 2);
        for member in run.start..run.end {
            if self.matches(table_read::name_of(table, Section::Members, member)) {
                return true;
            }
        }
        false
    }

    // Whether it is a member of the group that a reference gives.
    fn is_referred(self, table: &[u8], reference: usize) -> bool
        requires { Stored table.now references reference × Refers table.now self reference }
        ensures { result ≡ any (matches self.entry) (members_referred table.now self.entry reference) }
    {
        match table_read::field(table, Section::References, reference, 0) {
            UNDEFINED => false, // no members
            group => self.is_member(table, group),
        }
    }

    // What belongs_to says, group by group.
    fn has_group(self, table: &[u8], rule: usize) -> bool
        requires { Stored table.now rules rule }
        ensures { result ≡ belongs (matches self.entry) (groups_named table.now self.entry rule) }
    {
        let run = table_read::run(table, Section::Rules, rule, self.references_word());
        if run.is_empty() {
            return true;
        }
        for reference in run.start..run.end {
            if self.is_referred(table, reference) {
                return true;
            }
        }
        false
    }

    // Whether it is a member of one of the groups that a rule names, or the rule names none. Each of its references costs the members of a group.
    // Inner: the caller knows the rule from the run of its group. Inlined, so that a rule that names no group costs no call.
    #[inline(always)]
    pub fn belongs_to(self, table: &[u8], rule: usize) -> bool
        requires { Stored table.now rules rule }
        ensures { result ≡ belongs (matches self.entry) (groups_named table.now self.entry rule) }
    {
        if table_read::run(table, Section::Rules, rule, self.references_word()).is_empty() {
            return true;
        }
        self.has_group(table, rule)
    }
}
