//! Who is in which group. These look-ups take no memory.
ghost use Rattle.std.specs.Prelude.{◌≡◌, ◌≤◌, ℕ, List, map, take, length, string_bytes};
ghost use Rattle.std.specs.List.{filter};

use crate::entries::Group;
use crate::find::has_name;
use std::marker::Model;

impl Group {
    ghost use Rattle.policy.specs.{LookUp.has_member, View.group_view};

    /// Whether the account of that name is a member.
    pub fn has_member(&self, account: &str) -> bool
        ensures { result ≡ has_member (group_view self.now) account.now }
    {
        has_name(&self.members, account)
    }
}

/// The names of groups, at most 16, lent by the policy file's record.
#[derive(Drop)]
pub struct GroupNames<'p> {
    names: [&'p str; 16],
    count: usize,
}

impl<'p> Model for GroupNames<'p> {
    ghost Value = { List (List ℕ) };

    ghost view = { λ s. map (λ n. n.now) (take s.count s.names) };

    ghost invariant = { λ s. s.count ≤ 16 };
}

impl<'p> GroupNames<'p> {
    ghost use Rattle.policy.specs.{LookUp.has_member, View.group_view};

    /// The names of those that have the account as a member, in their order.
    pub(crate) fn of(groups: &'p [Group], account: &str) -> GroupNames<'p>
        requires { length groups.now ≤ 16 }
        ensures { result ≡ map (λ g. string_bytes g.name)
            (filter (λ g. has_member (group_view g) account.now) groups.now) }
    {
        let mut names = [""; 16];
        let mut count = 0;
        for group in groups {
            if group.has_member(account) {
                names[count] = group.name.as_str();
                count += 1;
            }
        }
        GroupNames { names, count }
    }

    /// The names, one after the other.
    pub fn as_slice(&self) -> &[&'p str]
        ensures { map (λ n. n.now) result.now ≡ self.now }
    {
        &self.names[..self.count]
    }
}
