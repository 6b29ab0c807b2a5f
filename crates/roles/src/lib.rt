// A set of at most 128 roles in two 64-bit words: masks for union, meeting and inclusion, a shift for one role.
#![tactic(auto)]

ghost use Rattle.std.specs.Prelude.{◌≡◌};
ghost use Rattle.std.specs.Iterator.{at_most};
ghost use Rattle.roles.specs.Sets.{empty_set, single_of, union_of, meet_of, with_of, apart_of, without_of, has_role, shares_role, includes, size_of, lowest_of};
ghost use Rattle.roles.specs.Taking.{many, Taken};

// Bit r of `low` is role r, bit r of `high` is role 64 + r.
#[derive(Clone, Copy, PartialEq, Eq)]
pub struct RoleSet {
    pub low: u64,
    pub high: u64,
}

impl RoleSet {
    // The set of no role.
    pub fn empty() -> Self
        ensures { result ≡ empty_set }
    {
        RoleSet { low: 0, high: 0 }
    }

    // The set of one role; a number above 127 is no role and gives the empty set.
    pub fn single(role: usize) -> Self
        ensures { result ≡ single_of role }
    {
        if role < 64 {
            return RoleSet {
                low: 1 << role,
                high: 0,
            };
        }
        if role < 128 {
            return RoleSet {
                low: 0,
                high: 1 << (role - 64),
            };
        }
        RoleSet::empty()
    }

    // Whether the set has the role.
    pub fn has(self, role: usize) -> bool
        ensures { result ≡ has_role self role }
    {
        if role < 64 {
            return (self.low >> role) % 2 == 1;
        }
        if role < 128 {
            return (self.high >> (role - 64)) % 2 == 1;
        }
        false
    }

    // The roles of either set.
    pub fn union(self, other: RoleSet) -> Self
        ensures { result ≡ union_of self other }
    {
        RoleSet {
            low: self.low | other.low,
            high: self.high | other.high,
        }
    }

    // The roles of both sets.
    pub fn meet(self, other: RoleSet) -> Self
        ensures { result ≡ meet_of self other }
    {
        RoleSet {
            low: self.low & other.low,
            high: self.high & other.high,
        }
    }

    // The set with one role more.
    pub fn with(self, role: usize) -> Self
        ensures { result ≡ with_of self role }
    {
        self.union(RoleSet::single(role))
    }

    // The roles of this set that are not in the other.
    pub fn less(self, other: RoleSet) -> Self
        ensures { result ≡ apart_of self other }
    {
        let taken = self.meet(other);
        RoleSet {
            low: self.low ^ taken.low,
            high: self.high ^ taken.high,
        }
    }

    // The set without one role.
    pub fn without(self, role: usize) -> Self
        ensures { result ≡ without_of self role }
    {
        self.less(RoleSet::single(role))
    }

    // Whether the two sets have a role in common.
    pub fn shares(self, other: RoleSet) -> bool
        ensures { result ≡ shares_role self other }
    {
        self.meet(other) != RoleSet::empty()
    }

    // Whether every role of this set is in the other.
    pub fn within(self, other: RoleSet) -> bool
        ensures { result ≡ includes other self }
    {
        self.meet(other) == self
    }

    // How many roles the set has.
    pub fn count(self) -> u32
        ensures { result ≡ size_of self }
    {
        u64::count_ones(self.low) + u64::count_ones(self.high)
    }

    // The lowest role of the set, where it has one.
    pub fn lowest(self) -> Option<usize>
        ensures { result ≡ lowest_of self }
    {
        let low = u64::trailing_zeros(self.low) as usize;
        if low < 64 {
            return Some(low);
        }
        let high = u64::trailing_zeros(self.high) as usize;
        if high < 64 {
            return Some(64 + high);
        }
        None
    }

    // The roles of the set, from the lowest on.
    pub fn roles(self) -> Roles
        ensures { result.left ≡ self }
    {
        Roles { left: self }
    }
}

// The roles that are left of a set, which come from the lowest on.
#[derive(Clone, Copy)]
pub struct Roles {
    pub left: RoleSet,
}

impl Iterator for Roles {
    type Item = usize;

    ghost next_gives = { λ old role new. Taken old.left role new.left };

    ghost remaining = { λ roles. at_most (many roles.left) };

    fn next(&mut self) -> Option<usize> {
        let role = self.left.lowest()?;
        self.left = self.left.without(role);
        Some(role)
    }
}
