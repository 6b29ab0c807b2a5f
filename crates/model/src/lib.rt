// The records that policies, states and typings are made of.
#![tactic(auto)]

ghost use Rattle.std.specs.Prelude.{◌≡◌};
ghost use Rattle.model.specs.Policy.{newcomer, with_roles, with_role, without_role, leaver};

use roles::RoleSet;

// An actor who holds `admin` gives `target` to a user who holds all of `positive`, none of `negative` and not yet `target`.
#[derive(Clone, Copy, PartialEq, Eq)]
pub struct Assign {
    pub admin: usize,
    pub positive: RoleSet,
    pub negative: RoleSet,
    pub target: usize,
}

// An actor who holds `admin` takes `target` from a user who holds it.
#[derive(Clone, Copy, PartialEq, Eq)]
pub struct Revoke {
    pub admin: usize,
    pub target: usize,
}

// A user's clearance, true for H and false for L, whether the user is present, and the roles that the user holds.
#[derive(Clone, Copy, PartialEq, Eq)]
pub struct Person {
    pub clearance: bool,
    pub present: bool,
    pub roles: RoleSet,
}

impl Person {
    // Who has just come: present, with no roles.
    pub fn newcomer(clearance: bool) -> Person
        ensures { result ≡ newcomer clearance }
    {
        Person {
            clearance,
            present: true,
            roles: RoleSet::empty(),
        }
    }

    // The person with other roles, and all else as it was.
    fn with_roles(self, roles: RoleSet) -> Self
        ensures { result ≡ with_roles self roles }
    {
        Person { roles, ..self }
    }

    // The person with one role more.
    pub fn with_role(self, role: usize) -> Self
        ensures { result ≡ with_role self role }
    {
        self.with_roles(self.roles.with(role))
    }

    // The person with one role less.
    pub fn without_role(self, role: usize) -> Self
        ensures { result ≡ without_role self role }
    {
        self.with_roles(self.roles.without(role))
    }

    // The person who has left: gone, with no roles.
    pub fn leaver(self) -> Self
        ensures { result ≡ leaver self }
    {
        Person {
            present: false,
            roles: RoleSet::empty(),
            ..self
        }
    }
}

// A typing by role number: a label, true for H, a plus set and a minus set for each role.
#[derive(Clone, Copy)]
pub struct Typing {
    pub labels: [bool; 128],
    pub plus: [RoleSet; 128],
    pub minus: [RoleSet; 128],
}
