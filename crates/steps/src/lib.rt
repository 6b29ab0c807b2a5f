// One step of a run as tests over the records, and the answer of who is bad in a state.
#![tactic(auto)]

ghost use Rattle.std.specs.Prelude.{◌≡◌};
ghost use Rattle.steps.specs.Tests.{may_assign, may_revoke};

use model::{Assign, Person, Revoke};

// A step of a trace, all its numbers places from 0: an assign step or a revoke step, with its actor, rule number and user; somebody
// joins, with a clearance; a user leaves. The place of who joins is that of the name, and the next one where the name is new.
#[derive(Clone, Copy)]
pub enum Step {
    Assign {
        actor: usize,
        rule: usize,
        user: usize,
    },
    Revoke {
        actor: usize,
        rule: usize,
        user: usize,
    },
    Join {
        user: usize,
        clearance: bool,
    },
    Leave {
        user: usize,
    },
}

// A user's number and a goal's number, both from 1.
#[derive(Clone, Copy)]
pub struct Found {
    pub user: usize,
    pub goal: usize,
}

// Whether the actor may give the rule's target to the user.
#[tactic(auto, unfolding(crate::specs::Tests::may_assign))]
pub fn may_assign(rule: Assign, actor: Person, user: Person) -> bool
    ensures { result ≡ may_assign rule actor user }
{
    actor.present
        & user.present
        & actor.roles.has(rule.admin)
        & rule.positive.within(user.roles)
        & !rule.negative.shares(user.roles)
        & !user.roles.has(rule.target)
}

// Whether the actor may take the rule's target from the user.
#[tactic(auto, unfolding(crate::specs::Tests::may_revoke))]
pub fn may_revoke(rule: Revoke, actor: Person, user: Person) -> bool
    ensures { result ≡ may_revoke rule actor user }
{
    actor.present & user.present & actor.roles.has(rule.admin) & user.roles.has(rule.target)
}
