// The closure of a pair of role sets under a typing, by rounds until nothing changes.
#![tactic(auto)]

ghost use Rattle.std.specs.Prelude.{◌≡◌};
ghost use Rattle.sheets.specs.Words.{said_in};
ghost use Rattle.closing.specs.Rounds.{close_of};

use roles::RoleSet;
use sheets::{Column, sets_of};

// A pair of role sets: roles known to be held, roles known to be absent.
#[derive(Clone, Copy, PartialEq, Eq)]
pub struct Pair {
    pub held: RoleSet,
    pub absent: RoleSet,
}

// Rounds until nothing is new. Each goes through the roles that are new, which at first are all: (c) for those absent, (b) and (a) for
// those held; what it brings that the pair did not have is new after it. A round that brings something new adds a role to one of the two
// sets, so 256 are enough.
pub fn close(sheet: &[u64; 1026], pair: Pair) -> Pair
    ensures { result ≡ close_of (said_in sheet.now) pair }
{
    let none = Pair {
        held: RoleSet::empty(),
        absent: RoleSet::empty(),
    };
    let mut now = pair;
    let mut news = pair;
    for _ in 0..256usize {
        let needing = sets_of(sheet, Column::Needed, news.absent);
        let barred = sets_of(sheet, Column::Minus, news.held);
        let absent = now.absent.union(needing).union(barred);
        let held = now.held.union(sets_of(sheet, Column::Plus, news.held));
        news = Pair {
            held: held.less(now.held),
            absent: absent.less(now.absent),
        };
        now = Pair { held, absent };
        if news == none {
            return now;
        }
    }
    now
}
