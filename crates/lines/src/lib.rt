// One line of a policy: its fields, what is wrong with it, and the entry that it makes.
#![tactic(auto)]

ghost use Rattle.std.specs.Prelude.{◌≡◌, ◌≤◌, length, List};
ghost use Rattle.tables.specs.declared.Name.{Name};
ghost use Rattle.tables.specs.Listed.{rows_of};
ghost use Rattle.lines.specs.Lines.{Line, one_field, two_fields, three_fields, in_order, judged, policy_line};
ghost use Rattle.lines.specs.LineLaws.{turned};

use fields::{both, read_name, read_set};
use model::{Assign, Revoke};
use roles::RoleSet;
use tables::{Name, Names};
use walking::{Fault, pass};

// The kinds of lines in the order in which they come, with room between them.
pub const HEADER: usize = 10;

pub const ROLE: usize = 20;

pub const USER: usize = 30;

pub const HAS: usize = 40;

pub const ASSIGN: usize = 50;

pub const REVOKE: usize = 60;

pub const GOAL: usize = 70;

pub const END: usize = 80;

// How far a policy was read: the kind of the last line, 0 before the header, and how many of each kind there are.
#[derive(Clone, Copy)]
pub struct Counts {
    pub stage: usize,
    pub roles: usize,
    pub users: usize,
    pub assigns: usize,
    pub revokes: usize,
    pub goals: usize,
}

// What a good line says. A user or a role of a `has` line is its place, from 0; a clearance is true for H.
#[derive(Clone, Copy)]
pub enum Entry {
    Header,
    Role(Name),
    User(Name, bool),
    Has(usize, usize),
    Assign(Assign),
    Revoke(Revoke),
    Goal(RoleSet),
    End,
}

// Whether a line of a kind may follow lines of the stage.
#[tactic(auto, unfolding(crate::specs::Lines::in_order))]
fn in_order(stage: usize, kind: usize) -> bool
    ensures { result ≡ in_order stage kind }
{
    (HEADER <= stage) & (stage <= kind)
}

// Malformed, then limit, then names: what the fields of a line are read as, where the line has its form and is within its limit.
#[tactic(auto, unfolding(crate::specs::LineLaws::turned, crate::specs::LineLaws::malformed))]
fn in_turn<A: Copy>(formed: bool, limited: bool, read: Result<A, Fault>) -> Result<A, Fault>
    ensures { result ≡ turned formed limited read }
{
    let malformed = matches!(read, Err(Fault::Malformed));
    pass(formed & !malformed, Fault::Malformed)?;
    pass(limited, Fault::AboveLimit)?;
    read
}

// The header, edition 1.
#[tactic(auto, unfolding(crate::specs::Lines::judged, crate::specs::Lines::asked, crate::specs::Lines::comes_to))]
fn header_line(edition: &[u8], c: Counts) -> Result<Entry, Fault>
    ensures { (roles users : List Name) → result ≡ judged c roles users (Line.header edition.now) }
{
    let formed = (c.stage == 0) & text::same(edition, b"1");
    pass(formed, Fault::Malformed)?;
    Ok(Entry::Header)
}

// A role line: a new role name.
#[tactic(auto, using(fields::specs::FieldLaws::new_test), unfolding(crate::specs::Lines::judged, crate::specs::Lines::asked, crate::specs::Lines::comes_to))]
fn role_line(name: &[u8], roles: Names, c: Counts) -> Result<Entry, Fault>
    ensures { (users : List Name) → result ≡ judged c (rows_of roles.entry) users (Line.role name.now) }
{
    let packed = tables::pack(name);
    let new = roles.find(packed).is_none();
    let formed = in_order(c.stage, ROLE) & text::is_name(name) & new;
    pass(formed, Fault::Malformed)?;
    pass(c.roles < 128, Fault::AboveLimit)?;
    Ok(Entry::Role(packed))
}

// A user line: a new user name and a clearance.
#[tactic(auto, using(fields::specs::FieldLaws::new_test), unfolding(crate::specs::Lines::judged, crate::specs::Lines::asked, crate::specs::Lines::comes_to))]
fn user_line(name: &[u8], clearance: &[u8], users: Names, c: Counts) -> Result<Entry, Fault>
    ensures { (roles : List Name) → result ≡ judged c roles (rows_of users.entry) (Line.user name.now clearance.now) }
{
    let packed = tables::pack(name);
    let new = users.find(packed).is_none();
    let formed = in_order(c.stage, USER) & text::is_name(name) & text::is_label(clearance) & new;
    pass(formed, Fault::Malformed)?;
    pass(c.users < 64, Fault::AboveLimit)?;
    Ok(Entry::User(packed, text::same(clearance, b"H")))
}

// A has line: a declared user and a declared role.
fn has_line(user: &[u8], role: &[u8], roles: Names, users: Names, c: Counts) -> Result<Entry, Fault>
    ensures { result ≡ judged c (rows_of roles.entry) (rows_of users.entry) (Line.has user.now role.now) }
{
    let pair = both(read_name(user, users), read_name(role, roles));
    let (holder, held) = in_turn(in_order(c.stage, HAS), true, pair)?;
    Ok(Entry::Has(holder, held))
}

// A revoke line: two declared roles.
fn revoke_line(admin: &[u8], target: &[u8], roles: Names, c: Counts) -> Result<Entry, Fault>
    ensures { (users : List Name) → result ≡ judged c (rows_of roles.entry) users (Line.revoke admin.now target.now) }
{
    let names = both(read_name(admin, roles), read_name(target, roles));
    let (admin, target) = in_turn(in_order(c.stage, REVOKE), c.revokes < 256, names)?;
    Ok(Entry::Revoke(Revoke { admin, target }))
}

// An assign line: declared roles and sets of declared roles.
fn assign_line(
    admin: &[u8],
    positive: &[u8],
    negative: &[u8],
    target: &[u8],
    roles: Names,
    c: Counts,
) -> Result<Entry, Fault>
    requires { (length positive.now ≤ 32768) × (length negative.now ≤ 32768) × (roles.count ≤ 128) }
    ensures { (users : List Name) → result ≡ judged c (rows_of roles.entry) users (Line.assign admin.now positive.now negative.now target.now) }
{
    let first = both(read_name(admin, roles), read_set(positive, roles));
    let second = both(read_set(negative, roles), read_name(target, roles));
    let all = both(first, second);
    let ((admin, positive), (negative, target)) = in_turn(
        in_order(c.stage, ASSIGN),
        c.assigns < 256,
        all,
    )?;
    Ok(Entry::Assign(Assign {
        admin,
        positive,
        negative,
        target,
    }))
}

// A goal line: a set of declared roles that is not empty.
fn goal_line(set: &[u8], roles: Names, c: Counts) -> Result<Entry, Fault>
    requires { (length set.now ≤ 32768) × (roles.count ≤ 128) }
    ensures { (users : List Name) → result ≡ judged c (rows_of roles.entry) users (Line.goal set.now) }
{
    let held = read_set(set, roles);
    let ordered = in_order(c.stage, GOAL) & !text::same(set, b"-");
    let goal = in_turn(ordered, c.goals < 32, held)?;
    Ok(Entry::Goal(goal))
}

// A line of one field: `end` after a goal.
#[tactic(auto, unfolding(crate::specs::Lines::judged, crate::specs::Lines::asked, crate::specs::Lines::comes_to, crate::specs::Lines::one_field))]
fn one_field(word: &[u8], c: Counts) -> Result<Entry, Fault>
    ensures { (roles users : List Name) → result ≡ judged c roles users (one_field word.now) }
{
    let formed = text::same(word, b"end") & (c.stage == GOAL);
    pass(formed, Fault::Malformed)?;
    Ok(Entry::End)
}

// A line of two fields: a role, a goal or the header.
#[tactic(auto, using(crate::specs::LineLaws::other_judged), unfolding(crate::specs::Lines::two_fields))]
fn two_fields(word: &[u8], field: &[u8], roles: Names, c: Counts) -> Result<Entry, Fault>
    requires { (length field.now ≤ 32768) × (roles.count ≤ 128) }
    ensures { (users : List Name) → result ≡ judged c (rows_of roles.entry) users (two_fields word.now field.now) }
{
    if text::same(word, b"role") {
        return role_line(field, roles, c);
    }
    if text::same(word, b"goal") {
        return goal_line(field, roles, c);
    }
    if text::same(word, b"arbac") {
        return header_line(field, c);
    }
    Err(Fault::Malformed)
}

// A line of three fields: a holding, a revoke rule or a user.
#[tactic(auto, using(crate::specs::LineLaws::other_judged), unfolding(crate::specs::Lines::three_fields))]
fn three_fields(
    word: &[u8],
    first: &[u8],
    second: &[u8],
    roles: Names,
    users: Names,
    c: Counts,
) -> Result<Entry, Fault>
    ensures { result ≡ judged c (rows_of roles.entry) (rows_of users.entry) (three_fields word.now first.now second.now) }
{
    if text::same(word, b"has") {
        return has_line(first, second, roles, users, c);
    }
    if text::same(word, b"revoke") {
        return revoke_line(first, second, roles, c);
    }
    if text::same(word, b"user") {
        return user_line(first, second, users, c);
    }
    Err(Fault::Malformed)
}

// One line of a policy, without its LF, judged on its own bytes and on the names and counts of the lines above.
pub fn read_line(line: &[u8], roles: Names, users: Names, c: Counts) -> Result<Entry, Fault>
    requires { (length line.now ≤ 32768) × (roles.count ≤ 128) }
    ensures { result ≡ policy_line c (rows_of roles.entry) (rows_of users.entry) line.now }
{
    let end = line.len();
    let a = text::seek(line, 0, b'\t');
    let word = &line[0..a];
    if a == end {
        return one_field(word, c);
    }
    let b = text::seek(line, a + 1, b'\t');
    let first = &line[a + 1..b];
    if b == end {
        return two_fields(word, first, roles, c);
    }
    let d = text::seek(line, b + 1, b'\t');
    let second = &line[b + 1..d];
    if d == end {
        return three_fields(word, first, second, roles, users, c);
    }
    let e = text::seek(line, d + 1, b'\t');
    if e == end {
        return Err(Fault::Malformed);
    }
    let f = text::seek(line, e + 1, b'\t');
    if f < end {
        return Err(Fault::Malformed);
    }
    if text::same(word, b"assign") {
        return assign_line(first, second, &line[d + 1..e], &line[e + 1..f], roles, c);
    }
    Err(Fault::Malformed)
}
