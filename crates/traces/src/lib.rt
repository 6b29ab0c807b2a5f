// The lines of a trace text, read over the user names that are known and the policy's rule counts.
#![tactic(auto)]

ghost use Rattle.std.specs.Prelude.{◌≡◌, ℕ, ◌-◌, true};
ghost use Rattle.tables.specs.Listed.{rows_of};
ghost use Rattle.text.specs.Forms.{number_of};
ghost use Rattle.fields.specs.Fields.{placed};
ghost use Rattle.traces.specs.TraceLines.{two_fields, three_fields, four_fields, is_step, step_named, nameless, comes_to, judged, trace_line};

use fields::{both, read_name};
use lines::Counts;
use steps::Step;
use tables::{Name, Names};
use walking::{Fault, pass};

// What a step line says: its step and, for a join, the name; the name of no bytes for any other, as `name_brought` has it.
#[derive(Clone, Copy)]
pub struct TraceLine {
    pub step: Step,
    pub name: Name,
}

// A step that brings no name.
fn nameless(step: Step) -> TraceLine
    ensures { result ≡ nameless step }
{
    TraceLine {
        step,
        name: tables::pack(b""),
    }
}

// A line of two fields: a user leaves.
#[tactic(auto, unfolding(crate::specs::TraceLines::two_fields, crate::specs::TraceLines::judged, crate::specs::TraceLines::comes_to, crate::specs::TraceLines::step_formed, crate::specs::TraceLines::step_known, crate::specs::TraceLines::step_within, crate::specs::TraceLines::step_said, crate::specs::TraceLines::name_brought, fields::specs::Fields::name_read, fields::specs::Fields::field_read))]
fn leave_line(word: &[u8], name: &[u8], users: Names) -> Result<TraceLine, Fault>
    ensures { (assigns revokes : ℕ) → result ≡ judged assigns revokes (rows_of users.entry) (two_fields word.now name.now) }
{
    pass(text::same(word, b"leave"), Fault::Malformed)?;
    let user = read_name(name, users)?;
    Ok(nameless(Step::Leave { user }))
}

// A line of three fields: somebody joins. A name that is known is no name more.
#[tactic(auto, using(tables::specs::Finding::found_test, tables::specs::Finding::found_or_length, tables::specs::NameLaws::rows_length), unfolding(crate::specs::TraceLines::three_fields, crate::specs::TraceLines::judged, crate::specs::TraceLines::comes_to, crate::specs::TraceLines::step_formed, crate::specs::TraceLines::step_known, crate::specs::TraceLines::step_within, crate::specs::TraceLines::step_said, crate::specs::TraceLines::name_brought, fields::specs::Fields::is_declared, fields::specs::Fields::placed))]
fn join_line(word: &[u8], name: &[u8], label: &[u8], users: Names) -> Result<TraceLine, Fault>
    ensures { (assigns revokes : ℕ) → result ≡ judged assigns revokes (rows_of users.entry) (three_fields word.now name.now label.now) }
{
    let formed = text::same(word, b"join") & text::is_name(name) & text::is_label(label);
    pass(formed, Fault::Malformed)?;
    let name = tables::pack(name);
    let found = users.find(name);
    pass(found.is_some() | (users.count < 64), Fault::AboveLimit)?;
    let user = found.unwrap_or(users.count);
    let clearance = text::same(label, b"H");
    Ok(TraceLine {
        step: Step::Join { user, clearance },
        name,
    })
}

// The places of a step's actor, rule and user, among so many rules of its kind.
// For speed: in its caller, since a result that is handed back goes through memory.
#[inline(always)]
#[tactic(auto, using(text::specs::FormLaws::number_some, text::specs::FormLaws::number_none), unfolding(crate::specs::TraceLines::comes_to, crate::specs::TraceLines::is_step, crate::specs::TraceLines::step_named, fields::specs::Fields::name_read, fields::specs::Fields::field_read, fields::specs::Fields::both_read, fields::specs::Fields::worse))]
fn read_use(
    actor: &[u8],
    number: &[u8],
    user: &[u8],
    rules: usize,
    users: Names,
) -> Result<(usize, usize, usize), Fault>
    ensures { let names = rows_of users.entry in result ≡ comes_to (is_step actor.now number.now user.now) (step_named rules names actor.now number.now user.now) true (placed names actor.now, number_of number.now - 1, placed names user.now) }
{
    let number = text::number(number).ok_or(Fault::Malformed)?;
    let names = both(read_name(actor, users), read_name(user, users));
    let (actor, user) = names?;
    pass(number <= rules, Fault::Undeclared)?;
    Ok((actor, number.saturating_sub(1), user))
}

// A line of four fields: an assign step or a revoke step.
#[tactic(auto, unfolding(crate::specs::TraceLines::four_fields, crate::specs::TraceLines::judged, crate::specs::TraceLines::comes_to, crate::specs::TraceLines::step_formed, crate::specs::TraceLines::step_known, crate::specs::TraceLines::step_within, crate::specs::TraceLines::step_said, crate::specs::TraceLines::name_brought))]
fn step_line(
    word: &[u8],
    actor: &[u8],
    number: &[u8],
    user: &[u8],
    users: Names,
    c: Counts,
) -> Result<TraceLine, Fault>
    ensures { result ≡ judged c.assigns c.revokes (rows_of users.entry) (four_fields word.now actor.now number.now user.now) }
{
    if text::same(word, b"assign") {
        let (actor, rule, user) = read_use(actor, number, user, c.assigns, users)?;
        return Ok(nameless(Step::Assign { actor, rule, user }));
    }
    if text::same(word, b"revoke") {
        let (actor, rule, user) = read_use(actor, number, user, c.revokes, users)?;
        return Ok(nameless(Step::Revoke { actor, rule, user }));
    }
    Err(Fault::Malformed)
}

// One line after the header, without its LF, that is not `end`: judged on its own bytes, the names that are known and the rule counts.
pub fn read_line(line: &[u8], users: Names, c: Counts) -> Result<TraceLine, Fault>
    ensures { result ≡ trace_line c.assigns c.revokes (rows_of users.entry) line.now }
{
    let end = line.len();
    let a = text::seek(line, 0, b'\t');
    if a == end {
        return Err(Fault::Malformed);
    }
    let b = text::seek(line, a + 1, b'\t');
    if b == end {
        return leave_line(&line[0..a], &line[a + 1..b], users);
    }
    let d = text::seek(line, b + 1, b'\t');
    if d == end {
        return join_line(&line[0..a], &line[a + 1..b], &line[b + 1..d], users);
    }
    let e = text::seek(line, d + 1, b'\t');
    if e < end {
        return Err(Fault::Malformed);
    }
    step_line(
        &line[0..a],
        &line[a + 1..b],
        &line[b + 1..d],
        &line[d + 1..e],
        users,
        c,
    )
}
