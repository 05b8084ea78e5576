// Floor 8: filling a goal. The old table and its check, the filling's tests, the edited table, and the filling's run from what was known at the hole.
// Refusals come in document 01's order. (The old table, the goal, the filling, its hole, the rooms: each is another thing, and the rooms of C come
// one by one.)
#![tactic(auto)]

ghost use Rattle.std.specs.Prelude.{◌≡◌, ◌+◌, ◌*◌, ◌≤◌, length};
ghost use Rattle.step.specs.Trees.{goal_at};
ghost use Rattle.editing.specs.Edited.{Fillable};
ghost use Rattle.step.specs.Lent.{held, SameLent};
ghost use Rattle.entry.specs.Mark.{table_run};
ghost use Rattle.filling.specs.Fill.{beside, lent, all_long, OldAs, Fills};
ghost use Rattle.filling.specs.Steps.{ExactAll, OldRan, HoleAt, FillsHole, FillsGoal};

use answer::{Rejection, Which, refuse};
use editing::{EDITED, edit, edited_size, test_edited};
use entry::rooms::{GOALS, PROPOSITIONS, TREE, WORK, long_enough};
use entry::{Counts, check_table};
use numbers::Term;
use numbers::refusal::Reason;
use run::run_filling;
use step::lent::Lent;
use step::node::{Goal, goal_at};
use table::{Purpose, test_table};

pub mod answer;
mod reach;
mod run;

// The goal is at the Sorry record `hole`, and the filling passed its tests.
fn fill_hole(
    old: &[u8],
    goal: u16,
    filling: &[u8],
    hole: Term,
    lent: &mut Lent<'_>,
    edited: &mut [u8],
) -> Result<Counts, Rejection>
    requires fillable { Fillable old.now filling.now hole.0 }
    requires hole_at { HoleAt old.now goal hole.0 }
    requires exact_all { ExactAll (beside lent.old edited.old) }
    ensures done { FillsHole (beside lent.old edited.old) (beside lent.new edited.new) old.now filling.now goal result }
    ensures same_rooms { SameLent lent.old lent.new }
{
    let size = edited_size(old, filling);
    edit(old, filling, hole, &mut edited[..size]);
    if let Err(e) = test_edited(&edited[..size], lent.work) {
        return refuse(lent, edited, e, Which::Edit);
    }
    run_filling(old, goal, filling, hole, lent, edited, size)
}

// A goal of the tree that the rooms hold.
fn goal_in(lent: &Lent<'_>, goal: u16) -> Goal
    requires { 8 * goal + 8 ≤ length lent.now.goals.now }
    ensures { result ≡ goal_at lent.now.goals.now goal }
{
    goal_at(lent.goals, goal)
}

// The old table was accepted with so many goals.
fn fill_goal(
    old: &[u8],
    goal: u16,
    filling: &[u8],
    lent: &mut Lent<'_>,
    edited: &mut [u8],
    count: u16,
) -> Result<Counts, Rejection>
    requires old_ran { OldRan old.now (held lent.old) count }
    requires exact_all { ExactAll (beside lent.old edited.old) }
    ensures done { FillsGoal (beside lent.old edited.old) (beside lent.new edited.new) old.now filling.now goal result }
    ensures same_rooms { SameLent lent.old lent.new }
{
    if let Err(e) = test_table(filling, lent.work, Purpose::Filling) {
        return refuse(lent, edited, e, Which::Filling);
    }
    if count <= goal {
        let e = Reason::NoSuchGoal.of(0);
        return refuse(lent, edited, e, Which::Old);
    }
    let hole = goal_in(lent, goal).term;
    fill_hole(old, goal, filling, hole, lent, edited)
}

// Any tables, in rooms of just the listed sizes.
fn fill_table(
    old: &[u8],
    goal: u16,
    filling: &[u8],
    lent: &mut Lent<'_>,
    edited: &mut [u8],
) -> Result<Counts, Rejection>
    requires { ExactAll (beside lent.old edited.old) }
    ensures done { OldAs (beside lent.old edited.old) (beside lent.new edited.new) old.now filling.now goal result (table_run old.now) }
    ensures same_rooms { SameLent lent.old lent.new }
{
    match check_table(old, lent) {
        Ok(counts) => fill_goal(old, goal, filling, lent, edited, counts.goals),
        Err(e) => refuse(lent, edited, e, Which::Old),
    }
}

// The same, of rooms that come one by one. (A `Lent` made of rooms that are cut to size in it does not prove: nothing ties what is left of a cut to its field.)
fn fill_rooms(
    old: &[u8],
    goal: u16,
    filling: &[u8],
    tree: &mut [u8],
    goals: &mut [u8],
    props: &mut [u8],
    work: &mut [u8],
    edited: &mut [u8],
) -> Result<Counts, Rejection>
    requires { ExactAll (lent tree.old goals.old props.old work.old edited.old) }
    ensures { OldAs (lent tree.old goals.old props.old work.old edited.old)
        (lent tree.new goals.new props.new work.new edited.new) old.now
        filling.now goal result (table_run old.now) }
{
    let mut lent = Lent {
        tree,
        goals,
        props,
        work,
    };
    fill_table(old, goal, filling, &mut lent, edited)
}

// Whether each room is as long as is listed, that of the edited table too.
#[tactic(auto, unfolding(crate::specs::Fill::all_long))]
fn all_long(tree: &[u8], goals: &[u8], props: &[u8], work: &[u8], edited: &[u8]) -> bool
    ensures { result ≡ all_long (lent tree.now goals.now props.now work.now edited.now) }
{
    long_enough(tree, goals, props, work) && EDITED <= edited.len()
}

// Goal number `goal` of the old table, filled. Any bytes, any rooms. The counts are of the filling's own records, goals and serials, and of the
// propositions made up to its end.
pub fn fill(
    old: &[u8],
    goal: u16,
    filling: &[u8],
    tree: &mut [u8],
    goals: &mut [u8],
    props: &mut [u8],
    work: &mut [u8],
    edited: &mut [u8],
) -> Result<Counts, Rejection>
    ensures { Fills (lent tree.old goals.old props.old work.old edited.old)
        (lent tree.new goals.new props.new work.new edited.new) old.now
        filling.now goal result }
{
    if all_long(tree, goals, props, work, edited) {
        fill_rooms(
            old,
            goal,
            filling,
            &mut tree[..TREE],
            &mut goals[..GOALS],
            &mut props[..PROPOSITIONS],
            &mut work[..WORK],
            &mut edited[..EDITED],
        )
    } else {
        let e = Reason::RoomTooShort.of(0);
        let mut lent = Lent {
            tree,
            goals,
            props,
            work,
        };
        refuse(&mut lent, edited, e, Which::Old)
    }
}
