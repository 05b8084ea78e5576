// The filling's own run, from the hole.
ghost use Rattle.std.specs.Prelude.{◌≤◌, length, take};
ghost use Rattle.table.specs.declared.Purpose.TheVariants.{Check};
ghost use Rattle.table.specs.Passing.{Good};
ghost use Rattle.editing.specs.Edited.{Fillable, Edited};
ghost use Rattle.step.specs.Lent.{held, SameLent};
ghost use Rattle.filling.specs.Fill.{beside};
ghost use Rattle.filling.specs.Steps.{ExactAll, HoleAt, Fitting, Finishes, RunsFilling};

use super::answer::{Rejection, Which, refuse};
use super::reach::reach;
use editing::EDITED;
use entry::Counts;
use entry::rooms::{clear_rest, trim};
use numbers::Term;
use numbers::refusal::Refusal;
use step::lent::Lent;
use step::state::Answer;

// The answer, and the rooms cleaned after the run; the edited table has so many bytes, and the run began with so many serials. (C lends the edited
// table's room, which is longer than the table, so its length goes beside it.)
fn finish(
    lent: &mut Lent<'_>,
    edited: &mut [u8],
    size: usize,
    serials: u16,
    answer: Result<Answer, Refusal>,
) -> Result<Counts, Rejection>
    requires exact_all { ExactAll (beside lent.old edited.old) }
    requires fitting { Fitting (take size edited.old) size serials (held lent.old) answer }
    requires size_in_bounds { size ≤ length edited.old }
    ensures done { Finishes (beside lent.old edited.old) (beside lent.new edited.new) (take size edited.old) serials answer result }
    ensures same_rooms { SameLent lent.old lent.new }
{
    match answer {
        Ok(answer) => {
            let st = answer.state;
            let count = st.count(&edited[..size]);
            clear_rest(lent, st.records, st.goals, count);
            trim(edited, size, EDITED);
            Ok(Counts {
                serials: st.serials - serials,
                ..Counts::from(st)
            })
        }
        Err(e) => refuse(lent, edited, e, Which::Edit),
    }
}

// The edited table, which passes, stands in the first `size` bytes of its room.
pub fn run_filling(
    old: &[u8],
    goal: u16,
    filling: &[u8],
    hole: Term,
    lent: &mut Lent<'_>,
    edited: &mut [u8],
    size: usize,
) -> Result<Counts, Rejection>
    requires fillable { Fillable old.now filling.now hole.0 }
    requires hole_at { HoleAt old.now goal hole.0 }
    requires size_in_bounds { (size ≤ length edited.old) × Edited old.now filling.now hole.0 (take size edited.old) }
    requires good { Good Check (take size edited.old) }
    requires exact_all { ExactAll (beside lent.old edited.old) }
    ensures done { RunsFilling (beside lent.old edited.old) (beside lent.new edited.new) old.now goal (take size edited.old) result }
    ensures same_rooms { SameLent lent.old lent.new }
{
    let start = reach(old, goal, filling, hole, lent, &mut edited[..size]);
    let wanted = start.wanted;
    let st = start.state;
    let serials = st.serials;
    let answer = checker::check(&edited[..size], lent, hole, wanted, st);
    finish(lent, edited, size, serials, answer)
}
