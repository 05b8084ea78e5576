// Sorry, checked: a leaf and a goal, and the goal's picture if it is asked for. (It is not synthesized: 25.)
ghost use Rattle.std.specs.Prelude.{◌≡◌, List, ℕ, ◌+◌, ◌*◌, ◌<◌, ◌≤◌, length};
ghost use Rattle.numbers.specs.Limits.{largest};
ghost use Rattle.layout.specs.File.{term_record};
ghost use Rattle.prop.specs.Room.{TypeIn};
ghost use Rattle.step.specs.declared.state.Want.TheVariants.{Check};
ghost use Rattle.step.specs.Rooms.{count_of, rooms};
ghost use Rattle.context.specs.Context.{most_entries};
ghost use Rattle.step.specs.Rooms.{run_room};
ghost use Rattle.rule.specs.Going.{Place, NamesIn, Begins};

use super::next::Next;
use numbers::refusal::Refusal;
use numbers::{Serial, Sort, Term};
use step::inference::Inference;
use step::node::{goal_of, node, put_goal, put_node};
use step::picture::picture;
use step::state::{Answer, State};

pub fn check(
    tree: &mut [u8],
    goals: &mut [u8],
    work: &mut [u8],
    k: Term,
    wanted: Sort,
    st: State,
) -> Result<Next, Refusal>
    requires place { Place tree.old st }
    requires goals_in_bounds { (8 * st.goals + 8 ≤ length goals.old) × (st.goals < largest) }
    requires run_room_in_bounds { (run_room ≤ length work.old) × (st.context ≤ most_entries) }
    ensures begins { (l ps : List ℕ) → TypeIn (count_of l st) wanted → (term_record l k.0).kind ≡ 13 → Begins l
        (rooms tree.old goals.old ps work.old) (rooms tree.new goals.new ps work.new)
        k.0 (Check wanted) st result }
    ensures names { NamesIn result }
{
    let leaf = node(Inference::Sorry, k, wanted, Serial::NONE, Serial::NONE, 0);
    put_node(tree, st.records, leaf);
    put_goal(goals, st.goals, goal_of(k, wanted, st.context));
    picture(work, wanted, st);
    let mut s = st.inner();
    s.goals += 1;
    Ok(Next::Done(Answer {
        typ: wanted,
        state: s,
    }))
}
