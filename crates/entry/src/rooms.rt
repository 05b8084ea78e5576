// The lent rooms: how long they must be, and how they are left.
ghost use Rattle.std.specs.Prelude.{◌≡◌, ◌*◌, ◌≤◌, length};
ghost use Rattle.step.specs.Rooms.{rooms};
ghost use Rattle.step.specs.Lent.{held, SameLent};
ghost use Rattle.entry.specs.Mark.{tree_bytes, goals_bytes, props_bytes, work_bytes, long_enough, Emptied};
ghost use Rattle.entry.specs.Rest.{Rest, Trimmed};

use numbers::room::{clear, fill_zero};
use numbers::{Proposition, Term};
use step::lent::Lent;

// The bytes of each room: two tree records and a goal for each term that a table may have; the table's propositions and the made ones; and the
// work room. Longer rooms are not touched behind these.
pub const TREE: usize = 16 * 2 * (Term::LIMIT as usize);

pub const GOALS: usize = 8 * (Term::LIMIT as usize);

pub const PROPOSITIONS: usize = 16 * (Proposition::LIMIT as usize + Proposition::MADE as usize);

pub const WORK: usize = 65536;

#[tactic(auto, unfolding(crate::specs::Mark::long_enough, rules::specs::State::limit))]
pub fn long_enough(tree: &[u8], goals: &[u8], props: &[u8], work: &[u8]) -> bool
    ensures { result ≡ long_enough (rooms tree.now goals.now props.now work.now) }
{
    TREE <= tree.len() && GOALS <= goals.len() && PROPOSITIONS <= props.len() && WORK <= work.len()
}

// Every room becomes zeros, as far as it goes and no further than its listed size.
pub fn clear_rooms(lent: &mut Lent<'_>)
    ensures emptied { Emptied (held lent.old) (held lent.new) }
    ensures same_rooms { SameLent lent.old lent.new }
{
    clear(lent.tree, TREE);
    clear(lent.goals, GOALS);
    clear(lent.props, PROPOSITIONS);
    clear(lent.work, WORK);
}

// From `used` up to its listed size a room becomes zeros.
pub fn trim(room: &mut [u8], used: usize, size: usize)
    requires { (used ≤ size) × (size ≤ length room.old) }
    ensures { Trimmed used size room.old room.new }
{
    fill_zero(&mut room[used..size]);
}

// What an acceptance leaves unused becomes zeros, and so does the work room.
#[tactic(auto, unfolding(rules::specs::State::limit))]
pub fn clear_rest(lent: &mut Lent<'_>, records: u16, holes: u16, count: u16)
    requires records_bound { (16 * records ≤ tree_bytes) × (tree_bytes ≤ length lent.old.tree.now) }
    requires holes_bound { (8 * holes ≤ goals_bytes) × (goals_bytes ≤ length lent.old.goals.now) }
    requires count_bound { (16 * count ≤ props_bytes) × (props_bytes ≤ length lent.old.props.now) }
    ensures rest { Rest records holes count (held lent.old) (held lent.new) }
    ensures same_rooms { SameLent lent.old lent.new }
{
    trim(lent.tree, 16 * (records as usize), TREE);
    trim(lent.goals, 8 * (holes as usize), GOALS);
    trim(lent.props, 16 * (count as usize), PROPOSITIONS);
    clear(lent.work, WORK);
}
