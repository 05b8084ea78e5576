// The hole is reached by a run of the old terms over the edited table's propositions, which takes a picture of the goal on its way.
ghost use Rattle.std.specs.Prelude.{◌≡◌};
ghost use Rattle.table.specs.Passing.{Counted};
ghost use Rattle.editing.specs.Edited.{Fillable, Edited};
ghost use Rattle.step.specs.Lent.{held, SameLent};
ghost use Rattle.entry.specs.Ran.{Exact};
ghost use Rattle.filling.specs.Steps.{HoleAt, Reached};

use arena::load::load;
use editing::{put_term, term_record};
use layout::header::expected_field;
use numbers::{Sort, Term};
use step::lent::Lent;
use step::picture::{Start, recall};
use step::state::State;

// The table is the edited one. While the old terms run, the old Sorry record stands in its place.
pub fn reach(
    old: &[u8],
    goal: u16,
    filling: &[u8],
    hole: Term,
    lent: &mut Lent<'_>,
    table: &mut [u8],
) -> Start
    requires fillable { Fillable old.now filling.now hole.0 }
    requires hole_at { HoleAt old.now goal hole.0 }
    requires edited { Edited old.now filling.now hole.0 table.old × Counted table.old }
    requires exact { Exact (held lent.old) }
    ensures done { (table.new ≡ table.old) × Reached old.now goal table.old (held lent.new) result }
    ensures same_rooms { SameLent lent.old lent.new }
{
    load(table, lent.work, lent.props);
    let root = term_record(table, hole);
    put_term(table, hole, term_record(old, hole));
    let wanted = Sort::Proposition(expected_field(table));
    let start = State {
        asked: goal,
        ..State::START
    };
    let _ = checker::check(table, lent, Term(0), wanted, start);
    put_term(table, hole, root);
    recall(lent.work)
}
