// The entry: any bytes as a table, any rooms. The rooms and the table are tested, the propositions loaded, the root is held to the expected
// proposition, and the rooms are left clean.
#![tactic(auto)]

ghost use Rattle.std.specs.Prelude.{◌≡◌, Err};
ghost use Rattle.step.specs.Rooms.{rooms};
ghost use Rattle.step.specs.Lent.{held, SameLent};
ghost use Rattle.entry.specs.Mark.{table_run, Emptied, MarkedAs, Marks};
ghost use Rattle.entry.specs.Ran.{Exact, RanAs, counted_in};

use arena::load::load;
use layout::header::expected_field;
use numbers::refusal::{Reason, Refusal};
use numbers::{Sort, Term};
use rooms::{GOALS, PROPOSITIONS, TREE, WORK, clear_rest, clear_rooms, long_enough};
use step::lent::Lent;
use step::state::{Answer, State};
use table::{Purpose, test_table};

pub mod rooms;

// How many tree records, goals, serials and propositions a run made: what an accepted table's mark says.
#[derive(Clone, Copy, Debug, PartialEq, Eq)]
pub struct Counts {
    pub records: u16,
    pub goals: u16,
    pub serials: u16,
    pub made: u16,
}

impl From<State> for Counts {
    ghost from_gives = { λ st c. c ≡ counted_in st };

    fn from(st: State) -> Self {
        Counts {
            records: st.records,
            goals: st.goals,
            serials: st.serials,
            made: st.made,
        }
    }
}

// The run of a table: its tests, and where it passes them its root, held to what it expects, with nothing made yet and an empty context.
fn run(file: &[u8], lent: &mut Lent<'_>) -> Result<Answer, Refusal>
    requires { Exact (held lent.old) }
    ensures ran { RanAs file.now (table_run file.now) (held lent.new) result }
    ensures same_rooms { SameLent lent.old lent.new }
{
    test_table(file, lent.work, Purpose::Check)?;
    load(file, lent.work, lent.props);
    checker::check(
        file,
        lent,
        Term(0),
        Sort::Proposition(expected_field(file)),
        State::START,
    )
}

// A refusal, with all rooms emptied.
fn refuse(lent: &mut Lent<'_>, refusal: Refusal) -> Result<Counts, Refusal>
    ensures emptied { Emptied (held lent.old) (held lent.new) }
    ensures same_rooms { SameLent lent.old lent.new }
    ensures answer { result ≡ Err refusal }
{
    clear_rooms(lent);
    Err(refusal)
}

// The mark of any bytes, in rooms of just the listed sizes, which are cleaned after the run.
pub fn check_table(file: &[u8], lent: &mut Lent<'_>) -> Result<Counts, Refusal>
    requires { Exact (held lent.old) }
    ensures marked { MarkedAs file.now (held lent.old) (held lent.new) (table_run file.now) result }
    ensures same_rooms { SameLent lent.old lent.new }
{
    match run(file, lent) {
        Ok(answer) => {
            let st = answer.state;
            let count = st.count(file);
            clear_rest(lent, st.records, st.goals, count);
            Ok(Counts::from(st))
        }
        Err(e) => {
            clear_rooms(lent);
            Err(e)
        }
    }
}

// The same, of rooms that come one by one. (A `Lent` made of rooms that are cut to size in it does not prove: nothing ties what is left of a cut to its field.)
fn check_rooms(
    file: &[u8],
    tree: &mut [u8],
    goals: &mut [u8],
    props: &mut [u8],
    work: &mut [u8],
) -> Result<Counts, Refusal>
    requires { Exact (rooms tree.old goals.old props.old work.old) }
    ensures { MarkedAs file.now (rooms tree.old goals.old props.old work.old)
        (rooms tree.new goals.new props.new work.new) (table_run file.now) result }
{
    let mut lent = Lent {
        tree,
        goals,
        props,
        work,
    };
    check_table(file, &mut lent)
}

// The mark of any bytes in any rooms.
pub fn check(
    file: &[u8],
    tree: &mut [u8],
    goals: &mut [u8],
    props: &mut [u8],
    work: &mut [u8],
) -> Result<Counts, Refusal>
    ensures { Marks file.now (rooms tree.old goals.old props.old work.old)
        (rooms tree.new goals.new props.new work.new) result }
{
    if long_enough(tree, goals, props, work) {
        check_rooms(
            file,
            &mut tree[..TREE],
            &mut goals[..GOALS],
            &mut props[..PROPOSITIONS],
            &mut work[..WORK],
        )
    } else {
        let mut lent = Lent {
            tree,
            goals,
            props,
            work,
        };
        refuse(&mut lent, Reason::RoomTooShort.of(0))
    }
}
