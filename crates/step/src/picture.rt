// The picture of a goal: what the rules knew at one Sorry of a run, kept in the work room behind the context's entries, for a filling to start from.
ghost use Rattle.std.specs.Prelude.{◌≡◌, ◌⊎◌, ◌+◌, ◌*◌, ◌≤◌, length};
ghost use Rattle.context.specs.Context.{most_entries};
ghost use Rattle.step.specs.Rooms.{first_pictured, run_room};
ghost use Rattle.step.specs.Picture.{pictured_state, pictured_type, Copied, Taken, Pictured};

use super::state::State;
use context::identifier_context::{Entry, LIMIT, ROOM, entry_at, insert};
use numbers::record::{put_word, word};
use numbers::{Name, Serial, Sort};

// What a filling's run begins with.
#[derive(Clone, Copy)]
pub struct Start {
    pub wanted: Sort,
    pub state: State,
}

// The head: three 16-bit numbers, and the entry that holds the wanted type. Then the hole's entries.
const SERIALS: usize = ROOM;

const MADE: usize = ROOM + 2;

const LENGTH: usize = ROOM + 4;

const TYPE: usize = LIMIT + 1;

const FIRST: usize = LIMIT + 2;

// The n entries from one number on, copied to another number on. They do not overlap. (Entry by entry, as `shift` moves records.)
fn copy_entries(work: &mut [u8], from: usize, to: usize, n: u16)
    requires n_in_bounds { (8 * (from + n) ≤ length work.old) × (8 * (to + n) ≤ length work.old) }
    requires apart { (from + n ≤ to) ⊎ (to + n ≤ from) }
    ensures { Copied work.old from to n work.new }
{
    for i in 0..n {
        let e = entry_at(work, from + i as usize);
        insert(work, to + i as usize, e);
    }
}

// What is known at a Sorry that wants this type.
fn take(work: &mut [u8], wanted: Sort, st: State)
    requires { (run_room ≤ length work.old) × (st.context ≤ most_entries) }
    ensures { Taken work.old wanted st work.new }
{
    put_word(work, SERIALS, st.serials);
    put_word(work, MADE, st.made);
    put_word(work, LENGTH, st.context);
    let e = Entry {
        name: Name(0),
        serial: Serial::NONE,
        typ: wanted,
    };
    insert(work, TYPE, e);
    copy_entries(work, 0, FIRST, st.context);
}

// The same, if the next goal is the one that is asked for.
pub fn picture(work: &mut [u8], wanted: Sort, st: State)
    requires { (run_room ≤ length work.old) × (st.context ≤ most_entries) }
    ensures { Pictured work.old wanted st work.new }
{
    if st.asked == st.goals {
        take(work, wanted, st);
    }
}

// The hole's entries are the context again.
pub fn recall(work: &mut [u8]) -> Start
    requires { (run_room ≤ length work.old) × ((pictured_state work.old).context ≤ most_entries) }
    ensures { (result.wanted ≡ pictured_type work.old) × (result.state ≡ pictured_state work.old) × Copied work.old
        first_pictured 0 (pictured_state work.old).context work.new }
{
    let wanted = entry_at(work, TYPE).typ;
    let state = State {
        records: 0,
        goals: 0,
        serials: word(work, SERIALS),
        made: word(work, MADE),
        context: word(work, LENGTH),
        asked: State::NO_PICTURE,
    };
    copy_entries(work, FIRST, 0, state.context);
    Start { wanted, state }
}
