// Floor 2, above the tests: the edited table, which is the old one with a filling in the place of a Sorry record. (`as usize`: as in `table`.)
#![tactic(auto)]

ghost use Rattle.std.specs.Prelude.{◌≡◌, ℕ, ◌+◌, ◌*◌, ◌<◌, ◌≤◌, length};
ghost use Rattle.numbers.specs.declared.record.Record.{Record};
ghost use Rattle.numbers.specs.Records.{record_at, Put};
ghost use Rattle.layout.specs.File.{props, terms};
ghost use Rattle.table.specs.Passing.{Counted, Directed, WellLinked};
ghost use Rattle.table.specs.Tests.{test_room};
ghost use Rattle.editing.specs.Edited.{recounted, term_bytes, moved_term, edited_size, edited_bytes, Fillable, Edited};
ghost use Rattle.editing.specs.Edited.{edited_tests};
ghost use Rattle.editing.specs.Copied.{ChangesRow, Copied, Waiting};

mod moving;

use layout::header::{file_size, proposition_count, term_count};
use moving::{move_prop, move_term};
use numbers::record::{Record, put, record_at};
use numbers::refusal::{Reason, Refusal};
use numbers::{Proposition, Term};
use table::opening::well_counted;
use table::size::oversized;
use table::verdict::{guiltless, holds};

// The longest edited table: a header, and twice the records that a table may have, but for the filling's root.
pub const EDITED: usize = 16
    * (1 + 2 * (Proposition::LIMIT as usize) + (2 * (Term::LIMIT as usize) - 1));

// How long the edited table is.
pub fn edited_size(old: &[u8], filling: &[u8]) -> usize
    requires counted { Counted old.now }
    requires counted_2 { Counted filling.now }
    ensures { (result ≡ edited_size old.now filling.now) × (result ≤ edited_bytes) }
{
    let p = proposition_count(old) + proposition_count(filling);
    let t = term_count(old) + term_count(filling) - 1;
    file_size(p, t)
}

// Term t's record, as it is copied.
pub fn term_record(table: &[u8], t: Term) -> Record
    requires { 16 * (props table.now + t.0 + 1) + 16 ≤ length table.now }
    ensures { result ≡ term_bytes table.now t.0 }
{
    let p = usize::from(proposition_count(table));
    record_at(table, p + usize::from(t.0) + 1)
}

// Another record for term t.
pub fn put_term(table: &mut [u8], t: Term, r: Record)
    requires { 16 * (props table.old + t.0 + 1) + 16 ≤ length table.old }
    ensures { Put table.old (props table.old + t.0 + 1) r table.new }
{
    let p = usize::from(proposition_count(table));
    put(table, p + usize::from(t.0) + 1, r);
}

// The filling's root as it stands in the edited table.
pub fn moved_root(old: &[u8], filling: &[u8]) -> Record
    requires counted { Counted old.now }
    requires counted_2 { Counted filling.now }
    requires directed { Directed filling.now }
    ensures { result ≡ moved_term (props old.now) (terms old.now) (term_bytes filling.now 0) }
{
    let root = term_record(filling, Term(0));
    move_term(root, proposition_count(old), term_count(old))
}

// The old header with p propositions and t terms.
fn put_header(old: &[u8], p: u16, t: u16, table: &mut [u8])
    requires { (16 ≤ length old.now) × (16 ≤ length table.old) }
    ensures { Put table.old 0 (recounted p t (record_at old.now 0)) table.new }
{
    let h = record_at(old, 0);
    let counted = Record {
        c: p,
        parameters: [t, h.parameters[1], h.parameters[2], h.parameters[3]],
        ..h
    };
    put(table, 0, counted);
}

// n records of `source`, the first at number `first`, go into the table from number `to` on, each changed. What stands behind them
// there is not settled: the table is written from front to back.
fn copy<F: Fn(Record) -> Record>(
    source: &[u8],
    first: usize,
    n: usize,
    change: F,
    table: &mut [u8],
    to: usize,
)
    requires n_in_bounds { (16 * (first + n) ≤ length source.now) × (16 * (to + n) ≤ length table.old) }
    requires changes { (i : ℕ) → i < n → F.pre change (record_at source.now (first + i)) }
    ensures { (g : Record → Record) → (ChangesRow (F.post change) g source.now first n) → Copied g source.now first n table.old to table.new }
{
    for i in 0..n {
        put(table, to + i, change(record_at(source, first + i)));
    }
}

// Old propositions, the filling's, old terms, and the filling's but for its root.
fn join(old: &[u8], filling: &[u8], table: &mut [u8])
    requires counted { Counted old.now }
    requires counted_2 { Counted filling.now }
    requires directed { Directed filling.now }
    requires table_len { length table.old ≡ edited_size old.now filling.now }
    ensures { Waiting old.now filling.now table.new }
{
    let p = proposition_count(old);
    let t = term_count(old);
    let more_p = proposition_count(filling);
    let more_t = term_count(filling) - 1;
    put_header(old, p + more_p, t + more_t, table);
    let ps = p as usize;
    let ts = t as usize;
    let more_ps = more_p as usize;
    let more_ts = more_t as usize;
    copy(old, 1, ps, |r| r, table, 1);
    copy(filling, 1, more_ps, |r| move_prop(r, p), table, ps + 1);
    copy(old, ps + 1, ts, |r| r, table, ps + more_ps + 1);
    copy(
        filling,
        more_ps + 2,
        more_ts,
        |r| move_term(r, p, t),
        table,
        ps + more_ps + ts + 1,
    );
}

// Document 01's file operation: the filling's root takes the place of the Sorry record.
pub fn edit(old: &[u8], filling: &[u8], hole: Term, table: &mut [u8])
    requires fillable { Fillable old.now filling.now hole.0 }
    requires table_len { length table.old ≡ edited_size old.now filling.now }
    ensures { Edited old.now filling.now hole.0 table.new }
{
    join(old, filling, table);
    let root = moved_root(old, filling);
    put_term(table, hole, root);
}

// Tests 3 and 6, one after the other. An edited table passes the others by itself.
#[tactic(auto, using(crate::proofs::Edits::in_turn), unfolding(table::specs::Tests::unless, table::specs::Tests::accused))]
pub fn test_edited(table: &[u8], work: &mut [u8]) -> Result<(), Refusal>
    requires in_bounds { (16 ≤ length table.now) × (test_room ≤ length work.old) }
    requires well_linked { WellLinked table.now }
    ensures { result ≡ edited_tests table.now }
{
    holds(well_counted(table), Reason::WrongCounts)?;
    guiltless(oversized(table, work), Reason::TooLarge)
}
