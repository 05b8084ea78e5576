// Resolving an annotation: its free names become the identifiers of their latest entries, unless one is unknown. An unknown name is found before
// anything is made, and so goes before the limit.
ghost use Rattle.std.specs.Prelude.{◌≡◌, ℕ, ◌+◌, ◌*◌, ◌<◌, ◌≤◌, length};
ghost use Rattle.rules.specs.Context.{known};
ghost use Rattle.prop.specs.Room.{room_at, TypeIn, Arena};
ghost use Rattle.prop.specs.Atom.{passes};
ghost use Rattle.arena.specs.Copy.{most_records, names};
ghost use Rattle.arena.specs.Resolve.{all_known, ResolvedIs};

use super::copy::{Resolve, copy};
use context::identifier_context::get_by_name;
use numbers::record::Record;
use numbers::{Proposition, Sort};
use prop::atom::{Parameter, parameter_at};
use prop::each::Test;
use prop::propositions::Propositions;

// The resolved type, and how many records there are with it.
#[derive(Clone, Copy)]
pub struct Resolved {
    pub typ: Sort,
    pub count: u16,
}

// Why there is none: a name is unknown, or there would be too many new records.
#[derive(Clone, Copy)]
pub enum Unresolved {
    Unknown,
    Full,
}

// A name is known, by the first `len` entries of the work room.
#[derive(Clone, Copy)]
struct Known<'a> {
    work: &'a [u8],
    len: usize,
}

impl<'a> Known<'a> {
    // A free name is known if it has an entry. (A serial counts as an unknown name.)
    #[tactic(auto, unfolding(rules::specs::Context::known))]
    fn is_known(self, p: Parameter) -> bool
        requires { 8 * self.len ≤ length self.work.now }
        ensures { result ≡ passes (known (names self.entry.work.now self.entry.len)) p }
    {
        match p {
            Parameter::Free(x) => get_by_name(self.work, self.len, x).is_some(),
            Parameter::Identifier(_) => false,
            Parameter::Bound(_) | Parameter::Unused => true,
        }
    }
}

impl<'a> Test for Known<'a> {
    ghost passes = { λ t. known (names t.work.now t.len) };

    ghost ready = { λ t. 8 * t.len ≤ length t.work.now };

    fn all_pass(self, r: Record) -> bool {
        self.is_known(parameter_at(r, 0))
            & self.is_known(parameter_at(r, 1))
            & self.is_known(parameter_at(r, 2))
            & self.is_known(parameter_at(r, 3))
    }
}

// All names in a proposition are known. (The work room is C's and holds more than the entries, so their number goes beside it.)
#[tactic(auto, unfolding(crate::specs::Resolve::all_known))]
fn all_known(held: Propositions<'_>, n: Proposition, work: &[u8], len: usize) -> bool
    requires n_lt_count { n.0 < held.count }
    requires len_in_bounds { 8 * len ≤ length work.now }
    ensures { (tables : ℕ) → result ≡ all_known work.now len (room_at tables held.entry.room.now n.0) }
{
    held.each(n, Known { work, len })
}

// Type t resolved in the context of the first `len` entries, where `left` propositions may still be made. A datatype has no names in it, and
// is resolved as it is.
pub fn resolve(
    props: &mut [u8],
    count: u16,
    left: u16,
    work: &[u8],
    len: usize,
    t: Sort,
) -> Result<Resolved, Unresolved>
    requires arena { Arena props.old count }
    requires type_in { TypeIn count t }
    requires left_bound { count + left ≤ most_records }
    requires most_records_in_bounds { 16 * most_records ≤ length props.old }
    requires len_in_bounds { 8 * len ≤ length work.now }
    ensures { ResolvedIs props.old count left work.now len t props.new result }
{
    let Sort::Proposition(n) = t else {
        return Ok(Resolved { typ: t, count });
    };
    let held = Propositions { room: props, count };
    if !all_known(held, n, work, len) {
        return Err(Unresolved::Unknown);
    }
    held.nodes_of(n, left).ok_or(Unresolved::Full)?;
    let made = copy(props, count, n, 0, Resolve { work, len });
    Ok(Resolved {
        typ: Sort::Proposition(made.at),
        count: made.count,
    })
}
