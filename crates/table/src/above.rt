// Bound names: the nearest quantifier above each proposition, two bytes of the work room for each, and a name looked up along them.
ghost use Rattle.std.specs.Prelude.{◌≡◌, true, List, ℕ, ◌+◌, ◌*◌, ◌<◌, ◌≤◌, length};
ghost use Rattle.table.specs.Tests.{test_room};
ghost use Rattle.layout.specs.File.{props, prop_record};
ghost use Rattle.table.specs.Reading.{binders, settled};
ghost use Rattle.table.specs.Nearest.{Above, ChildrenFit, ChildrenNoted, Noted, Vacant, param_of};
ghost use Rattle.table.specs.Scoped.{Scoped};
ghost use Rattle.table.specs.Passing.{Counted, WellLinked};

use layout::form::prop_shape;
use layout::header::proposition_count;
use layout::record::proposition_at;
use numbers::record::{Record, put_word, word};
use numbers::{Name, Proposition};
use std::marker::Model;

// No proposition has a quantifier above it yet.
fn empty(work: &mut [u8], p: u16)
    requires { 2 * p ≤ length work.old }
    ensures { Vacant p work.old work.new }
{
    for n in 0..p {
        put_word(work, 2 * (n as usize), Proposition::NONE.0);
    }
}

// The child, if it is used, has q above it. (A flag beside the field: an Option would be made only to be taken apart at once.)
fn note(work: &mut [u8], used: bool, child: u16, q: u16)
    requires { used ≡ true → 2 * child + 1 < length work.old }
    ensures { Noted used child q work.old work.new }
{
    if used {
        put_word(work, 2 * (child as usize), q);
    }
}

// A quantifier is the nearest one above its body; other children have above them what their parent has.
fn note_children(work: &mut [u8], r: Record, n: u16)
    requires { ChildrenFit r n work.old }
    ensures { ChildrenNoted r n work.old work.new }
{
    let s = prop_shape(r.kind);
    let q = word(work, 2 * (n as usize));
    note(work, s.children == 1, r.c, n);
    note(work, 1 < s.children, r.a, q);
    note(work, 1 < s.children, r.b, q);
}

// From the largest number down, so that a parent is done before its children.
pub fn find_above(file: &[u8], work: &mut [u8])
    requires counted { Counted file.now }
    requires well_linked { WellLinked file.now }
    requires test_room_in_bounds { test_room ≤ length work.old }
    ensures { Above file.now work.new }
{
    let p = proposition_count(file);
    empty(work, p);
    for n in (0..p).rev() {
        let r = proposition_at(file, Proposition(n));
        note_children(work, r, n);
    }
}

// The name x in record n: how many quantifiers stand between it and its own, or None where it is free.
pub fn settle(file: &[u8], work: &[u8], n: Proposition, x: Name) -> Option<u16>
    requires counted { Counted file.now }
    requires well_linked { WellLinked file.now }
    requires above { Above file.now work.now }
    requires n_bound { (n.0 < props file.now) × (test_room ≤ length work.now) }
    ensures { param_of x.0 result ≡ settled x.0 0 (binders file.now n.0) }
{
    // It follows links up, each to a larger number: no range or slice lists these for a `for`.
    let mut k: u16 = 0;
    let mut q = word(work, 2 * (n.0 as usize));
    while q != Proposition::NONE.0 {
        let r = proposition_at(file, Proposition(q));
        if r.a == x.0 {
            return Some(k);
        }
        k += 1;
        q = word(work, 2 * (q as usize));
    }
    None
}

// A table that passed test 5, and the work room with the nearest quantifier above each of its propositions: here a name can be looked
// up. Contracts see the file.
#[derive(Drop)]
pub struct Scopes<'a> {
    pub file: &'a [u8],
    pub above: &'a [u8],
}

impl<'a> Model for Scopes<'a> {
    ghost Value = { List ℕ };

    ghost view = { λ s. s.file.now };

    ghost invariant = { λ s. Scoped s.file.now s.above.now };
}

impl<'a> Scopes<'a> {
    // In a work room of any contents.
    pub fn of(file: &'a [u8], work: &'a mut [u8]) -> Self
        requires counted { Counted file.now }
        requires well_linked { WellLinked file.now }
        requires test_room_in_bounds { test_room ≤ length work.old }
        ensures { result ≡ file.now }
    {
        find_above(file, work);
        Scopes { file, above: work }
    }

    pub fn proposition(&self, n: Proposition) -> Record
        requires { n.0 < props self.now }
        ensures is { result ≡ prop_record self.now n.0 }
        ensures well_linked { WellLinked self.now }
    {
        proposition_at(self.file, n)
    }

    // The name x in record n, as the function above.
    pub fn settle(&self, n: Proposition, x: Name) -> Option<u16>
        requires { n.0 < props self.now }
        ensures { param_of x.0 result ≡ settled x.0 0 (binders self.now n.0) }
    {
        settle(self.file, self.above, n, x)
    }
}
