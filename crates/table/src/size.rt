// Test 6: heights of propositions from the smallest number up, depths of terms from the root down, a byte of the work room each.
ghost use Rattle.std.specs.Prelude.{◌≡◌, ◌≤◌, length};
ghost use Rattle.layout.specs.File.{props, terms, file_size};
ghost use Rattle.table.specs.Links.{hits, term_links};
ghost use Rattle.table.specs.Naming.{used_hits};
ghost use Rattle.table.specs.Passing.{Counted, WellLinked};
ghost use Rattle.table.specs.Reading.{first};
ghost use Rattle.table.specs.Size.{too_high, too_deep};
ghost use Rattle.table.specs.Sizing.{height_of, ChildrenHigh, Within, Deepened};
ghost use Rattle.table.specs.Tests.{oversized, test_room};

use super::forming::or_term;
use layout::form::{prop_shape, term_shape};
use layout::header::{proposition_count, term_count};
use layout::record::{TermRecord, proposition_at, term_at};
use numbers::record::Record;
use numbers::{Proposition, Term};

// The height of record r over its children's heights.
fn height_of(work: &[u8], r: Record) -> u8
    requires { ChildrenHigh r work.now }
    ensures { result ≡ height_of r work.now }
{
    let s = prop_shape(r.kind);
    match s.children {
        0 => 1,
        1 => work[r.c as usize] + 1,
        _ => {
            let x = work[r.a as usize];
            let y = work[r.b as usize];
            x.max(y) + 1
        }
    }
}

fn too_high(file: &[u8], work: &mut [u8], p: u16) -> Option<u16>
    requires p_value { (p ≡ props file.now) × (file_size p 0 ≤ length file.now) × (p ≤ length work.old) }
    requires well_linked { WellLinked file.now }
    ensures { result ≡ first (too_high file.now) p }
{
    for n in 0..p {
        let r = proposition_at(file, Proposition(n));
        let h = height_of(work, r);
        if Proposition::HEIGHT < h {
            return Some(n);
        }
        work[n as usize] = h;
    }
    None
}

// The child, if it is used, stands at depth d. (A flag beside the field: an Option would be made only to be taken apart at once.)
fn set_depth(work: &mut [u8], used: bool, child: u16, d: u8)
    requires { Within (used_hits used child) work.old }
    ensures { Deepened (used_hits used child) d work.old work.new }
{
    if used {
        work[child as usize] = d;
    }
}

// The children of term r stand at depth d.
fn set_depths(work: &mut [u8], r: TermRecord, d: u8)
    requires { Within (λ t. hits t (term_links r)) work.old }
    ensures { Deepened (λ t. hits t (term_links r)) d work.old work.new }
{
    let s = term_shape(r.kind);
    let k = s.children;
    set_depth(work, 0 < k, r.child1.0, d);
    set_depth(work, 1 < k, r.child2.0, d);
    set_depth(work, 2 < k, r.child3.0, d);
}

fn too_deep(file: &[u8], work: &mut [u8], p: u16, count: u16) -> Option<u16>
    requires p_value { (p ≡ props file.now) × (count ≡ terms file.now) }
    requires count_in_bounds { (file_size p count ≤ length file.now) × (count ≤ length work.old) × (1 ≤ count) }
    requires well_linked { WellLinked file.now }
    ensures { result ≡ first (too_deep file.now) count }
{
    work[0] = 1;
    for t in 0..count {
        let d = work[t as usize];
        if Term::DEPTH < d {
            return Some(t);
        }
        let r = term_at(file, p, Term(t));
        set_depths(work, r, d + 1);
    }
    None
}

// The place of the lowest guilty record, None where there is none.
pub fn oversized(file: &[u8], work: &mut [u8]) -> Option<u16>
    requires counted { Counted file.now }
    requires well_linked { WellLinked file.now }
    requires test_room_in_bounds { test_room ≤ length work.old }
    ensures { result ≡ oversized file.now }
{
    let p = proposition_count(file);
    let count = term_count(file);
    let g = too_high(file, work, p);
    let h = too_deep(file, work, p, count);
    or_term(g, p, h)
}
