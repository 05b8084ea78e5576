// Test 5: links in range and the right way, every record but the root term named exactly once.
ghost use Rattle.std.specs.Prelude.{◌≡◌, ◌&&◌, ◌||◌, not, ◌+◌, ◌*◌, ◌<◌, ◌≤◌, length, get_or, eqb, ltb};
ghost use Rattle.layout.specs.File.{props, terms, file_size};
ghost use Rattle.table.specs.Links.{all_links, annotation, prop_links, term_links, prop_links_ok, term_links_ok};
ghost use Rattle.table.specs.Passing.{Counted};
ghost use Rattle.table.specs.Reading.{first};
ghost use Rattle.table.specs.Tests.{badly_linked, test_room};

use super::Purpose;
use super::forming::or_term;
use super::naming::count_names;
use super::search::first;
use layout::form::{prop_shape, term_shape};
use layout::header::{proposition_count, term_count};
use layout::record::{TermRecord, proposition_at, term_at};
use numbers::record::Record;
use numbers::{Proposition, Term};

// Children have smaller numbers.
fn prop_links_ok(r: Record, n: u16) -> bool
    ensures { result ≡ all_links (λ m. ltb m n) (prop_links r) }
{
    let s = prop_shape(r.kind);
    match s.children {
        0 => true,
        1 => r.c < n,
        _ => (r.a < n) & (r.b < n),
    }
}

// A child of term t, if it is used, has a larger number. (A flag beside the field: an Option would be made only to be taken apart at once.)
fn child_ok(used: bool, t: u16, count: u16, m: u16) -> bool
    ensures { result ≡ (not used || (ltb t m && ltb m count)) }
{
    !used | ((t < m) & (m < count))
}

// A type that is a proposition is one of the table's.
fn annotation_ok(r: TermRecord, p: u16) -> bool
    ensures { result ≡ all_links (λ m. ltb m p) (annotation r) }
{
    (r.tag != 1) | (r.typ < p)
}

fn term_links_ok(r: TermRecord, t: u16, p: u16, count: u16) -> bool
    ensures { result ≡ (all_links (λ m. ltb t m && ltb m count) (term_links r) && all_links (λ m. ltb m p) (annotation r)) }
{
    let s = term_shape(r.kind);
    let k = s.children;
    let children = child_ok(0 < k, t, count, r.child1.0)
        & child_ok(1 < k, t, count, r.child2.0)
        & child_ok(2 < k, t, count, r.child3.0);
    children & annotation_ok(r, p)
}

// Proposition n's links go the right way, and it is named once: the work room shows how often.
fn proposition_ok(file: &[u8], work: &[u8], n: u16) -> bool
    requires { (16 * (n + 1) + 16 ≤ length file.now) × (n < length work.now) }
    ensures { result ≡ (prop_links_ok file.now n && eqb (get_or work.now n 0) 1) }
{
    let r = proposition_at(file, Proposition(n));
    prop_links_ok(r, n) & (work[usize::from(n)] == 1)
}

fn badly_linked_proposition(file: &[u8], work: &[u8], p: u16) -> Option<u16>
    requires { (file_size p 0 ≤ length file.now) × (p ≤ length work.now) }
    ensures { result ≡ first (λ n. not (prop_links_ok file.now n && eqb (get_or work.now n 0) 1)) p }
{
    first(p, |n| !proposition_ok(file, work, n))
}

// The same of term t. Nothing names the root.
fn term_ok(file: &[u8], work: &[u8], p: u16, count: u16, t: u16) -> bool
    requires { (p ≡ props file.now) × (count ≡ terms file.now)
        × (16 * (p + t + 1) + 16 ≤ length file.now) × (p + t < length work.now) }
    ensures { result ≡ (term_links_ok file.now t && (eqb t 0 || eqb (get_or work.now (p + t) 0) 1)) }
{
    let r = term_at(file, p, Term(t));
    term_links_ok(r, t, p, count) & ((t == 0) | (work[usize::from(p) + usize::from(t)] == 1))
}

fn badly_linked_term(file: &[u8], work: &[u8], p: u16, count: u16) -> Option<u16>
    requires { (p ≡ props file.now) × (count ≡ terms file.now)
        × (file_size p count ≤ length file.now) × (p + count ≤ length work.now) }
    ensures { result ≡ first (λ t. not (term_links_ok file.now t && (eqb t 0 || eqb (get_or work.now (p + t) 0) 1))) count }
{
    first(count, |t| !term_ok(file, work, p, count, t))
}

// The place of the lowest guilty record, None where there is none.
pub fn badly_linked(file: &[u8], work: &mut [u8], purpose: Purpose) -> Option<u16>
    requires counted { Counted file.now }
    requires test_room_in_bounds { test_room ≤ length work.old }
    ensures { result ≡ badly_linked purpose file.now }
{
    let p = proposition_count(file);
    let count = term_count(file);
    count_names(file, work, purpose);
    let g = badly_linked_proposition(file, work, p);
    let h = badly_linked_term(file, work, p, count);
    or_term(g, p, h)
}
