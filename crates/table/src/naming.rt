// Test 5's counts: how often each record is named, in one pass over the table. Byte n of the work room is proposition n's, byte
// p + t term t's.
ghost use Rattle.std.specs.Prelude.{◌≡◌, ◌+◌, ◌<◌, ◌≤◌, min, length, get_or, set};
ghost use Rattle.numbers.specs.Limits.{most_propositions};
ghost use Rattle.table.specs.Tests.{test_room};
ghost use Rattle.layout.specs.File.{props, terms, prop_record, term_record, file_size};
ghost use Rattle.table.specs.Links.{heads, hits, sum, annotation, prop_links, term_links};
ghost use Rattle.table.specs.Naming.{Names, used_hits, NamesShown};
ghost use Rattle.table.specs.Passing.{Counted};

use super::Purpose;
use layout::form::{prop_shape, term_shape};
use layout::header::{expected_field, proposition_count, term_count};
use layout::record::{TermRecord, proposition_at, term_at};
use numbers::record::Record;
use numbers::room::fill_zero;
use numbers::{Proposition, Term};

// One name more: more than one is all the same.
fn note(work: &mut [u8], i: usize)
    requires { i < length work.old }
    ensures { work.new ≡ set work.old i (min 2 (get_or work.old i 0 + 1)) }
{
    work[i] = work[i].min(1) + 1;
}

// A link, if it is used, names the record of its number, if there are so many. (A flag beside the field: an Option would be made only to be taken apart at once.)
fn name(work: &mut [u8], used: bool, base: usize, bound: u16, m: u16)
    requires { (base + bound ≤ length work.old) × (base ≤ most_propositions) }
    ensures { Names base bound (used_hits used m) work.old work.new }
{
    if used && m < bound {
        note(work, base + m as usize);
    }
}

fn name_children(work: &mut [u8], p: u16, r: Record)
    requires { p ≤ length work.old }
    ensures { Names 0 p (λ j. hits j (prop_links r)) work.old work.new }
{
    let s = prop_shape(r.kind);
    name(work, s.children == 1, 0, p, r.c);
    name(work, 1 < s.children, 0, p, r.a);
    name(work, 1 < s.children, 0, p, r.b);
}

fn name_subterms(work: &mut [u8], p: u16, count: u16, r: TermRecord)
    requires { (p + count ≤ length work.old) × (p ≤ most_propositions) }
    ensures { Names p count (λ j. hits j (term_links r)) work.old work.new }
{
    let s = term_shape(r.kind);
    let base = p as usize;
    name(work, 0 < s.children, base, count, r.child1.0);
    name(work, 1 < s.children, base, count, r.child2.0);
    name(work, 2 < s.children, base, count, r.child3.0);
}

// (This and the next two are a loop each: a closure that writes the room would have a longer contract than the loop.)
fn by_propositions(file: &[u8], work: &mut [u8], p: u16)
    requires { (file_size p 0 ≤ length file.now) × (p ≤ length work.old) }
    ensures { Names 0 p (λ j. sum (λ m. hits j (prop_links (prop_record file.now m))) p)
        work.old work.new }
{
    for n in 0..p {
        let r = proposition_at(file, Proposition(n));
        name_children(work, p, r);
    }
}

fn by_annotations(file: &[u8], work: &mut [u8], p: u16, count: u16)
    requires { (p ≡ props file.now) × (file_size p count ≤ length file.now) × (p ≤ length work.old) }
    ensures { Names 0 p (λ j. sum (λ t. hits j (annotation (term_record file.now t))) count)
        work.old work.new }
{
    for t in 0..count {
        let r = term_at(file, p, Term(t));
        name(work, r.tag == 1, 0, p, r.typ);
    }
}

fn by_terms(file: &[u8], work: &mut [u8], p: u16, count: u16)
    requires { (p ≡ props file.now) × (file_size p count ≤ length file.now)
        × (p + count ≤ length work.old) × (p ≤ most_propositions) }
    ensures { Names p count (λ j. sum (λ t. hits j (term_links (term_record file.now t))) count)
        work.old work.new }
{
    for t in 0..count {
        let r = term_at(file, p, Term(t));
        name_subterms(work, p, count, r);
    }
}

// The header of a table to check names the expected proposition.
fn by_header(file: &[u8], work: &mut [u8], p: u16, purpose: Purpose)
    requires { (16 ≤ length file.now) × (p ≤ length work.old) }
    ensures { Names 0 p (λ j. hits j (heads purpose file.now)) work.old work.new }
{
    match purpose {
        Purpose::Check => name(work, true, 0, p, expected_field(file).0),
        Purpose::Filling => {}
    }
}

// Every count, in a room of any contents.
pub fn count_names(file: &[u8], work: &mut [u8], purpose: Purpose)
    requires counted { Counted file.now }
    requires test_room_in_bounds { test_room ≤ length work.old }
    ensures { NamesShown purpose file.now work.new }
{
    let p = proposition_count(file);
    let count = term_count(file);
    fill_zero(work);
    by_header(file, work, p, purpose);
    by_propositions(file, work, p);
    by_annotations(file, work, p, count);
    by_terms(file, work, p, count);
}
