// Floor 6: the rules, one file each, cut at their premises. A rule's code is what it does before its first premise, between two, and after the last;
// what is left to do after a premise is a small value, `Rest`. None of these functions recurs.
// (A closure would have to be kept from premise to premise, and nothing here is on a heap.) Each piece asks, by their names, for the conditions of the
// rooms that it touches.
#![tactic(auto)]

pub mod abort;
pub mod application;
pub mod ascription;
pub mod case;
pub mod check;
pub mod function;
pub mod ident;
pub mod let_in;
pub mod next;
pub mod or;
pub mod pair;
pub mod projection;
pub mod resume;
pub mod sorry;
pub mod synthesize;
pub mod unit;
