// Floor 5: what the cycle of check and synthesize asks and promises, and those parts of the rules that do not recurse.
#![tactic(auto)]

pub mod enter;
pub mod inference;
pub mod lent;
pub mod node;
pub mod open;
pub mod picture;
pub mod shift;
pub mod state;
pub mod typing;
