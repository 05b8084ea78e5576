// Floor 4: propositions in their room. The table's records come first, then the made ones; a record's children have smaller numbers, and what a
// number stands for never changes.
#![tactic(auto)]

pub mod atom;
pub mod compare;
pub mod each;
pub mod head;
pub mod holds;
pub mod node;
pub mod propositions;
pub mod size;
