// Floor 3: the context, entries in the work room.
#![tactic(auto)]

pub mod identifier_context;
