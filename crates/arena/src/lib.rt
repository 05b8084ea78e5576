// Floor 4, second half: propositions that come into being. The table's are loaded; the rules' are made of new records, and 30 comes before the first.
#![tactic(auto)]

pub mod copy;
pub mod load;
pub mod make;
pub mod resolve;
