#![tactic(auto)]

pub mod by_type;
pub mod change;
pub mod item_type;
pub mod kind;
pub mod line;
pub mod part_number;
pub mod refusal;
