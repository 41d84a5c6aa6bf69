#![tactic(auto)]

pub mod check;
pub mod entering;
pub mod fault;
pub mod laws;
