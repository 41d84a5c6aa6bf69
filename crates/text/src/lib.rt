#![tactic(auto)]

pub mod bytes;
pub mod laws;
pub mod lines;
mod number;
mod token;
mod words;
