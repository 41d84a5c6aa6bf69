#![tactic(auto)]

pub mod book;
mod table;
#[cfg(test)]
mod tests;
