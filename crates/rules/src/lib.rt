//! The specification that every contract cites stands in specs/. Here are the functions whose contracts are its laws.
#![tactic(auto)]

pub mod bank_laws;
pub mod book_laws;
pub mod call;
pub mod examples;
pub mod memory_laws;
pub mod run_laws;
