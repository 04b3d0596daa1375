//! Links between senders and receivers: a bank of them, what can be asked of it, and what can be done.
#![tactic(auto)]

pub mod bank;
