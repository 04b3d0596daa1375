//! A bounded queue whose memory is taken once, when it is made.
#![tactic(auto)]

pub mod queue;
