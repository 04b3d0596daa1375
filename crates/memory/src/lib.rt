//! The memory of a publisher as an interface, the counts of who holds each chunk, and the bytes of a chunk.
#![tactic(auto)]

pub mod chunk;
pub mod data_segment;
pub mod segment_state;
