//! The memories of the exchange: one segment that is there from the start, or up to four that are made as they are wanted.
#![tactic(auto)]

pub mod data_segment_view;
pub mod dynamic_memory;
pub mod pool_allocator;
pub mod request;
pub mod static_memory;
