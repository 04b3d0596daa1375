//! What all layers share: names of ports and chunks, refusals, settings and backpressure handlers.
#![tactic(auto)]

pub mod backpressure;
pub mod chunk_details;
pub mod error;
pub mod link;
pub mod pointer_offset;
pub mod port_id;
pub mod port_list;
pub mod settings;
