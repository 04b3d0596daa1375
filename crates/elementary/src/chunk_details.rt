//! What a subscriber is told of a chunk that it received, and by which it names the chunk when it reads it or gives it back.
use crate::pointer_offset::PointerOffset;
use crate::port_id::PortId;

#[derive(Clone, Copy, PartialEq, Eq, Debug)]
pub struct ChunkDetails {
    pub connection_key: usize,
    pub offset: PointerOffset,
    pub origin: PortId,
}
