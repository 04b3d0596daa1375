//! What a connection between a sender and a receiver is made with, and how its ends and its mark stand.
use crate::port_id::PortId;

/// The two ports and the settings on which both ends have to agree.
#[derive(Clone, Copy, PartialEq, Eq, Debug)]
pub struct LinkDetails {
    pub sender_port_id: PortId,
    pub receiver_port_id: PortId,
    pub buffer_size: usize,
    pub max_borrowed_samples: usize,
    pub enable_safe_overflow: bool,
}

#[derive(Clone, Copy, PartialEq, Eq, Debug)]
pub enum End {
    Sender,
    Receiver,
}

#[derive(Clone, Copy, PartialEq, Eq, Debug)]
pub enum Standing {
    NeverAttached,
    Attached,
    Gone,
}

#[derive(Clone, Copy, PartialEq, Eq, Debug)]
pub enum Event {
    Attach,
    Detach,
}

/// What a connection is known to be.
#[derive(Clone, Copy, PartialEq, Eq, Debug)]
pub enum Mark {
    Sound,
    Corrupted,
    Broken,
}

/// The lists of a connection: sent and not yet received, received and not yet given back, given back and not yet reclaimed.
#[derive(Clone, Copy, PartialEq, Eq, Debug)]
pub enum ChunkList {
    Waiting,
    Borrowed,
    Returned,
}
