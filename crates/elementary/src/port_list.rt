//! What a port is told of its counterparts.
use crate::port_id::PortId;

/// An entry of a publisher's list: a subscriber, and the slot that it is to have.
#[derive(Clone, Copy, PartialEq, Eq, Debug)]
pub struct SubscriberDetails {
    pub place: usize,
    pub port_id: PortId,
    pub buffer_size: usize,
}

/// An entry of a subscriber's list: a publisher, and the slot that it is to have.
#[derive(Clone, Copy, PartialEq, Eq, Debug)]
pub struct PublisherDetails {
    pub place: usize,
    pub port_id: PortId,
    pub max_number_of_segments: usize,
}
