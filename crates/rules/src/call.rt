//! The calls of an exchange, each with its operands, and what they answer. A loan is named by its publisher and its offset.
use elementary::chunk_details::ChunkDetails;
use elementary::error::Refusal;
use elementary::link::Mark;
use elementary::pointer_offset::PointerOffset;
use elementary::port_id::PortId;
use elementary::port_list::{PublisherDetails, SubscriberDetails};

#[derive(PartialEq, Eq, Debug, Drop)]
pub enum Call {
    Loan {
        publisher: PortId,
        size: usize,
        align: usize,
    },
    Fill {
        publisher: PortId,
        offset: PointerOffset,
        bytes: Vec<u8>,
    },
    Send {
        publisher: PortId,
        offset: PointerOffset,
        change: u64,
        list: Vec<SubscriberDetails>,
    },
    Return {
        publisher: PortId,
        offset: PointerOffset,
    },
    ClosePublisher {
        publisher: PortId,
    },
    Receive {
        subscriber: PortId,
    },
    Release {
        subscriber: PortId,
        chunk: ChunkDetails,
    },
    Read {
        subscriber: PortId,
        chunk: ChunkDetails,
    },
    Update {
        subscriber: PortId,
        change: u64,
        list: Vec<PublisherDetails>,
    },
    CloseSubscriber {
        subscriber: PortId,
    },
    SetMark {
        place: usize,
        mark: Mark,
    },
    SetPace {
        place: usize,
        pace: usize,
    },
}

#[derive(Clone, Copy, PartialEq, Eq, Debug)]
pub enum Answer {
    Done,
    Lent(PointerOffset),
    /// The number of recipients.
    Sent(usize),
    Received(Option<ChunkDetails>),
    /// Which part of the publisher's bytes a reading hands out.
    Payload { start: usize, length: usize },
    Refused(Refusal),
    /// No port of the exchange has the id that the call names.
    NoSuchPort,
}
