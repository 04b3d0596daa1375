//! Why a call is refused. Every case that a user meets has a number, and one of them carries a cause that is a number too.
ghost use Rattle.std.specs.Prelude.{◌≡◌};
ghost use Rattle.elementary.specs.declared.error.Refusal.{Refusal};
ghost use Rattle.elementary.specs.Refusals.{allocation_refusal, deallocation_refusal, creation_refusal, receiving_refusal, releasing_refusal, connection_refusal, loan_refusal, fill_refusal, send_refusal, return_refusal, receive_refusal, read_refusal, update_refusal, close_refusal, settings_refusal, number_alone};
ghost use Rattle.elementary.specs.declared.error.SetUpError.TheVariants.{OutOfRange, NoMemory};

use std::alloc::AllocError;
use std::fmt;
use thiserror::Error;

/// What a refusal tells: its number, and the number of the cause if it carries one. Numbers and no cases, since these are what users see
/// and scripts compare. Each error that a user meets is an enum, and turns into them by `From`: a line each, as no derive gives an enum's discriminant.
#[derive(Clone, Copy, PartialEq, Eq, Debug)]
pub struct Refusal {
    pub number: u8,
    pub cause: Option<u8>,
}

impl Refusal {
    /// A refusal without a cause.
    pub fn new(number: u8) -> Refusal
        ensures { result ≡ number_alone number }
    {
        Refusal {
            number,
            cause: None,
        }
    }
}

/// Errors that a user meets. What such an error tells is a function of it, which generic code can name; `From` says of a bound no function.
pub trait Refused: Sized {
    ghost tells: { Self → Refusal };

    fn refusal(self) -> Refusal
        ensures { result ≡ tells self };
}

impl fmt::Display for Refusal {
    fn fmt<W: fmt::Write>(&self, f: &mut fmt::Formatter<W>) -> fmt::Result {
        let number = self.number;
        match self.cause {
            Some(cause) => write!(f, "{number} {cause}"),
            None => write!(f, "{number}"),
        }
    }
}

/// Why a connection takes no offset. The sender turns each case into an answer of its own, so that none has a number.
#[derive(Clone, Copy, PartialEq, Eq, Debug, Error)]
pub enum ZeroCopySendError {
    #[error("the sender's end is not attached")]
    NotConnected,
    #[error("the connection is broken")]
    InternalError,
    #[error("the connection is corrupted")]
    ConnectionCorrupted,
    #[error("the connection already holds the chunk")]
    UsedChunkListFull,
    #[error("the receiver's buffer is full")]
    ReceiveBufferFull,
}

/// Why a memory gives no bucket.
#[derive(Clone, Copy, PartialEq, Eq, Debug, Error)]
pub enum AllocationError {
    #[error("the size is 0 or above the memory's largest")]
    SizeTooLarge = 3,
    #[error("the alignment is none of 1, 2, 4 and 8")]
    AlignmentFailure = 4,
    #[error("no free bucket is large enough, and no segment can be added")]
    OutOfMemory = 5,
}

impl From<AllocationError> for Refusal {
    ghost from_gives = { λ e r. r ≡ allocation_refusal e };

    fn from(error: AllocationError) -> Refusal {
        Refusal::new(error as u8)
    }
}

impl Refused for AllocationError {
    ghost tells = { allocation_refusal };

    fn refusal(self) -> Refusal {
        self.into()
    }
}

/// Why a memory frees no bucket.
#[derive(Clone, Copy, PartialEq, Eq, Debug, Error)]
pub enum DeallocationError {
    #[error("the bucket is not taken")]
    NotTaken = 15,
}

impl From<DeallocationError> for Refusal {
    ghost from_gives = { λ e r. r ≡ deallocation_refusal e };

    fn from(error: DeallocationError) -> Refusal {
        Refusal::new(error as u8)
    }
}

impl Refused for DeallocationError {
    ghost tells = { deallocation_refusal };

    fn refusal(self) -> Refusal {
        self.into()
    }
}

/// Why an end of a connection is not created: the cause that a refused update carries.
#[derive(Clone, Copy, PartialEq, Eq, Debug, Error)]
pub enum ZeroCopyCreationError {
    #[error("the buffer size is 0, above 8 or above the publisher's limit")]
    IncompatibleBufferSize = 20,
    #[error("that end of the connection is attached or gone")]
    AnotherInstanceIsAlreadyConnected = 21,
    #[error("the connection has other settings")]
    IncompatibleSettings = 22,
    #[error("there is no such connection, and no empty place for one")]
    NoPlaceLeft = 23,
}

impl From<ZeroCopyCreationError> for Refusal {
    ghost from_gives = { λ e r. r ≡ creation_refusal e };

    fn from(error: ZeroCopyCreationError) -> Refusal {
        Refusal::new(error as u8)
    }
}

impl Refused for ZeroCopyCreationError {
    ghost tells = { creation_refusal };

    fn refusal(self) -> Refusal {
        self.into()
    }
}

/// Why a connection hands out no offset.
#[derive(Clone, Copy, PartialEq, Eq, Debug, Error)]
pub enum ZeroCopyReceiveError {
    #[error("as many chunks are borrowed as the connection allows")]
    ReceiveWouldExceedMaxBorrowValue = 14,
    #[error("the receiver's end is not attached")]
    NotConnected = 15,
}

impl From<ZeroCopyReceiveError> for Refusal {
    ghost from_gives = { λ e r. r ≡ receiving_refusal e };

    fn from(error: ZeroCopyReceiveError) -> Refusal {
        Refusal::new(error as u8)
    }
}

impl Refused for ZeroCopyReceiveError {
    ghost tells = { receiving_refusal };

    fn refusal(self) -> Refusal {
        self.into()
    }
}

/// Why a connection takes no offset back, and so why a received chunk is not given back.
#[derive(Clone, Copy, PartialEq, Eq, Debug, Error)]
pub enum ZeroCopyReleaseError {
    #[error("the chunk is not borrowed")]
    NotBorrowed = 15,
    #[error("the list of returned chunks is full")]
    RetrieveBufferFull = 16,
}

impl From<ZeroCopyReleaseError> for Refusal {
    ghost from_gives = { λ e r. r ≡ releasing_refusal e };

    fn from(error: ZeroCopyReleaseError) -> Refusal {
        Refusal::new(error as u8)
    }
}

impl Refused for ZeroCopyReleaseError {
    ghost tells = { releasing_refusal };

    fn refusal(self) -> Refusal {
        self.into()
    }
}

/// There is no such connection, or the caller's end of it is not attached.
#[derive(Clone, Copy, PartialEq, Eq, Debug, Error)]
pub enum ConnectionError {
    #[error("there is no such connection, or this end of it is not attached")]
    NotConnected = 15,
}

impl From<ConnectionError> for Refusal {
    ghost from_gives = { λ e r. r ≡ connection_refusal e };

    fn from(error: ConnectionError) -> Refusal {
        Refusal::new(error as u8)
    }
}

impl Refused for ConnectionError {
    ghost tells = { connection_refusal };

    fn refusal(self) -> Refusal {
        self.into()
    }
}

/// Why a publisher lends no chunk.
#[derive(Clone, Copy, PartialEq, Eq, Debug, Error)]
pub enum LoanError {
    #[error("as many loans are live as the publisher may have")]
    ExceedsMaxLoans = 2,
    #[error("the size is 0 or above the publisher's largest")]
    ExceedsMaxLoanSize = 3,
    #[error("the alignment is none of 1, 2, 4 and 8")]
    InternalFailure = 4,
    #[error("no free bucket is large enough, and no segment can be added")]
    OutOfMemory = 5,
    #[error("the publisher is closed")]
    ConnectionBrokenSinceSenderNoLongerExists = 8,
}

impl From<LoanError> for Refusal {
    ghost from_gives = { λ e r. r ≡ loan_refusal e };

    fn from(error: LoanError) -> Refusal {
        Refusal::new(error as u8)
    }
}

impl Refused for LoanError {
    ghost tells = { loan_refusal };

    fn refusal(self) -> Refusal {
        self.into()
    }
}

/// Why a loaned chunk is not filled.
#[derive(Clone, Copy, PartialEq, Eq, Debug, Error)]
pub enum FillError {
    #[error("the publisher does not have this loan out")]
    LoanNotLive = 6,
    #[error("there is no such chunk, its bucket is too small, or bytes are missing")]
    OutOfBounds = 7,
}

impl From<FillError> for Refusal {
    ghost from_gives = { λ e r. r ≡ fill_refusal e };

    fn from(error: FillError) -> Refusal {
        Refusal::new(error as u8)
    }
}

impl Refused for FillError {
    ghost tells = { fill_refusal };

    fn refusal(self) -> Refusal {
        self.into()
    }
}

/// Why a send fails. All but the first end the loan.
#[derive(Clone, Copy, PartialEq, Eq, Debug, Error)]
pub enum SendError {
    #[error("the publisher does not have this loan out")]
    LoanNotLive,
    #[error("the publisher is closed")]
    ConnectionBrokenSinceSenderNoLongerExists,
    #[error("the list of subscribers names a place that is no slot, or one twice")]
    MalformedList,
    #[error("a connection could not be made: {0}")]
    ConnectionFailure(ZeroCopyCreationError),
    #[error("delivery met a broken connection")]
    InternalError,
    #[error("delivery met a corrupted connection")]
    ConnectionCorrupted,
    #[error("a subscriber's buffer is full")]
    UnableToDeliver,
}

impl From<SendError> for Refusal {
    ghost from_gives = { λ e r. r ≡ send_refusal e };

    fn from(error: SendError) -> Refusal {
        match error {
            SendError::LoanNotLive => Refusal::new(6),
            SendError::ConnectionBrokenSinceSenderNoLongerExists => Refusal::new(8),
            SendError::MalformedList => Refusal::new(9),
            SendError::ConnectionFailure(cause) => Refusal {
                number: 10,
                cause: Some(cause as u8),
            },
            SendError::InternalError => Refusal::new(11),
            SendError::ConnectionCorrupted => Refusal::new(12),
            SendError::UnableToDeliver => Refusal::new(13),
        }
    }
}

impl Refused for SendError {
    ghost tells = { send_refusal };

    fn refusal(self) -> Refusal {
        self.into()
    }
}

/// Why a loan is not returned.
#[derive(Clone, Copy, PartialEq, Eq, Debug, Error)]
pub enum ReturnError {
    #[error("the publisher does not have this loan out")]
    LoanNotLive = 6,
}

impl From<ReturnError> for Refusal {
    ghost from_gives = { λ e r. r ≡ return_refusal e };

    fn from(error: ReturnError) -> Refusal {
        Refusal::new(error as u8)
    }
}

impl Refused for ReturnError {
    ghost tells = { return_refusal };

    fn refusal(self) -> Refusal {
        self.into()
    }
}

/// Why a subscriber receives nothing though there is data.
#[derive(Clone, Copy, PartialEq, Eq, Debug, Error)]
pub enum ReceiveError {
    #[error("every connection with data has as many chunks borrowed as it allows")]
    ExceedsMaxBorrows = 14,
}

impl From<ReceiveError> for Refusal {
    ghost from_gives = { λ e r. r ≡ receive_refusal e };

    fn from(error: ReceiveError) -> Refusal {
        Refusal::new(error as u8)
    }
}

impl Refused for ReceiveError {
    ghost tells = { receive_refusal };

    fn refusal(self) -> Refusal {
        self.into()
    }
}

/// Why a received chunk is not read.
#[derive(Clone, Copy, PartialEq, Eq, Debug, Error)]
pub enum ReadError {
    #[error("the publisher's bytes are fewer than its memory's capacity")]
    OutOfBounds = 7,
    #[error("the chunk is not borrowed")]
    NotBorrowed = 15,
}

impl From<ReadError> for Refusal {
    ghost from_gives = { λ e r. r ≡ read_refusal e };

    fn from(error: ReadError) -> Refusal {
        Refusal::new(error as u8)
    }
}

impl Refused for ReadError {
    ghost tells = { read_refusal };

    fn refusal(self) -> Refusal {
        self.into()
    }
}

/// Why a subscriber's list of publishers is not taken over, or not whole.
#[derive(Clone, Copy, PartialEq, Eq, Debug, Error)]
pub enum UpdateError {
    #[error("the list of publishers has a bad place, an unknown publisher or a bad number of segments")]
    MalformedList,
    #[error("a connection could not be made: {0}")]
    ConnectionFailure(ZeroCopyCreationError),
    #[error("a connection with borrowed chunks expires, and the list of such is full")]
    ExpiredConnectionsFull,
    #[error("every connection key is in use")]
    NoUnusedKey,
}

impl From<UpdateError> for Refusal {
    ghost from_gives = { λ e r. r ≡ update_refusal e };

    fn from(error: UpdateError) -> Refusal {
        match error {
            UpdateError::MalformedList => Refusal::new(9),
            UpdateError::ConnectionFailure(cause) => Refusal {
                number: 10,
                cause: Some(cause as u8),
            },
            UpdateError::ExpiredConnectionsFull => Refusal::new(17),
            UpdateError::NoUnusedKey => Refusal::new(18),
        }
    }
}

impl Refused for UpdateError {
    ghost tells = { update_refusal };

    fn refusal(self) -> Refusal {
        self.into()
    }
}

/// Why a publisher is not closed.
#[derive(Clone, Copy, PartialEq, Eq, Debug, Error)]
pub enum CloseError {
    #[error("the publisher is closed")]
    ConnectionBrokenSinceSenderNoLongerExists = 8,
}

impl From<CloseError> for Refusal {
    ghost from_gives = { λ e r. r ≡ close_refusal e };

    fn from(error: CloseError) -> Refusal {
        Refusal::new(error as u8)
    }
}

impl Refused for CloseError {
    ghost tells = { close_refusal };

    fn refusal(self) -> Refusal {
        self.into()
    }
}

/// Why something is not made or not set.
#[derive(Clone, Copy, PartialEq, Eq, Debug, Error)]
pub enum SettingsError {
    #[error("a setting is out of range, or names what is in use")]
    OutOfRange = 1,
}

impl From<SettingsError> for Refusal {
    ghost from_gives = { λ e r. r ≡ settings_refusal e };

    fn from(error: SettingsError) -> Refusal {
        Refusal::new(error as u8)
    }
}

impl Refused for SettingsError {
    ghost tells = { settings_refusal };

    fn refusal(self) -> Refusal {
        self.into()
    }
}

/// Why something is not set up. Want of memory has no number, since no later call can meet it.
#[derive(Clone, Copy, PartialEq, Eq, Debug, Error)]
pub enum SetUpError {
    #[error("the settings are out of range")]
    OutOfRange,
    #[error("there is no memory")]
    NoMemory,
}

// By hand, since a derived conversion does not say which error it makes, and callers' clauses name it.
impl From<AllocError> for SetUpError {
    ghost from_gives = { λ _ r. r ≡ NoMemory };

    fn from(_e: AllocError) -> SetUpError {
        SetUpError::NoMemory
    }
}

impl From<SettingsError> for SetUpError {
    ghost from_gives = { λ _ r. r ≡ OutOfRange };

    fn from(_e: SettingsError) -> SetUpError {
        SetUpError::OutOfRange
    }
}
