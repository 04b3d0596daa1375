//! What a port is made with.
ghost use Rattle.std.specs.Prelude.{◌≡◌};
ghost use Rattle.std.specs.Result.{result_err};
ghost use Rattle.elementary.specs.Settings.{publisher_fault, subscriber_fault};

use crate::backpressure::{BackpressureStrategy, DegradationAction};
use crate::error::SettingsError;

#[derive(Clone, Copy, PartialEq, Eq, Debug)]
pub struct PublisherSettings {
    /// Loans at a time.
    pub max_loaned_samples: usize,
    /// Sent chunks that are kept for subscribers to come.
    pub history_size: usize,
    /// Slots for connections.
    pub max_subscribers: usize,
    pub subscriber_max_buffer_size: usize,
    pub subscriber_max_borrowed_samples: usize,
    /// Retries of one delivery at one subscriber.
    pub max_retries: u64,
    pub enable_safe_overflow: bool,
    pub backpressure_strategy: BackpressureStrategy,
    pub degradation_action: DegradationAction,
}

#[derive(Clone, Copy, PartialEq, Eq, Debug)]
pub struct SubscriberSettings {
    /// Slots for connections.
    pub max_publishers: usize,
    pub buffer_size: usize,
    /// Chunks borrowed at a time over one connection.
    pub max_borrowed_samples: usize,
    pub enable_safe_overflow: bool,
    pub degradation_action: DegradationAction,
    /// Connections that left their slot while they had data or borrows.
    pub max_expired_connections: usize,
}

impl PublisherSettings {
    pub fn check(&self) -> Result<(), SettingsError>
        ensures { result_err result ≡ publisher_fault self.now }
    {
        if matches!(self.max_loaned_samples, 1..=8)
            && matches!(self.history_size, 0..=16)
            && matches!(self.max_subscribers, 1..=8)
            && matches!(self.subscriber_max_buffer_size, 1..=8)
            && matches!(self.subscriber_max_borrowed_samples, 1..=8)
            && self.max_retries <= 100
        {
            Ok(())
        } else {
            Err(SettingsError::OutOfRange)
        }
    }
}

impl SubscriberSettings {
    pub fn check(&self) -> Result<(), SettingsError>
        ensures { result_err result ≡ subscriber_fault self.now }
    {
        if matches!(self.max_publishers, 1..=8)
            && matches!(self.buffer_size, 1..=8)
            && matches!(self.max_borrowed_samples, 1..=8)
            && matches!(self.max_expired_connections, 1..=4)
        {
            Ok(())
        } else {
            Err(SettingsError::OutOfRange)
        }
    }
}
