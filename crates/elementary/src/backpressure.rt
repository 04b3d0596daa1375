//! What a publisher does where a subscriber's buffer is full, and where a connection fails.
ghost use Rattle.std.specs.Prelude.{◌≡◌};
ghost use Rattle.elementary.specs.declared.backpressure.BackpressureAction.{BackpressureAction};
ghost use Rattle.elementary.specs.declared.backpressure.BackpressureInfo.{BackpressureInfo};
ghost use Rattle.elementary.specs.Handlers.{always, optional};

use crate::port_id::PortId;

#[derive(Clone, Copy, PartialEq, Eq, Debug)]
pub enum BackpressureStrategy {
    RetryUntilDelivered,
    DiscardData,
}

#[derive(Clone, Copy, PartialEq, Eq, Debug)]
pub enum BackpressureAction {
    FollowBackpressureStrategy,
    Retry,
    DiscardData,
    DiscardDataAndFail,
}

#[derive(Clone, Copy, PartialEq, Eq, Debug)]
pub enum DegradationAction {
    Ignore,
    Warn,
    DegradeAndFail,
}

/// What a handler is told: between which ports the buffer is full, and how often this delivery was tried again so far.
#[derive(Clone, Copy, PartialEq, Eq, Debug)]
pub struct BackpressureInfo {
    pub sender_port_id: PortId,
    pub receiver_port_id: PortId,
    pub retries: u64,
}

/// Answers from what it holds and is told, and from nothing else. A trait and no closure: the rules need the one answer, and of a closure a
/// bound says only which answers are possible.
pub trait BackpressureHandler {
    ghost answers: { Self → BackpressureInfo → BackpressureAction };

    fn call(&self, info: BackpressureInfo) -> BackpressureAction
        ensures { result ≡ answers self.now info };
}

// An action answers itself, whatever it is told.
impl BackpressureHandler for BackpressureAction {
    ghost answers = { always };

    fn call(&self, _info: BackpressureInfo) -> BackpressureAction {
        *self
    }
}

// Where there is no handler, the strategy is followed.
impl<H: BackpressureHandler> BackpressureHandler for Option<H> {
    ghost answers = { optional H.answers };

    fn call(&self, info: BackpressureInfo) -> BackpressureAction {
        match self {
            Some(handler) => handler.call(info),
            None => BackpressureAction::FollowBackpressureStrategy,
        }
    }
}
