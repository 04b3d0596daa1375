//! Settings at the ends of their ranges and one beyond, and what handlers answer.
use crate::answers::told;
use elementary::backpressure::{
    BackpressureAction, BackpressureHandler, BackpressureInfo, BackpressureStrategy,
    DegradationAction,
};
use elementary::error::Refusal;
use elementary::port_id::PortId;
use elementary::settings::{PublisherSettings, SubscriberSettings};

const SMALLEST_PUBLISHER: PublisherSettings = PublisherSettings {
    max_loaned_samples: 1,
    history_size: 0,
    max_subscribers: 1,
    subscriber_max_buffer_size: 1,
    subscriber_max_borrowed_samples: 1,
    max_retries: 0,
    enable_safe_overflow: true,
    backpressure_strategy: BackpressureStrategy::RetryUntilDelivered,
    degradation_action: DegradationAction::Warn,
};

const LARGEST_PUBLISHER: PublisherSettings = PublisherSettings {
    max_loaned_samples: 8,
    history_size: 16,
    max_subscribers: 8,
    subscriber_max_buffer_size: 8,
    subscriber_max_borrowed_samples: 8,
    max_retries: 100,
    ..SMALLEST_PUBLISHER
};

const SMALLEST_SUBSCRIBER: SubscriberSettings = SubscriberSettings {
    max_publishers: 1,
    buffer_size: 1,
    max_borrowed_samples: 1,
    enable_safe_overflow: true,
    degradation_action: DegradationAction::Warn,
    max_expired_connections: 1,
};

const LARGEST_SUBSCRIBER: SubscriberSettings = SubscriberSettings {
    max_publishers: 8,
    buffer_size: 8,
    max_borrowed_samples: 8,
    max_expired_connections: 4,
    ..SMALLEST_SUBSCRIBER
};

#[test]
fn a_publisher_takes_both_ends_of_each_range(rt: HostRuntime) {
    for settings in [SMALLEST_PUBLISHER, LARGEST_PUBLISHER] {
        assert_eq!(rt; settings.check(), Ok(()));
    }
}

#[test]
fn a_publisher_refuses_one_beyond_each_range(rt: HostRuntime) {
    let small = SMALLEST_PUBLISHER;
    let large = LARGEST_PUBLISHER;
    for settings in [
        PublisherSettings {
            max_loaned_samples: 0,
            ..small
        },
        PublisherSettings {
            max_subscribers: 0,
            ..small
        },
        PublisherSettings {
            subscriber_max_buffer_size: 0,
            ..small
        },
        PublisherSettings {
            subscriber_max_borrowed_samples: 0,
            ..small
        },
        PublisherSettings {
            max_loaned_samples: 9,
            ..large
        },
        PublisherSettings {
            history_size: 17,
            ..large
        },
        PublisherSettings {
            max_subscribers: 9,
            ..large
        },
        PublisherSettings {
            subscriber_max_buffer_size: 9,
            ..large
        },
        PublisherSettings {
            subscriber_max_borrowed_samples: 9,
            ..large
        },
        PublisherSettings {
            max_retries: 101,
            ..large
        },
    ] {
        assert_eq!(rt; told(settings.check()), Err(Refusal::new(1)));
    }
}

#[test]
fn a_subscriber_takes_both_ends_of_each_range(rt: HostRuntime) {
    for settings in [SMALLEST_SUBSCRIBER, LARGEST_SUBSCRIBER] {
        assert_eq!(rt; settings.check(), Ok(()));
    }
}

#[test]
fn a_subscriber_refuses_one_beyond_each_range(rt: HostRuntime) {
    let small = SMALLEST_SUBSCRIBER;
    let large = LARGEST_SUBSCRIBER;
    for settings in [
        SubscriberSettings {
            max_publishers: 0,
            ..small
        },
        SubscriberSettings {
            buffer_size: 0,
            ..small
        },
        SubscriberSettings {
            max_borrowed_samples: 0,
            ..small
        },
        SubscriberSettings {
            max_expired_connections: 0,
            ..small
        },
        SubscriberSettings {
            max_publishers: 9,
            ..large
        },
        SubscriberSettings {
            buffer_size: 9,
            ..large
        },
        SubscriberSettings {
            max_borrowed_samples: 9,
            ..large
        },
        SubscriberSettings {
            max_expired_connections: 5,
            ..large
        },
    ] {
        assert_eq!(rt; told(settings.check()), Err(Refusal::new(1)));
    }
}

fn answer<H: BackpressureHandler>(handler: &H) -> BackpressureAction {
    handler.call(BackpressureInfo {
        sender_port_id: PortId { high: 0, low: 1 },
        receiver_port_id: PortId { high: 0, low: 2 },
        retries: 3,
    })
}

#[test]
fn without_a_handler_the_strategy_is_followed(rt: HostRuntime) {
    let none: Option<BackpressureAction> = None;
    assert_eq!(rt;
        answer(&none),
        BackpressureAction::FollowBackpressureStrategy
    );
}

#[test]
fn an_action_answers_itself(rt: HostRuntime) {
    for action in [
        BackpressureAction::FollowBackpressureStrategy,
        BackpressureAction::Retry,
        BackpressureAction::DiscardData,
        BackpressureAction::DiscardDataAndFail,
    ] {
        assert_eq!(rt; answer(&action), action);
        assert_eq!(rt; answer(&Some(action)), action);
    }
}
