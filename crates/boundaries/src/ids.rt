//! Offsets are packed and taken apart.
use elementary::pointer_offset::PointerOffset;

// The largest distance that an offset has room for: 2^56 - 1.
const FARTHEST: usize = 72_057_594_037_927_935;

#[test]
fn bucket_1_of_64_bytes_has_the_value_16384(rt: HostRuntime) {
    let offset = PointerOffset::from_offset_and_segment_id(64, 0);
    assert_eq!(rt; offset.value, 16_384);
}

#[test]
fn parts_of_16384_are_64_and_0(rt: HostRuntime) {
    let offset = PointerOffset { value: 16_384 };
    assert_eq!(rt; offset.into_parts(), (64, 0));
}

#[test]
fn the_largest_offset_goes_there_and_back(rt: HostRuntime) {
    let offset = PointerOffset { value: u64::MAX };
    assert_eq!(rt; offset.into_parts(), (FARTHEST, 255));
    let again = PointerOffset::from_offset_and_segment_id(FARTHEST, 255);
    assert!(rt; again.is(offset));
}
