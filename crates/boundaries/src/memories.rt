//! Which bucket a memory gives, what it refuses, and where a view finds it.
use crate::steps::Step::*;
use crate::steps::{At, play_all};
use elementary::error::SetUpError;
use pool::dynamic_memory::DynamicMemory;
use pool::static_memory::StaticMemory;
use std::test::Fail;

#[test]
fn static_memory_takes_sizes_to_65536_and_counts_to_256(rt: HostRuntime) -> Result<(), Fail> {
    for (size, count) in [(8, 1), (8, 256), (65_536, 1), (65_536, 256)] {
        play_all(
            &rt,
            StaticMemory::new(rt.alloc(), size, count)?,
            &[Segment(0, 0, size, count), Segments(1)],
        );
    }
    Ok(())
}

#[test]
fn static_memory_refuses_other_sizes_and_counts(rt: HostRuntime) {
    for (size, count) in [(0, 1), (7, 1), (12, 1), (65_544, 1), (8, 0), (8, 257)] {
        assert_eq!(rt;
            StaticMemory::new(rt.alloc(), size, count).err(),
            Some(SetUpError::OutOfRange)
        );
    }
}

#[test]
fn the_last_freed_is_given_then_the_lowest_never_taken(rt: HostRuntime) -> Result<(), Fail> {
    let steps = &[
        Gives(64, At(0, 0)),
        Gives(1, At(64, 0)),
        Frees(At(0, 0)),
        Frees(At(64, 0)),
        Gives(64, At(64, 0)),
        Gives(64, At(0, 0)),
        Gives(64, At(128, 0)),
    ];
    play_all(&rt, StaticMemory::new(rt.alloc(), 64, 3)?, steps);
    Ok(())
}

#[test]
fn size_is_tested_before_alignment_and_that_before_room(rt: HostRuntime) -> Result<(), Fail> {
    let steps = &[
        Refuses(65, 1, 3),
        Refuses(0, 1, 3),
        Refuses(0, 3, 3),
        Refuses(64, 3, 4),
        Gives(64, At(0, 0)),
        Refuses(65, 3, 3),
        Refuses(64, 3, 4),
        Refuses(64, 1, 5),
    ];
    play_all(&rt, StaticMemory::new(rt.alloc(), 64, 1)?, steps);
    Ok(())
}

#[test]
fn alignments_1_2_4_and_8_are_granted(rt: HostRuntime) -> Result<(), Fail> {
    let steps = &[
        Grants(8, 1),
        Grants(8, 2),
        Grants(8, 4),
        Grants(8, 8),
        Refuses(8, 0, 4),
        Refuses(8, 16, 4),
    ];
    play_all(&rt, StaticMemory::new(rt.alloc(), 8, 4)?, steps);
    Ok(())
}

#[test]
fn freeing_what_is_not_taken_changes_nothing(rt: HostRuntime) -> Result<(), Fail> {
    let steps = &[
        Gives(64, At(0, 0)),
        Gives(64, At(64, 0)),
        Frees(At(0, 0)),
        // Freed, never taken, no multiple of 64, and in no segment.
        Keeps(At(0, 0)),
        Keeps(At(128, 0)),
        Keeps(At(72, 0)),
        Keeps(At(64, 1)),
        IsTaken(At(0, 0), false),
        IsTaken(At(64, 0), true),
        IsTaken(At(128, 0), false),
        Gives(64, At(0, 0)),
        Gives(64, At(128, 0)),
        Refuses(64, 1, 5),
    ];
    play_all(&rt, StaticMemory::new(rt.alloc(), 64, 3)?, steps);
    Ok(())
}

#[test]
fn a_larger_size_gets_a_segment_of_its_own(rt: HostRuntime) -> Result<(), Fail> {
    let steps = &[
        Gives(64, At(0, 0)),
        Gives(100, At(0, 1)),
        Segment(1, 128, 104, 2),
        Gives(8, At(64, 0)),
        Gives(8, At(104, 1)),
        Gives(8, At(0, 2)),
        Segment(2, 336, 8, 2),
        Refuses(64, 1, 5),
        Segments(3),
    ];
    play_all(&rt, DynamicMemory::new(rt.alloc(), 64, 2, 400)?, steps);
    Ok(())
}

#[test]
fn size_9_is_rounded_up_to_16(rt: HostRuntime) -> Result<(), Fail> {
    let steps = &[
        Gives(9, At(0, 1)),
        Segment(1, 16, 16, 2),
        Gives(16, At(16, 1)),
    ];
    play_all(&rt, DynamicMemory::new(rt.alloc(), 8, 2, 1000)?, steps);
    Ok(())
}

#[test]
fn a_fourth_segment_is_made_and_no_fifth(rt: HostRuntime) -> Result<(), Fail> {
    let steps = &[
        Gives(8, At(0, 0)),
        Gives(8, At(0, 1)),
        Gives(8, At(0, 2)),
        Gives(8, At(0, 3)),
        Refuses(8, 1, 5),
        Segments(4),
    ];
    play_all(&rt, DynamicMemory::new(rt.alloc(), 8, 1, 1000)?, steps);
    Ok(())
}

#[test]
fn capacity_is_used_up_and_not_passed(rt: HostRuntime) -> Result<(), Fail> {
    play_all(
        &rt,
        DynamicMemory::new(rt.alloc(), 8, 1, 24)?,
        &[Gives(9, At(0, 1))],
    );
    play_all(
        &rt,
        DynamicMemory::new(rt.alloc(), 8, 1, 23)?,
        &[Refuses(9, 1, 5), Segments(1), Gives(8, At(0, 0))],
    );
    Ok(())
}

#[test]
fn first_segment_ends_within_the_capacity(rt: HostRuntime) -> Result<(), Fail> {
    play_all(
        &rt,
        DynamicMemory::new(rt.alloc(), 64, 2, 128)?,
        &[Segment(0, 0, 64, 2)],
    );
    assert_eq!(rt;
        DynamicMemory::new(rt.alloc(), 64, 2, 127).err(),
        Some(SetUpError::OutOfRange)
    );
    Ok(())
}

#[test]
fn size_65536_is_granted_and_65537_refused(rt: HostRuntime) -> Result<(), Fail> {
    let steps = &[
        Refuses(65_537, 1, 3),
        Refuses(0, 3, 3),
        Refuses(65_536, 3, 4),
        Segments(1),
        Gives(65_536, At(0, 1)),
        Segment(1, 8, 65_536, 1),
    ];
    play_all(&rt, DynamicMemory::new(rt.alloc(), 8, 1, 1_000_000)?, steps);
    Ok(())
}

#[test]
fn the_first_fitting_segment_serves(rt: HostRuntime) -> Result<(), Fail> {
    let steps = &[
        Gives(64, At(0, 1)),
        Gives(64, At(64, 1)),
        Gives(32, At(0, 2)),
        Frees(At(0, 1)),
        // Segment 2 would fit better.
        Gives(32, At(0, 1)),
        Gives(32, At(32, 2)),
        Gives(8, At(0, 0)),
    ];
    play_all(&rt, DynamicMemory::new(rt.alloc(), 8, 2, 1000)?, steps);
    Ok(())
}

#[test]
fn a_freed_bucket_is_taken_before_a_segment_is_made(rt: HostRuntime) -> Result<(), Fail> {
    let steps = &[
        Gives(64, At(0, 0)),
        Frees(At(0, 0)),
        Keeps(At(0, 0)),
        Keeps(At(0, 1)),
        Gives(64, At(0, 0)),
        Segments(1),
        Gives(64, At(0, 1)),
        Segments(2),
    ];
    play_all(&rt, DynamicMemory::new(rt.alloc(), 64, 1, 1000)?, steps);
    Ok(())
}

#[test]
fn view_of_a_static_memory_finds_segment_0_alone(rt: HostRuntime) -> Result<(), Fail> {
    let steps = &[
        Views(1, At(64, 0), Some(64)),
        Views(1, At(64, 1), None),
        Views(4, At(64, 1), None),
        Views(0, At(64, 0), None),
    ];
    play_all(&rt, StaticMemory::new(rt.alloc(), 64, 2)?, steps);
    Ok(())
}

#[test]
fn view_finds_a_segment_once_it_is_there(rt: HostRuntime) -> Result<(), Fail> {
    let steps = &[
        Views(4, At(104, 1), None),
        Gives(100, At(0, 1)),
        Views(4, At(104, 1), Some(232)),
        Views(4, At(64, 0), Some(64)),
        Views(4, At(0, 2), None),
        Views(2, At(104, 1), Some(232)),
        Views(1, At(104, 1), None),
        Views(1, At(64, 0), Some(64)),
    ];
    play_all(&rt, DynamicMemory::new(rt.alloc(), 64, 2, 400)?, steps);
    Ok(())
}
