//! How many hold a chunk, and when its bucket is freed.
use crate::steps;
use crate::steps::Step::*;
use crate::steps::{At, Step};
use Call::*;
use memory::data_segment;
use memory::segment_state::SegmentState;
use pool::dynamic_memory::DynamicMemory;
use pool::static_memory::StaticMemory;
use std::alloc::Global;
use std::process::Abort;
use std::test::Fail;

// A call on the counts or on their memory, with the answer that it must give.
#[derive(Clone, Copy, PartialEq, Eq, Debug)]
enum Call {
    Memory(Step),
    // One holder more: there were so many, and the bucket has this size.
    Borrows(At, u64, usize),
    // One holder less: there were so many.
    Releases(At, u64),
    // The same, and the bucket is freed with the last.
    ReleasesChunk(At, u64),
    Counts(At, u64),
}

// `nth` names the call where it fails.
fn play<M: data_segment::Memory>(
    rt: &impl Abort,
    m: &mut M,
    counts: &mut SegmentState,
    call: Call,
    nth: usize,
) {
    match call {
        Memory(step) => steps::play(rt, m, step, nth),
        Borrows(at, n, size) => assert_eq!(rt;
            counts.borrow_sample(m, at.offset()),
            (n, size),
            "call {nth}"
        ),
        Releases(at, n) => assert_eq!(rt; counts.release_sample(m, at.offset()), n, "call {nth}"),
        ReleasesChunk(at, n) => assert_eq!(rt;
            counts.release_chunk(m, at.offset()),
            n,
            "call {nth}"
        ),
        Counts(at, n) => assert_eq!(rt; counts.reference_count(m, at.offset()), n, "call {nth}"),
    }
}

// All counts are 0 at first.
fn play_all<M: data_segment::Memory + Drop>(
    rt: &impl Abort,
    mut m: M,
    mut counts: SegmentState,
    calls: &[Call],
) {
    for (i, call) in calls.iter().enumerate() {
        play(rt, &mut m, &mut counts, *call, i);
    }
}

// On a new static memory, of which nothing is counted yet.
fn in_static(
    rt: &impl Abort,
    heap: Global,
    size: usize,
    count: usize,
    calls: &[Call],
) -> Result<(), Fail> {
    let counts = SegmentState::new(heap, 1, count)?;
    play_all(rt, StaticMemory::new(heap, size, count)?, counts, calls);
    Ok(())
}

#[test]
fn borrow_answers_the_count_before_and_the_size(rt: HostRuntime) -> Result<(), Fail> {
    let calls = &[
        Borrows(At(64, 0), 0, 64),
        Borrows(At(64, 0), 1, 64),
        Counts(At(64, 0), 2),
        Counts(At(0, 0), 0),
    ];
    in_static(&rt, rt.alloc(), 64, 2, calls)
}

#[test]
fn a_count_stops_at_10(rt: HostRuntime) -> Result<(), Fail> {
    let calls = &[
        Borrows(At(0, 0), 0, 8),
        Borrows(At(0, 0), 1, 8),
        Borrows(At(0, 0), 2, 8),
        Borrows(At(0, 0), 3, 8),
        Borrows(At(0, 0), 4, 8),
        Borrows(At(0, 0), 5, 8),
        Borrows(At(0, 0), 6, 8),
        Borrows(At(0, 0), 7, 8),
        Borrows(At(0, 0), 8, 8),
        Borrows(At(0, 0), 9, 8),
        Borrows(At(0, 0), 10, 8),
        Borrows(At(0, 0), 10, 8),
        Releases(At(0, 0), 10),
        Counts(At(0, 0), 9),
    ];
    in_static(&rt, rt.alloc(), 8, 1, calls)
}

#[test]
fn a_count_stays_at_0(rt: HostRuntime) -> Result<(), Fail> {
    let calls = &[
        Releases(At(0, 0), 0),
        Borrows(At(0, 0), 0, 64),
        Releases(At(0, 0), 1),
        Releases(At(0, 0), 0),
        Counts(At(0, 0), 0),
    ];
    in_static(&rt, rt.alloc(), 64, 1, calls)
}

#[test]
fn the_last_release_frees_the_bucket(rt: HostRuntime) -> Result<(), Fail> {
    let calls = &[
        Memory(Gives(64, At(0, 0))),
        Borrows(At(0, 0), 0, 64),
        Borrows(At(0, 0), 1, 64),
        ReleasesChunk(At(0, 0), 2),
        Memory(IsTaken(At(0, 0), true)),
        ReleasesChunk(At(0, 0), 1),
        Memory(IsTaken(At(0, 0), false)),
        Counts(At(0, 0), 0),
        // Without a holder a release frees nothing.
        Memory(Gives(64, At(0, 0))),
        ReleasesChunk(At(0, 0), 0),
        Memory(IsTaken(At(0, 0), true)),
    ];
    in_static(&rt, rt.alloc(), 64, 1, calls)
}

#[test]
fn an_offset_that_names_no_chunk_is_not_counted(rt: HostRuntime) -> Result<(), Fail> {
    let calls = &[
        Memory(Gives(64, At(0, 0))),
        Borrows(At(0, 0), 0, 64),
        // No multiple of 64.
        Borrows(At(8, 0), 0, 64),
        Counts(At(8, 0), 0),
        Releases(At(8, 0), 0),
        ReleasesChunk(At(8, 0), 0),
        // Behind the last bucket.
        Borrows(At(128, 0), 0, 64),
        Counts(At(128, 0), 0),
        Releases(At(128, 0), 0),
        ReleasesChunk(At(128, 0), 0),
        // In no segment.
        Borrows(At(64, 1), 0, 0),
        Counts(At(64, 1), 0),
        Releases(At(64, 1), 0),
        ReleasesChunk(At(64, 1), 0),
        Counts(At(0, 0), 1),
        Counts(At(64, 0), 0),
        Memory(IsTaken(At(0, 0), true)),
    ];
    in_static(&rt, rt.alloc(), 64, 2, calls)
}

#[test]
fn a_later_segment_is_counted_from_0(rt: HostRuntime) -> Result<(), Fail> {
    let counts = SegmentState::new(rt.alloc(), 4, 1)?;
    let calls = &[
        Borrows(At(0, 1), 0, 0),
        Memory(Gives(100, At(0, 1))),
        Borrows(At(0, 1), 0, 104),
        Counts(At(0, 0), 0),
        ReleasesChunk(At(0, 1), 1),
        Memory(IsTaken(At(0, 1), false)),
    ];
    play_all(
        &rt,
        DynamicMemory::new(rt.alloc(), 64, 1, 1000)?,
        counts,
        calls,
    );
    Ok(())
}
