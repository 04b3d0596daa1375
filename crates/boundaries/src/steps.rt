//! Calls on a memory, each with the answer that it must give.
use crate::answers::told;
use elementary::error::Refusal;
use elementary::pointer_offset::PointerOffset;
use memory::data_segment::{Memory, Segmented, View};
use std::process::Abort;

// A distance in a segment.
#[derive(Clone, Copy, PartialEq, Eq, Debug)]
pub struct At(pub u32, pub u8);

impl At {
    pub fn offset(self) -> PointerOffset {
        PointerOffset::from_offset_and_segment_id(self.0 as usize, self.1)
    }
}

#[derive(Clone, Copy, PartialEq, Eq, Debug)]
pub enum Step {
    // A request of so many bytes gets this bucket.
    Gives(usize, At),
    // A request of a size and an alignment gets some bucket.
    Grants(usize, usize),
    // A request of a size and an alignment is refused by this number.
    Refuses(usize, usize, u8),
    Frees(At),
    // Freeing this is refused by 15.
    Keeps(At),
    IsTaken(At, bool),
    // There are so many segments.
    Segments(usize),
    // A segment has this start, bucket size and number of buckets.
    Segment(usize, usize, usize, usize),
    // A view that was opened with so many segments finds the offset here.
    Views(usize, At, Option<usize>),
}

fn ask<M: Memory>(m: &mut M, size: usize, align: usize) -> Result<PointerOffset, Refusal> {
    told(m.allocate(size, align))
}

fn free<M: Memory>(m: &mut M, at: At) -> Result<(), Refusal> {
    told(m.deallocate_bucket(at.offset()))
}

fn find<M: Memory>(m: &M, segments: usize, at: At) -> Option<usize> {
    M::View::open(segments).translate(m, at.offset())
}

// `nth` names the step where it fails.
pub fn play<M: Memory>(rt: &impl Abort, m: &mut M, step: Step, nth: usize) {
    match step {
        Step::Gives(size, at) => assert_eq!(rt; ask(m, size, 1), Ok(at.offset()), "step {nth}"),
        Step::Grants(size, align) => assert!(rt; ask(m, size, align).is_ok(), "step {nth}"),
        Step::Refuses(size, align, number) => assert_eq!(rt;
            ask(m, size, align),
            Err(Refusal::new(number)),
            "step {nth}"
        ),
        Step::Frees(at) => assert_eq!(rt; free(m, at), Ok(()), "step {nth}"),
        Step::Keeps(at) => assert_eq!(rt; free(m, at), Err(Refusal::new(15)), "step {nth}"),
        Step::IsTaken(at, taken) => assert_eq!(rt; m.is_taken(at.offset()), taken, "step {nth}"),
        Step::Segments(n) => assert_eq!(rt; m.number_of_segments(), n, "step {nth}"),
        Step::Segment(k, start, size, buckets) => assert_eq!(rt;
            (m.start(k), m.bucket_size(k), m.number_of_buckets(k)),
            (Some(start), size, buckets),
            "step {nth}"
        ),
        Step::Views(segments, at, place) => assert_eq!(rt;
            find(m, segments, at),
            place,
            "step {nth}"
        ),
    }
}

// On a new memory.
pub fn play_all<M: Memory + Drop>(rt: &impl Abort, mut m: M, steps: &[Step]) {
    for (i, step) in steps.iter().enumerate() {
        play(rt, &mut m, *step, i);
    }
}
