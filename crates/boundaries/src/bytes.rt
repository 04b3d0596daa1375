//! What a fill writes, what a reading hands out, and what both refuse.
use crate::answers::told;
use crate::steps::At;
use elementary::error::Refusal;
use memory::chunk::{fill, payload};
use memory::data_segment::Memory;
use pool::static_memory::StaticMemory;
use std::alloc::Global;
use std::process::Abort;
use std::test::Fail;

// Bytes of 0 are as they were made, and those of 7 were filled in.
fn check_written(rt: &impl Abort, bytes: &[u8], start: usize, count: usize) {
    for (i, b) in bytes.iter().enumerate() {
        let inside = i >= start && i - start < count;
        assert_eq!(rt; *b, if inside { 7 } else { 0 });
    }
}

// Fills a chunk of three buckets of 64 bytes, and checks all bytes after.
fn check_fill(
    rt: &impl Abort,
    heap: Global,
    bytes: &mut [u8],
    at: At,
    source: &[u8],
    expected: Result<(), Refusal>,
) -> Result<(), Fail> {
    let m = StaticMemory::new(heap, 64, 3)?;
    assert_eq!(rt; told(fill(&m, bytes, at.offset(), source)), expected);
    let count = if expected.is_ok() { source.len() } else { 0 };
    check_written(rt, bytes, at.0 as usize, count);
    Ok(())
}

#[test]
fn fill_of_64_bytes_into_64_writes_these_alone(rt: HostRuntime) -> Result<(), Fail> {
    check_fill(&rt, rt.alloc(), &mut [0; 192], At(64, 0), &[7; 64], Ok(()))
}

#[test]
fn fill_of_3_bytes_into_64_writes_these_alone(rt: HostRuntime) -> Result<(), Fail> {
    check_fill(&rt, rt.alloc(), &mut [0; 192], At(64, 0), &[7; 3], Ok(()))
}

#[test]
fn fill_of_65_bytes_into_64_is_refused(rt: HostRuntime) -> Result<(), Fail> {
    check_fill(
        &rt,
        rt.alloc(),
        &mut [0; 192],
        At(64, 0),
        &[7; 65],
        Err(Refusal::new(7)),
    )
}

#[test]
fn fill_with_a_byte_short_of_the_capacity_is_refused(rt: HostRuntime) -> Result<(), Fail> {
    check_fill(
        &rt,
        rt.alloc(),
        &mut [0; 191],
        At(64, 0),
        &[7; 64],
        Err(Refusal::new(7)),
    )?;
    check_fill(
        &rt,
        rt.alloc(),
        &mut [0; 191],
        At(64, 0),
        &[],
        Err(Refusal::new(7)),
    )
}

#[test]
fn fill_where_there_is_no_chunk_is_refused(rt: HostRuntime) -> Result<(), Fail> {
    for at in [At(72, 0), At(192, 0), At(64, 1)] {
        check_fill(
            &rt,
            rt.alloc(),
            &mut [0; 192],
            at,
            &[7],
            Err(Refusal::new(7)),
        )?;
    }
    Ok(())
}

// Enough for three buckets of 8 bytes.
const BYTES: [u8; 24] = [
    0, 1, 2, 3, 4, 5, 6, 7, 8, 9, 10, 11, 12, 13, 14, 15, 16, 17, 18, 19, 20, 21, 22, 23,
];

// Two of them are taken.
fn two_taken(heap: Global) -> Result<StaticMemory, Fail> {
    let mut m = StaticMemory::new(heap, 8, 3)?;
    told(m.allocate(1, 1))?;
    told(m.allocate(1, 1))?;
    Ok(m)
}

fn check_refused(
    rt: &impl Abort,
    heap: Global,
    bytes: &[u8],
    at: At,
    number: u8,
) -> Result<(), Fail> {
    let m = two_taken(heap)?;
    let answer = told(payload(&m, bytes, at.offset()));
    assert_eq!(rt; answer.err(), Some(Refusal::new(number)));
    Ok(())
}

#[test]
fn payload_is_the_whole_bucket_of_a_taken_chunk(rt: HostRuntime) -> Result<(), Fail> {
    let m = two_taken(rt.alloc())?;
    let part = told(payload(&m, &BYTES, At(8, 0).offset()))?;
    assert_eq!(rt; part, [8, 9, 10, 11, 12, 13, 14, 15].as_slice());
    Ok(())
}

#[test]
fn payload_of_what_is_not_taken_is_refused(rt: HostRuntime) -> Result<(), Fail> {
    // Free, no multiple of 8, and in no segment.
    for at in [At(16, 0), At(4, 0), At(8, 1)] {
        check_refused(&rt, rt.alloc(), &BYTES, at, 15)?;
    }
    Ok(())
}

#[test]
fn payload_with_a_byte_short_of_the_capacity_is_refused(rt: HostRuntime) -> Result<(), Fail> {
    check_refused(&rt, rt.alloc(), &BYTES[0..23], At(8, 0), 7)?;
    check_refused(&rt, rt.alloc(), &BYTES[0..23], At(16, 0), 15)
}
