//! The queue on examples, with numbers for entries.
use Step::*;
use container::queue::Queue;
use std::alloc::Global;
use std::process::Abort;
use std::test::Fail;

// A call, with the answer that it must give.
#[derive(Clone, Copy, PartialEq, Eq, Debug)]
enum Step {
    Pushes(u32),
    HandsBack(u32),
    // A push in any case, and the entry that makes way.
    Overflows(u32, u32),
    Pops(u32),
    Removes(u32, bool),
    Contains(u32, bool),
    // The entry at a place, counted from the oldest.
    Gets(usize, Option<u32>),
    // Restarts with a limit, and has this one then.
    Restarts(usize, usize),
    // Whether it is empty, and whether it is full.
    Is(bool, bool),
}

// `nth` names the step where it fails.
fn play(rt: &impl Abort, q: &mut Queue<u32, 3>, step: Step, nth: usize) {
    match step {
        Pushes(x) => assert_eq!(rt; q.push(x), Ok(()), "step {nth}"),
        HandsBack(x) => assert_eq!(rt; q.push(x), Err(x), "step {nth}"),
        Overflows(x, out) => assert_eq!(rt; q.push_with_overflow(x), Some(out), "step {nth}"),
        Pops(x) => assert_eq!(rt; q.pop(), Some(x), "step {nth}"),
        Removes(x, found) => assert_eq!(rt; q.remove(&x), found, "step {nth}"),
        Contains(x, found) => assert_eq!(rt; q.contains(&x), found, "step {nth}"),
        Gets(i, x) => assert_eq!(rt; q.get(i).copied(), x, "step {nth}"),
        Restarts(limit, after) => {
            q.restart(limit);
            assert_eq!(rt; q.limit(), after, "step {nth}");
        }
        Is(empty, full) => assert_eq!(rt; (q.is_empty(), q.is_full()), (empty, full), "step {nth}"),
    }
}

fn play_all(rt: &impl Abort, q: &mut Queue<u32, 3>, steps: &[Step]) {
    for (i, step) in steps.iter().enumerate() {
        play(rt, q, *step, i);
    }
}

// A queue with these entries, oldest first.
fn check_entries(rt: &impl Abort, q: &mut Queue<u32, 3>, expected: &[u32]) {
    assert_eq!(rt; q.len(), expected.len());
    for (i, x) in expected.iter().enumerate() {
        play(rt, q, Pops(*x), i);
    }
    play(rt, q, Is(true, false), expected.len());
}

// A full queue: 1, 2 and 3.
fn full(rt: &impl Abort, heap: Global) -> Result<Queue<u32, 3>, Fail> {
    let mut q = Queue::new(heap)?;
    play_all(
        rt,
        &mut q,
        &[Pushes(1), Pushes(2), Pushes(3), Is(false, true)],
    );
    Ok(q)
}

fn in_full(rt: &impl Abort, heap: Global, steps: &[Step], left: &[u32]) -> Result<(), Fail> {
    let mut q = full(rt, heap)?;
    play_all(rt, &mut q, steps);
    check_entries(rt, &mut q, left);
    Ok(())
}

#[test]
fn a_full_queue_hands_back(rt: HostRuntime) -> Result<(), Fail> {
    in_full(&rt, rt.alloc(), &[HandsBack(4)], &[1, 2, 3])
}

#[test]
fn overflow_evicts_the_oldest(rt: HostRuntime) -> Result<(), Fail> {
    in_full(&rt, rt.alloc(), &[Overflows(4, 1)], &[2, 3, 4])
}

#[test]
fn first_in_first_out(rt: HostRuntime) -> Result<(), Fail> {
    in_full(
        &rt,
        rt.alloc(),
        &[
            Gets(0, Some(1)),
            Gets(2, Some(3)),
            Gets(3, None),
            Pops(1),
            Pushes(4),
            Gets(0, Some(2)),
        ],
        &[2, 3, 4],
    )
}

#[test]
fn removes_from_the_middle(rt: HostRuntime) -> Result<(), Fail> {
    in_full(
        &rt,
        rt.alloc(),
        &[Removes(2, true), Contains(2, false), Removes(2, false)],
        &[1, 3],
    )
}

#[test]
fn restarts_with_another_limit(rt: HostRuntime) -> Result<(), Fail> {
    in_full(
        &rt,
        rt.alloc(),
        &[
            Restarts(9, 3),
            Is(true, false),
            Restarts(2, 2),
            Pushes(5),
            Pushes(6),
            HandsBack(7),
        ],
        &[5, 6],
    )
}

#[test]
fn limit_0_keeps_nothing(rt: HostRuntime) -> Result<(), Fail> {
    let mut q: Queue<u32, 3> = Queue::with_limit(rt.alloc(), 0)?;
    play_all(
        &rt,
        &mut q,
        &[Is(true, true), HandsBack(1), Overflows(2, 2), Gets(0, None)],
    );
    Ok(())
}

#[test]
fn copies_are_appended_as_far_as_there_is_room(rt: HostRuntime) -> Result<(), Fail> {
    let mut q: Queue<u32, 3> = Queue::with_limit(rt.alloc(), 2)?;
    full(&rt, rt.alloc())?.append_copies_to(&mut q);
    check_entries(&rt, &mut q, &[1, 2]);
    Ok(())
}
