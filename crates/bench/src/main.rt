//! A second of the feed: twelve sag maps go through one memory, each held by three consumers who let go in different orders.
#![tactic(auto)]

mod feed;
mod maps;

use anyhow::anyhow;
use elementary::error::Refusal;
use elementary::pointer_offset::PointerOffset;
use feed::Feed;
use maps::{MAP_BYTES, draw, sum};
use memory::data_segment::Segmented;
use pool::static_memory::StaticMemory;
use std::fmt;

const MAPS: usize = 12;

const BUCKETS: usize = 3;

#[derive(Clone, Copy, PartialEq, Eq, Debug)]
enum Consumer {
    Plot,
    Solver,
    Archive,
}

const CONSUMERS: [Consumer; 3] = [Consumer::Plot, Consumer::Solver, Consumer::Archive];

impl fmt::Display for Consumer {
    fn fmt<W: fmt::Write>(&self, f: &mut fmt::Formatter<W>) -> fmt::Result {
        match self {
            Consumer::Plot => write!(f, "plot"),
            Consumer::Solver => write!(f, "solver"),
            Consumer::Archive => write!(f, "archive"),
        }
    }
}

// Who still holds a map, maybe after the next one was sent.
#[derive(Clone, Copy, PartialEq, Eq, Debug)]
struct Late {
    map: usize,
    consumer: Consumer,
    offset: PointerOffset,
}

// The consumers in turn, so that each map is let go in another order.
fn in_turn(turn: usize) -> Consumer {
    CONSUMERS[turn % CONSUMERS.len()]
}

fn refused<T, E: Into<Refusal>>(rt: &impl Print, error: E) -> anyhow::Result<T> {
    let refusal: Refusal = error.into();
    println!(rt; "refused {refusal}")?;
    Err(anyhow!("the feed stops"))
}

// One consumer lets go of a map, and says whether its bucket came free.
fn let_go(rt: &impl Print, feed: &mut Feed<StaticMemory>, late: Late) -> anyhow::Result<()> {
    let Late {
        map,
        consumer,
        offset,
    } = late;
    let before = feed.let_go(offset);
    let value = offset.value;
    if feed.is_taken(offset) {
        println!(rt; "  {consumer} lets go of map {map}, {before} held it")?;
    } else {
        println!(rt;
            "  {consumer} lets go of map {map}, {before} held it: the bucket at {value} is free"
        )?;
    }
    Ok(())
}

// Loans a chunk for a map, fills it, and counts the three consumers; the loan ends.
fn send(
    rt: &impl Print,
    feed: &mut Feed<StaticMemory>,
    map: usize,
    bytes: &mut [u8],
) -> anyhow::Result<PointerOffset> {
    draw(bytes, map);
    let offset = feed.loan(MAP_BYTES).or_else(|e| refused(rt, e))?;
    feed.fill(offset, bytes).or_else(|e| refused(rt, e))?;
    for _ in CONSUMERS {
        let _ = feed.hold(offset);
    }
    let holders = feed.let_go(offset).saturating_sub(1);
    let total = feed.payload(offset).map(sum).or_else(|e| refused(rt, e))?;
    let value = offset.value;
    println!(rt;
        "map {map}: the bucket at {value} is taken, the sum of its bytes is {total}, {holders} hold it"
    )?;
    Ok(offset)
}

fn second(rt: &impl Print, feed: &mut Feed<StaticMemory>, bytes: &mut [u8]) -> anyhow::Result<()> {
    let mut late: Option<Late> = None;
    for map in 0..MAPS {
        let offset = send(rt, feed, map, bytes)?;
        let holds = |turn| Late {
            map,
            consumer: in_turn(map + turn),
            offset,
        };
        if let Some(last) = late {
            let_go(rt, feed, last)?;
        }
        let_go(rt, feed, holds(0))?;
        let_go(rt, feed, holds(1))?;
        // The last holder of a map lets go only when the next map is out.
        late = Some(holds(2));
    }
    if let Some(last) = late {
        let_go(rt, feed, last)?;
    }
    Ok(())
}

fn main(rt: HostRuntime) -> anyhow::Result<()> {
    let heap = rt.alloc();
    let memory = StaticMemory::new(heap, MAP_BYTES, BUCKETS)?;
    let mut feed = Feed::new(heap, memory)?;
    let mut bytes = vec![in heap; 0u8; MAP_BYTES]?;
    println!(rt; "{MAPS} maps of {MAP_BYTES} bytes over {BUCKETS} buckets")?;
    second(&rt, &mut feed, &mut bytes)?;
    let taken = feed.taken();
    let freed = feed.freed();
    println!(rt; "{taken} buckets taken, {freed} freed")?;
    Ok(())
}
