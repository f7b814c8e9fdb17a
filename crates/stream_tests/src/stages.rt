//! Each stage at a concrete type, pushed Start, the items 1 to 4 and End.
ghost use Rattle.std.specs.Prelude.{◌≡◌};
ghost use Rattle.stream_core.specs.declared.phase.Phase.TheVariants.{Waiting};

use std::alloc::Global;
use std::fmt::Debug;
use std::process::Abort;
use std::test::Fail;
use stream_core::{
    Call, Chain, Filter, Map, MergeMap, Share, Signal, Stage, TakeUntil, Talk, Tap, play,
};
use text_types::Memory;

/// Start, these items and End.
fn signals<T: Copy>(alloc: Global, items: &[T]) -> Result<Vec<Signal<T>>, Memory> {
    let mut signals = Vec::new(alloc);
    signals.push(Signal::Start)?;
    for item in items {
        signals.push(Signal::Push(*item))?;
    }
    signals.push(Signal::End)?;
    Ok(signals)
}

/// The stage gives Start, these items and End, and is over then.
fn assert_gives<S: Stage<In = u64>>(
    rt: &impl Abort,
    alloc: Global,
    stage: &mut S,
    items: &[S::Out],
) -> Result<(), Memory>
where
    S::Out: Copy + Debug + PartialEq,
    requires ready { S.ready stage.old }
    requires waits { S.phase stage.old ≡ Waiting }
{
    let mut calls = Vec::new(alloc);
    for signal in signals(alloc, &[1, 2, 3, 4])? {
        calls.push(Call::Push(signal))?;
    }
    let mut given = Vec::new(alloc);
    play(stage, calls, &mut given)?;
    assert_eq!(rt; given, signals(alloc, items)?);
    assert_eq!(rt; stage.talk(Talk::Pull), Talk::Close);
    Ok(())
}

/// The end is given at the push of 3, and nothing at the pushes behind it.
fn assert_ends_at_the_hit(rt: &impl Abort, alloc: Global) -> Result<(), Memory> {
    let mut stage = TakeUntil::new(|x: &u64| *x > 2);
    let mut given = Vec::new(alloc);
    for (at, signal) in signals(alloc, &[1, 2, 3, 4])?.into_iter().enumerate() {
        stage.push(signal, &mut given)?;
        assert_eq!(rt; given.len(), (at + 1).min(4));
    }
    assert_eq!(rt; given, signals(alloc, &[1, 2])?);
    Ok(())
}

/// Nothing is given behind a Close.
fn assert_silent_behind_close(rt: &impl Abort, alloc: Global) -> Result<(), Memory> {
    let mut stage = Map::new(|x: u64| x.wrapping_add(10));
    let mut given = Vec::new(alloc);
    stage.push(Signal::Start, &mut given)?;
    stage.push(Signal::Push(1), &mut given)?;
    assert_eq!(rt; stage.talk(Talk::Pull), Talk::Pull);
    assert_eq!(rt; stage.talk(Talk::Close), Talk::Close);
    for item in 2..5 {
        stage.push(Signal::Push(item), &mut given)?;
    }
    stage.push(Signal::End, &mut given)?;
    assert_eq!(rt;
        given.as_slice(),
        [Signal::Start, Signal::Push(11u64)].as_slice()
    );
    Ok(())
}

/// The item, and what is 10 above it.
fn with_ten_above(alloc: Global, x: u64) -> Result<Vec<u64>, Memory> {
    Ok(Vec::from_array(alloc, [x, x.wrapping_add(10)])?)
}

#[test]
fn six_stages(rt: HostRuntime) -> Result<(), Fail> {
    let alloc = rt.alloc();
    let mut map = Map::new(|x: u64| x.wrapping_add(10));
    assert_gives(&rt, alloc, &mut map, &[11u64, 12, 13, 14])?;
    let mut tap = Tap::new(|_: &u64| {});
    assert_gives(&rt, alloc, &mut tap, &[1u64, 2, 3, 4])?;
    let even = Filter::new(|x: &u64| *x % 2 == 0);
    let pairs = MergeMap::new(move |x: u64| with_ten_above(alloc, x));
    let mut chain = Chain::new(alloc, even, pairs);
    assert_gives(&rt, alloc, &mut chain, &[2u64, 12, 4, 14])?;
    let mut until = TakeUntil::new(|x: &u64| *x > 2);
    assert_gives(&rt, alloc, &mut until, &[1u64, 2])?;
    let mut share = Share::new(2);
    let numbered = [
        (0, 1u64),
        (1, 1),
        (0, 2),
        (1, 2),
        (0, 3),
        (1, 3),
        (0, 4),
        (1, 4),
    ];
    assert_gives(&rt, alloc, &mut share, &numbered)?;
    assert_ends_at_the_hit(&rt, alloc)?;
    assert_silent_behind_close(&rt, alloc)?;
    Ok(())
}
