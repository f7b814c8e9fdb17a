//! The policy table row by row, one fetch at a time for each identity, and exchanges at a concrete type.
use send_rules::{Back, Dedup, InFlight, Plan, Policy, ReadingKind, Sending, decide};
use std::alloc::Global;
use std::test::Fail;
use stream_core::{ExchangeCall, Flow, Line, exchange_all};
use text_types::Memory;

#[test]
fn the_policy_table(rt: HostRuntime) -> Result<(), Fail> {
    let tell = Plan {
        tell: true,
        send: false,
    };
    let send = Plan {
        tell: false,
        send: true,
    };
    let both = Plan {
        tell: true,
        send: true,
    };
    let rows = [
        (Policy::CacheFirst, [tell, both, send]),
        (Policy::CacheOnly, [tell, tell, tell]),
        (Policy::NetworkOnly, [send, send, send]),
        (Policy::CacheAndNetwork, [both, both, send]),
    ];
    let readings = [ReadingKind::Hit, ReadingKind::Partial, ReadingKind::Miss];
    for (policy, plans) in rows {
        for (reading, plan) in readings.iter().zip(plans.iter()) {
            assert_eq!(rt;
                decide(policy, *reading),
                *plan,
                "{policy:?} on {reading:?}"
            );
        }
    }
    Ok(())
}

/// Whether the fetch began: it does where the identity has none.
fn begin_where_free(in_flight: &mut InFlight, key: u32, fetch: u64) -> Result<bool, Memory> {
    if in_flight.fetch_of(key).is_some() {
        return Ok(false);
    }
    in_flight.begin(key, fetch)?;
    Ok(true)
}

#[test]
fn one_fetch_for_each_identity(rt: HostRuntime) -> Result<(), Fail> {
    let mut in_flight = InFlight::new(rt.alloc());
    for (key, fetch, begins) in [(7, 1, true), (9, 2, true), (7, 3, false)] {
        assert_eq!(rt;
            begin_where_free(&mut in_flight, key, fetch)?,
            begins,
            "{fetch}"
        );
    }
    in_flight.forget(7);
    for (key, fetch) in [(7, None), (8, None), (9, Some(2))] {
        assert_eq!(rt; in_flight.fetch_of(key), fetch, "{key}");
    }
    assert!(rt; begin_where_free(&mut in_flight, 7, 4)?);
    assert_eq!(rt; in_flight.fetch_of(7), Some(4));
    Ok(())
}

fn query(key: u32, fetch: u64) -> ExchangeCall<Sending, Back> {
    ExchangeCall::Operation(Sending::Query { key, fetch })
}

fn back(fetch: u64) -> ExchangeCall<Sending, Back> {
    ExchangeCall::Result(Back { fetch })
}

/// Two fetches for the key 7, of which the second waits for the end of the first, and a mutation.
fn calls(alloc: Global) -> Result<Vec<ExchangeCall<Sending, Back>>, Memory> {
    let teardown = ExchangeCall::Operation(Sending::Teardown { fetch: 4 });
    let mutation = ExchangeCall::Operation(Sending::Mutation { fetch: 3 });
    Ok(Vec::from_array(
        alloc,
        [
            query(7, 1),
            query(7, 2),
            mutation,
            back(2),
            back(1),
            back(1),
            query(7, 4),
            teardown,
            back(4),
            query(7, 5),
        ],
    )?)
}

fn wanted(alloc: Global) -> Result<Vec<Flow<Sending, Back, ()>>, Memory> {
    Ok(Vec::from_array(
        alloc,
        [
            Flow::Down(Sending::Query { key: 7, fetch: 1 }),
            Flow::Down(Sending::Mutation { fetch: 3 }),
            Flow::Up(Back { fetch: 1 }),
            Flow::Down(Sending::Query { key: 7, fetch: 4 }),
            Flow::Down(Sending::Teardown { fetch: 4 }),
            Flow::Down(Sending::Query { key: 7, fetch: 5 }),
        ],
    )?)
}

#[test]
fn one_fetch_goes_down_for_each_key(rt: HostRuntime) -> Result<(), Fail> {
    let alloc = rt.alloc();
    let mut dedup = Dedup::new(alloc);
    let mut given = Vec::new(alloc);
    exchange_all(&mut dedup, calls(alloc)?, &mut given)?;
    assert_eq!(rt; given.as_slice(), wanted(alloc)?.as_slice());
    assert_eq!(rt; dedup.fetch_of(7), Some(5));
    assert_eq!(rt; dedup.fetch_of(8), None);
    Ok(())
}

#[test]
fn a_line_gives_what_its_parts_give(rt: HostRuntime) -> Result<(), Fail> {
    let alloc = rt.alloc();
    let mut line = Line::new(Dedup::new(alloc), Dedup::new(alloc));
    let mut given = Vec::new(alloc);
    exchange_all(&mut line, calls(alloc)?, &mut given)?;
    assert_eq!(rt; given.as_slice(), wanted(alloc)?.as_slice());
    Ok(())
}
