//! The queue's stage over the keeper in memory.
use offline_queue::{Kept, MemoryKeeper, Offer, OfflineStage};
use std::alloc::Global;
use std::test::Fail;
use stream_core::{Exchange, Flow};
use text_types::{Memory, Text};

fn mutation(alloc: Global, fetch: u64) -> Result<Offer, Memory> {
    let document = Text::from_str(alloc, r#"mutation{setDone(id:"1" done:true){id done}}"#)?;
    let variables = Text::from_str(alloc, "{}")?;
    let row = Some((document, Text::new(alloc), variables));
    Ok(Offer::Mutation { fetch, row })
}

#[test]
fn an_unreachable_mutation_is_queued(rt: HostRuntime) -> Result<(), Fail> {
    let alloc = rt.alloc();
    let mut stage = OfflineStage::new(alloc, MemoryKeeper::new(alloc, 77));
    let mut given: Vec<Flow<Offer, Kept, ()>> = Vec::new(alloc);
    stage.operation(mutation(alloc, 1)?, &mut given)?;
    stage.operation(Offer::Teardown { fetch: 2 }, &mut given)?;
    assert_eq!(rt; given.len(), 1);
    let unreachable = true;
    stage.result(
        Kept::Answer {
            fetch: 1,
            unreachable,
        },
        &mut given,
    )?;
    assert!(rt;
        matches!(
            given.last(),
            Some(Flow::Up(Kept::Queued { fetch: 1, row: 1 }))
        )
    );
    assert_eq!(rt; stage.rows()?.len(), 1);
    let _keeper = stage.into_keeper();
    Ok(())
}
