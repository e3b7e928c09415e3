use nwq_value::NoMemory;
use plan_text::{PlanFault, read_plan};
use play_generator::{area, make};
use std::alloc::Global;
use std::test::Fail;

/// How many events a plan has, where it is one.
fn events(alloc: Global, text: &[u8]) -> Result<Option<usize>, NoMemory> {
    match read_plan(alloc, text) {
        Ok(plan) => Ok(Some(plan.events.len())),
        Err(PlanFault::Line(_)) => Ok(None),
        Err(PlanFault::NoMemory) => Err(NoMemory),
    }
}

#[test]
fn creatures_and_events(rt: HostRuntime) -> Result<(), Fail> {
    for (n, creatures, all_events) in [(0, 1, 1), (9_099, 100, 1_000), (59_999, 1_000, 60_000)] {
        let made = make(rt.alloc(), n)?;
        assert_eq!(rt; made.creatures(), creatures);
        assert_eq!(rt; events(rt.alloc(), made.plan())?, Some(all_events));
        assert!(rt; made.source().ends_with(b"Tell(n));\n}\n".as_slice()));
    }
    Ok(())
}

#[test]
fn an_area(rt: HostRuntime) {
    let made = area(rt.alloc(), 3).ok().expect(&rt, "memory");
    let lists = made.top.fields();
    assert_eq!(rt; lists.len(), 1);
    let creatures = lists[0].leaf.list().expect(&rt, "a list");
    assert_eq!(rt; creatures.len(), 3);
    assert_eq!(rt; creatures[2].kind(), 4);
}
