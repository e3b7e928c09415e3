use nwq_value::NoMemory;
use stamped_slots::Stamped;
use std::alloc::Global;
use std::test::*;

/// Items under 3, 5 and 9, of which the second was put first.
fn three(alloc: Global) -> Result<Stamped<u32>, NoMemory> {
    let mut list = Stamped::new(alloc);
    list.insert(5, 50)?;
    list.insert(3, 30)?;
    list.insert(9, 90)?;
    Ok(list)
}

#[test]
fn items_stand_under_their_stamps(rt: HostRuntime) -> Result<(), Fail> {
    let mut list = three(rt.alloc())?;
    assert_eq!(rt; list.take(5), Some(50));
    assert!(rt; list.get(5).is_none());
    assert!(rt; matches!(list.first(), Some((3, 30))));
    assert_eq!(rt; list.take(3), Some(30));
    assert!(rt; matches!(list.get(9), Some(90)));
    assert_eq!(rt; list.len(), 1);
    Ok(())
}
