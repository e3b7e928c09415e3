use action_queue::*;
use nwq_value::{NoMemory, Text};
use std::alloc::Global;
use std::test::Fail;

/// The kind of the action, and its number where it has one.
fn told(item: Option<&Item<u32>>) -> (u8, i64) {
    match item {
        None => (0, 0),
        Some(Item::Do(code)) => (1, *code as i64),
        Some(Item::Wait(ms)) => (2, *ms as i64),
        Some(Item::Speak(_)) => (3, 0),
    }
}

/// Appends a wait, code and a speech.
fn append_three(alloc: Global, queue: &mut Queue<u32>) -> Result<(), NoMemory> {
    let hello = Text::of(alloc, b"hello")?;
    queue.append(Item::Wait(-5))?;
    queue.append(Item::Do(7u32))?;
    queue.append(Item::Speak(hello))
}

fn are_three(queue: &Queue<u32>) -> bool {
    told(queue.at(0)) == (2, -5) && told(queue.at(2)) == (3, 0) && queue.at(3).is_none()
}

/// What the first action is, which is taken.
fn taken(queue: &mut Queue<u32>) -> (u8, i64) {
    let head = queue.take_head();
    let is = told(head.as_ref());
    drop(head);
    is
}

#[test]
fn actions_come_in_the_order_of_their_calls(rt: HostRuntime) -> Result<(), Fail> {
    let mut queue = Queue::new(rt.alloc());
    append_three(rt.alloc(), &mut queue)?;
    queue.set_busy(true);
    assert!(rt; are_three(&queue));
    assert!(rt; taken(&mut queue) == (2, -5) && taken(&mut queue) == (1, 7));
    queue.clear();
    assert!(rt; taken(&mut queue) == (0, 0) && queue.is_busy());
    Ok(())
}
