ghost use Rattle.std.specs.Prelude.{◌≤◌, ℕ, IfOk};
ghost use Rattle.delay_agenda.specs.Waiting.{turn_count};

use delay_agenda::*;
use nwq_value::{NoMemory, Text};
use std::alloc::Global;
use std::test::Fail;

/// Due time and number of an entry, and its object.
fn told(entry: Option<Entry<u32>>) -> Option<(u64, u64, u32)> {
    match entry {
        None => None,
        Some(entry) => {
            let told = (entry.due, entry.number, object_of(&entry.kind));
            drop(entry);
            Some(told)
        }
    }
}

fn object_of(kind: &Kind<u32>) -> u32 {
    match kind {
        Kind::Event { object, .. } => *object,
        Kind::Stored { object, .. } => *object,
        Kind::Turn { object } => *object,
        Kind::Unapply { object } => *object,
    }
}

/// Whether the four entries of the test below are taken in their order, and none behind them.
fn are_taken(agenda: &mut Agenda<u32>) -> bool {
    agenda.next_due() == Some(0)
        && told(agenda.take()) == Some((0, 2, 3))
        && told(agenda.take()) == Some((5, 0, 9))
        && told(agenda.take()) == Some((5, 1, 1))
        && told(agenda.take()) == Some((5, 3, 2))
        && told(agenda.take()).is_none()
        && agenda.next_due().is_none()
}

#[test]
fn ties_go_by_number(rt: HostRuntime) -> Result<(), Fail> {
    let alloc = rt.alloc();
    let script = Text::of(alloc, b"on_open")?;
    let mut agenda = Agenda::new(alloc);
    agenda.reserve(2)?;
    agenda.post(5, Kind::Turn { object: 9 });
    agenda.post(5, Kind::Unapply { object: 1 });
    agenda.reserve(2)?;
    let event = Kind::Event {
        object: 3,
        script,
        user: -4,
    };
    agenda.post(0, event);
    let stored = Kind::Stored {
        object: 2,
        action: 0u32,
    };
    agenda.post(5, stored);
    assert!(rt; are_taken(&mut agenda));
    Ok(())
}

#[test]
fn a_turn_is_cancelled(rt: HostRuntime) -> Result<(), Fail> {
    let mut agenda: Agenda<u32> = Agenda::new(rt.alloc());
    agenda.reserve(1)?;
    agenda.post(5, Kind::Turn { object: 4 });
    assert!(rt; !agenda.cancel_turn(9));
    assert!(rt; agenda.cancel_turn(4));
    assert!(rt; told(agenda.take()).is_none());
    Ok(())
}

#[test]
fn entries_are_put_with_their_numbers(rt: HostRuntime) -> Result<(), Fail> {
    let mut agenda: Agenda<u32> = Agenda::start_at(rt.alloc(), 7);
    assert_eq!(rt; agenda.next_number(), 7);
    let entry = Entry {
        due: 5,
        number: 3,
        kind: Kind::Turn { object: 4 },
    };
    agenda.put(entry)?;
    assert_eq!(rt; agenda.next_due(), Some(5));
    assert!(rt; agenda.cancel_turn(4) && agenda.take().is_none());
    Ok(())
}

/// The agenda of so many objects: each has a Turn, all due at one time.
fn all_turning(alloc: Global, objects: u32) -> Result<Agenda<u32>, NoMemory>
    ensures one { IfOk result (λ a. (object : ℕ) → turn_count object a.waiting.entries ≤ 1) }
{
    turns_are_counted::<u32>();
    let mut agenda = Agenda::new(alloc);
    for object in 0..objects {
        agenda.reserve(1)?;
        agenda.post(7, Kind::Turn { object });
    }
    Ok(agenda)
}

/// How many of so many objects have a Turn that is cancelled, the last object first.
fn cancelled(agenda: &mut Agenda<u32>, objects: u32) -> u32
    requires { (object : ℕ) → turn_count object agenda.old.waiting.entries ≤ 1 }
    ensures { (object : ℕ) → turn_count object agenda.new.waiting.entries ≤ 1 }
{
    turns_are_counted::<u32>();
    let mut count = 0;
    for done in 0..objects {
        if agenda.cancel_turn(objects - 1 - done) {
            count += 1;
        }
    }
    count
}

#[test]
fn each_turn_is_found_among_many(rt: HostRuntime) -> Result<(), Fail> {
    let mut agenda = all_turning(rt.alloc(), 3000)?;
    assert_eq!(rt; cancelled(&mut agenda, 1000), 1000);
    assert_eq!(rt; agenda.next_due(), Some(7));
    assert_eq!(rt; cancelled(&mut agenda, 3000), 2000);
    assert!(rt; agenda.take().is_none());
    Ok(())
}
