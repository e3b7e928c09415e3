//! The index from tags to the numbers of the objects.

ghost use Rattle.std.specs.Prelude.{◌≡◌, ◌<◌, ◌∷◌, [], None, length, IfOk, OnOk};
ghost use Rattle.nwq_value.specs.Index.{number_under};
ghost use Rattle.area_tree.specs.Index.{numbers_under, Indexes, AddsNumber, ArePlaces};

use crate::object::Object;
use nwq_value::{Items, NameIndex, NoMemory};
use std::alloc::Global;

/// The numbers of the objects by tag, in ascending order.
pub struct Tags {
    /// Under each tag the place of its numbers.
    places: NameIndex,
    numbers: Vec<Items<u32>>,
}

impl Drop for Tags {
    fn drop(self) {
        let Tags { places, numbers } = self;
        drop(places);
        drop(numbers);
    }
}

impl Tags {
    /// The index without tags.
    pub fn new(alloc: Global) -> Tags
        ensures places { result.places ≡ [] }
        ensures numbers { result.numbers.items ≡ [] }
    {
        Tags {
            places: NameIndex::new(alloc),
            numbers: Vec::new(alloc),
        }
    }
}

/// The numbers of the objects with a tag.
pub fn numbers<'a>(tags: &'a Tags, tag: &[u8]) -> &'a [u32]
    ensures { result.now ≡ numbers_under tag.now tags.now.places tags.now.numbers.items }
{
    match tags.places.get(tag) {
        Some(place) => match tags.numbers.get(place) {
            Some(numbers) => numbers.as_slice(),
            None => &[],
        },
        None => &[],
    }
}

fn one_number(alloc: Global, number: u32) -> Result<Items<u32>, NoMemory>
    ensures { IfOk result (λ numbers. numbers ≡ number ∷ []) }
{
    let mut numbers = Items::new(alloc);
    numbers.push(number)?;
    Ok(numbers)
}

/// Puts a number under a tag that has none.
fn add_tag(
    alloc: Global,
    places: &mut NameIndex,
    numbers: &mut Vec<Items<u32>>,
    tag: &[u8],
    number: u32,
) -> Result<(), NoMemory>
    requires new { number_under tag.now places.old ≡ None }
    requires places { ArePlaces places.old (length numbers.old.items) }
    ensures places { OnOk result (ArePlaces places.new (length numbers.new.items)) }
    ensures adds { OnOk result (AddsNumber tag.now number places.old numbers.old.items
        places.new numbers.new.items) }
{
    let place = numbers.len();
    let one = one_number(alloc, number)?;
    numbers.push(one)?;
    places.set(tag, place)
}

/// Puts a number last under a tag.
fn add(
    alloc: Global,
    places: &mut NameIndex,
    numbers: &mut Vec<Items<u32>>,
    tag: &[u8],
    number: u32,
) -> Result<(), NoMemory>
    requires places { ArePlaces places.old (length numbers.old.items) }
    ensures places { OnOk result (ArePlaces places.new (length numbers.new.items)) }
    ensures adds { OnOk result (AddsNumber tag.now number places.old numbers.old.items
        places.new numbers.new.items) }
{
    match places.get(tag) {
        Some(place) => numbers[place].push(number),
        None => add_tag(alloc, places, numbers, tag, number),
    }
}

fn add_all(
    alloc: Global,
    objects: &[Object],
    places: &mut NameIndex,
    numbers: &mut Vec<Items<u32>>,
) -> Result<(), NoMemory>
    requires few { length objects.now < 4294967296 }
    requires places { places.old ≡ [] }
    requires numbers { numbers.old.items ≡ [] }
    ensures indexes { OnOk result (Indexes places.new numbers.new.items objects.now) }
{
    let mut number: u32 = 0;
    for object in objects {
        number += 1;
        add(alloc, places, numbers, object.tag(), number)?;
    }
    Ok(())
}

/// The index of these objects.
pub fn index(alloc: Global, objects: &[Object]) -> Result<Tags, NoMemory>
    requires few { length objects.now < 4294967296 }
    ensures indexes { IfOk result (λ tags. Indexes tags.places tags.numbers.items objects.now) }
{
    let mut tags = Tags::new(alloc);
    match add_all(alloc, objects, &mut tags.places, &mut tags.numbers) {
        Ok(()) => Ok(tags),
        Err(e) => {
            drop(tags);
            Err(e)
        }
    }
}
