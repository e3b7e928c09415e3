//! Whether variables are distinct. Each has a place by a fixed hash of its type and name, and only
//! those that share a place are compared by their names, by an index of these alone. So most
//! variables cost some bytes each, and whoever picks the names to share places makes the index no
//! larger than one of all.
ghost use Rattle.std.specs.Prelude.{◌≡◌, ◌↔◌, ◌<◌, [], length, map, filter, IfOk, IsTrue};
ghost use Rattle.std.specs.List.{IsDistinct};
ghost use Rattle.local_variables.specs.Variables.{same_variable};
ghost use Rattle.state_parts.specs.World.{variable_of};
ghost use Rattle.state_objects.specs.Places.{hash_of, hash_under, once_more, place_of};
ghost use Rattle.state_objects.specs.Places.{shares_place};
ghost use Rattle.state_objects.specs.Places.{CountsPlace, CountsPlaces};

use crate::things::variable;
use local_variables::{Vars, variables_tell};
use nwq_value::{Items, NoMemory};
use state_format::Variable;
use std::alloc::Global;
use std::hash::{FoldHasher, Hasher};

/// How many places there are for each variable.
const PLACES: usize = 16;

/// The hash of a type's number and a name.
#[tactic(auto, unfolding(crate::specs::Places::hash_under))]
fn hash_under(form: u8, name: &[u8]) -> u64
    ensures hash { result ≡ hash_under form name.now }
{
    let mut hasher = FoldHasher::default();
    hasher.write(&[form]);
    hasher.write(name);
    hasher.finish()
}

/// The hash of a variable's type and name.
fn hash(part: &Variable) -> u64
    ensures hash { result ≡ hash_of part.now }
{
    match part {
        Variable::Int(name, _) => hash_under(1, name.as_slice()),
        Variable::Text(name, _) => hash_under(3, name.as_slice()),
    }
}

/// The place of a variable among so many.
fn place(places: usize, part: &Variable) -> usize
    requires some { 0 < places }
    ensures place { result ≡ place_of places part.now }
    ensures inside { result < places }
{
    (hash(part) % places as u64) as usize
}

/// Places that no variable has.
fn no_counts(alloc: Global, places: usize) -> Result<Items<u8>, NoMemory>
    ensures none { IfOk result (λ counts. CountsPlaces counts []) }
    ensures len { IfOk result (λ counts. length counts ≡ places) }
{
    Ok(Items::of_vec(vec![in alloc; 0; places]?))
}

/// A count of none, of one, or of more, with one more.
fn once_more(count: u8) -> u8
    ensures more { result ≡ once_more count }
{
    if count == 0 { 1 } else { 2 }
}

/// Counts a variable at its place.
fn count_one(counts: &mut Items<u8>, part: &Variable)
    requires some { 0 < length counts.old }
    ensures counts { CountsPlace counts.old part.now counts.new }
    ensures len { length counts.new ≡ length counts.old }
{
    let place = place(counts.len(), part);
    let count = once_more(counts.as_slice()[place]);
    counts.set(place, count);
}

/// How many variables have each place.
fn count_all(alloc: Global, parts: &[Variable]) -> Result<Items<u8>, NoMemory>
    requires some { 0 < length parts.now }
    ensures counts { IfOk result (λ counts. CountsPlaces counts parts.now) }
    ensures some { IfOk result (λ counts. 0 < length counts) }
{
    let mut counts = no_counts(alloc, parts.len().saturating_mul(PLACES))?;
    for part in parts {
        count_one(&mut counts, part);
    }
    Ok(counts)
}

/// Whether another variable has the place of this one too.
fn shares_place(counts: &[u8], part: &Variable) -> bool
    requires some { 0 < length counts.now }
    ensures shared { result ≡ shares_place counts.now part.now }
{
    counts[place(counts.len(), part)] > 1
}

/// Whether no two of the variables that share places are of one type and name.
fn are_apart(alloc: Global, parts: &[Variable], counts: &[u8]) -> Result<bool, NoMemory>
    requires some { 0 < length counts.now }
    ensures test { IfOk result (λ apart. IsTrue apart
        ↔ IsDistinct same_variable (map variable_of (filter (shares_place counts.now) parts.now))) }
{
    variables_tell();
    let mut vars = Vars::new(alloc);
    for part in parts {
        if !shares_place(counts, part) {
            continue;
        }
        let v = variable(part);
        if vars.contains(v) {
            return Ok(false);
        }
        vars.push(v)?;
    }
    vars.keeps();
    Ok(true)
}

/// Whether no two variables are of one type and name.
pub fn are_distinct(alloc: Global, parts: &[Variable]) -> Result<bool, NoMemory>
    ensures test { IfOk result (λ all. IsTrue all
        ↔ IsDistinct same_variable (map variable_of parts.now)) }
{
    if parts.is_empty() {
        return Ok(true);
    }
    let counts = count_all(alloc, parts)?;
    are_apart(alloc, parts, counts.as_slice())
}
