//! The scripts that a command compiles, by the files that were kept.

ghost use Rattle.std.specs.Prelude.{◌≡◌};

use crate::inputs::Inputs;
use message_places::read_named;
use nwq_outside::Files;
use nwq_value::{NoMemory, Text};
use plan_text::{Plan, read_plan};
use std::alloc::Global;

/// The names of the scripts that a plan lists.
pub(crate) fn names_of(alloc: Global, plan: &Plan) -> Result<Vec<Text>, NoMemory> {
    let mut names = Vec::new(alloc);
    for script in plan.scripts.as_slice() {
        names.push(script.name.copy(alloc)?)?;
    }
    Ok(names)
}

fn names_in(alloc: Global, bytes: &[u8]) -> Result<Vec<Text>, NoMemory> {
    match read_plan(alloc, bytes) {
        Err(_) => Ok(Vec::new(alloc)),
        Ok(plan) => names_of(alloc, &plan),
    }
}

fn one_name(alloc: Global, name: &str) -> Result<Vec<Text>, NoMemory> {
    let mut names = Vec::new(alloc);
    names.push(Text::of(alloc, name.as_bytes())?)?;
    Ok(names)
}

/// The names of the scripts that a command compiles, in order.
pub(crate) fn scripts_of<F: Files>(
    alloc: Global,
    inputs: Inputs<'_>,
    files: &mut F,
) -> Result<Vec<Text>, NoMemory>
    ensures same { F.contents files.new ≡ F.contents files.old }
{
    if let Some(script) = inputs.script {
        return one_name(alloc, script);
    }
    let Some(plan) = inputs.plan else {
        return Ok(Vec::new(alloc));
    };
    match read_named(alloc, plan, files) {
        None => Ok(Vec::new(alloc)),
        Some(bytes) => names_in(alloc, bytes.as_slice()),
    }
}

/// The names of the binaries that a plan lists.
fn binaries_in(alloc: Global, plan: &Plan) -> Result<Vec<Text>, NoMemory> {
    let mut names = Vec::new(alloc);
    for script in plan.scripts.as_slice() {
        if script.binary {
            names.push(script.name.copy(alloc)?)?;
        }
    }
    Ok(names)
}

/// The names of the binaries that a command reads by its plan.
pub(crate) fn binaries_of<F: Files>(
    alloc: Global,
    inputs: Inputs<'_>,
    files: &mut F,
) -> Result<Vec<Text>, NoMemory>
    ensures same { F.contents files.new ≡ F.contents files.old }
{
    let Some(plan) = inputs.plan else {
        return Ok(Vec::new(alloc));
    };
    let Some(bytes) = read_named(alloc, plan, files) else {
        return Ok(Vec::new(alloc));
    };
    match read_plan(alloc, bytes.as_slice()) {
        Err(_) => Ok(Vec::new(alloc)),
        Ok(plan) => binaries_in(alloc, &plan),
    }
}
