ghost use Rattle.std.specs.Prelude.{◌≡◌, ◌≤◌, IfOk};
ghost use Rattle.play_generator.specs.Made.{number_limit, creatures_of, rounds_of, source_text};
ghost use Rattle.play_generator.specs.Made.{plan_text, play_of};

use crate::plan::put_plan;
use crate::source::put_source;
use nwq_value::NoMemory;
use std::alloc::Global;
use std::marker::Model;

/// The greatest number from which a play is made.
pub const NUMBER_LIMIT: u32 = 1_000_000;

/// The play that is made from a number. Its area is [`area`](crate::area) of its creatures.
#[derive(Drop)]
pub struct Made {
    creatures: u32,
    source: Vec<u8>,
    plan: Vec<u8>,
}

impl Model for Made {
    ghost use Rattle.play_generator.specs.Made.{Play};

    ghost Value = { Play };

    ghost view = { λ a. record {
      creatures = a.creatures;
      source = a.source.items;
      plan = a.plan.items;
    } };
}

impl Made {
    /// How many creatures the area has.
    pub fn creatures(&self) -> u32
        ensures creatures { result ≡ self.now.creatures }
    {
        self.creatures
    }

    /// The source of the script `beat`.
    pub fn source(&self) -> &[u8]
        ensures source { result.now ≡ self.now.source }
    {
        self.source.as_slice()
    }

    /// The text of the plan.
    pub fn plan(&self) -> &[u8]
        ensures plan { result.now ≡ self.now.plan }
    {
        self.plan.as_slice()
    }
}

fn source_for(alloc: Global, n: u32, creatures: u32) -> Result<Vec<u8>, NoMemory>
    ensures { IfOk result (λ source. source.items ≡ source_text n creatures) }
{
    let mut source = Vec::new(alloc);
    put_source(&mut source, n, creatures)?;
    Ok(source)
}

fn plan_for(alloc: Global, rounds: u32, creatures: u32) -> Result<Vec<u8>, NoMemory>
    requires few { rounds ≤ 60 }
    ensures { IfOk result (λ plan. plan.items ≡ plan_text rounds creatures) }
{
    let mut plan = Vec::new(alloc);
    put_plan(&mut plan, rounds, creatures)?;
    Ok(plan)
}

/// The play that is made from a number.
pub fn make(alloc: Global, n: u32) -> Result<Made, NoMemory>
    requires number { n ≤ number_limit }
    ensures made { IfOk result (λ made. made ≡ play_of n) }
{
    let creatures = 1 + n % 1000;
    let rounds = 1 + n / 1000 % 60;
    let source = source_for(alloc, n, creatures)?;
    let plan = plan_for(alloc, rounds, creatures)?;
    Ok(Made {
        creatures,
        source,
        plan,
    })
}
