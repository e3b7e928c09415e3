//! The plan: a round of events each second.

ghost use Rattle.std.specs.Prelude.{◌≡◌, ◌<◌, ◌≤◌, ◌++◌, OnOk};
ghost use Rattle.std.specs.List.{flat_map};
ghost use Rattle.play_generator.specs.Made.{below, ended, event_line, lines_text, round_lines};
ghost use Rattle.play_generator.specs.Made.{plan_text};

use nwq_text::put_count;
use nwq_value::NoMemory;

/// How long after one another rounds begin, in milliseconds.
const ROUND: u32 = 1000;

/// Appends the line of a creature's event in a round.
fn put_event(out: &mut Vec<u8>, round: u32, creature: u32) -> Result<(), NoMemory>
    requires few { round < 60 }
    ensures event { OnOk result (out.new.items ≡ out.old.items
        ++ ended (event_line round creature)) }
{
    out.extend_from_slice(b"event ")?;
    put_count(out, u64::from(ROUND * round))?;
    out.extend_from_slice(b" 0 ScriptHeartbeat c")?;
    put_count(out, u64::from(creature))?;
    out.push(b'\n')?;
    Ok(())
}

/// Appends the lines of a round.
#[tactic(auto, using(crate::proofs::PlanLemmas::one_more, crate::proofs::PlanLemmas::whole_round))]
fn put_round(out: &mut Vec<u8>, creatures: u32, round: u32) -> Result<(), NoMemory>
    requires few { round < 60 }
    ensures round { OnOk result (out.new.items ≡ out.old.items
        ++ lines_text (round_lines creatures round)) }
{
    for creature in 0..creatures {
        put_event(out, round, creature)?;
    }
    Ok(())
}

/// Appends the lines of so many rounds.
#[tactic(auto, using(crate::proofs::PlanLemmas::one_more))]
fn put_rounds(out: &mut Vec<u8>, rounds: u32, creatures: u32) -> Result<(), NoMemory>
    requires few { rounds ≤ 60 }
    ensures rounds { OnOk result (out.new.items ≡ out.old.items
        ++ flat_map (λ round. lines_text (round_lines creatures round)) (below rounds)) }
{
    for round in 0..rounds {
        put_round(out, creatures, round)?;
    }
    Ok(())
}

/// Appends the plan of so many rounds and creatures.
pub fn put_plan(out: &mut Vec<u8>, rounds: u32, creatures: u32) -> Result<(), NoMemory>
    requires few { rounds ≤ 60 }
    ensures plan { OnOk result (out.new.items ≡ out.old.items ++ plan_text rounds creatures) }
{
    out.extend_from_slice(b"NWQ PLAN 1\nentries 1000000\nuntil 4294967295\nscript beat\n")?;
    put_rounds(out, rounds, creatures)
}
