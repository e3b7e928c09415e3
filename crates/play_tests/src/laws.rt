//! The laws that speak of worlds of any kind, called at one.
use machine_rules::{few_scripts_wait, limits_count_instructions};
use std::test::*;

#[test]
fn laws_hold_in_a_world_of_numbers(_rt: HostRuntime) -> Result<(), Fail> {
    few_scripts_wait::<u64>();
    limits_count_instructions::<u64>();
    Ok(())
}
