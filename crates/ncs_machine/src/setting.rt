ghost use Rattle.std.specs.Prelude.{◌≡◌, ◌<◌, ◌^◌, length};
ghost use Rattle.hook_table.specs.InHooks.{known_by};
ghost use Rattle.stack_rules.specs.Laws.{AllMeet};
ghost use Rattle.machine_rules.specs.Machine.{script_named};
ghost use Rattle.world_core.specs.Calls.{AreServing};
ghost use Rattle.ncs_machine.specs.Host.{scripts_of, tables_of};
ghost use Rattle.ncs_machine.specs.ServingOnce.{serving_once};
ghost use Rattle.ncs_machine.specs.Settings.{IsChecked, checked_listing};

use crate::machine::script_named;
use crate::scripts::Scripts;
use hook_table::Hooks;
use nwq_value::{Table, Text};
use std::marker::Model;

/// The listed scripts, and the header's table under which each was checked.
#[derive(Drop)]
pub struct CheckedScripts<'a> {
    scripts: &'a Scripts,
    table: &'a Table,
}

impl<'a> Model for CheckedScripts<'a> {
    ghost use Rattle.ncs_machine.specs.Settings.{CheckedListing, IsChecked, checked_listing};

    ghost Value = { CheckedListing };

    ghost view = { λ s. checked_listing s.scripts.now s.table.now };

    ghost invariant = { λ s. IsChecked (checked_listing s.scripts.now s.table.now) };
}

impl<'a> CheckedScripts<'a> {
    /// These scripts, few, of which each was checked under this table.
    pub fn of(scripts: &'a Scripts, table: &'a Table) -> CheckedScripts<'a>
        requires few { length scripts.now < 2 ^ 32 }
        requires meets { AllMeet table.now (scripts_of scripts.now) (tables_of scripts.now) }
        ensures listing { result ≡ checked_listing scripts.now table.now }
    {
        CheckedScripts { scripts, table }
    }

    /// What holds of them.
    pub fn keeps(&self)
        ensures checked { IsChecked self.now }
    {
        let _ = &self.scripts;
    }

    /// The scripts.
    pub fn scripts(&self) -> &'a Scripts
        ensures scripts { result.now ≡ self.now.scripts }
    {
        self.scripts
    }

    /// The header's table.
    pub fn table(&self) -> &'a Table
        ensures table { result.now ≡ self.now.table }
    {
        self.table
    }

    /// The number of the listed script of a name, where its letters count without their case.
    pub fn named(&self, name: &Text) -> Option<usize>
        ensures number { result ≡ script_named (scripts_of self.now.scripts) name.now }
    {
        script_named(self.scripts, name)
    }
}

/// What scripts run with: all that are listed, under a header's table, and hooks that serve.
#[derive(Drop)]
pub struct PlaySetting<'a, 'b> {
    pub code: CheckedScripts<'a>,
    pub hooks: &'b Hooks,
    pub ghost serving: { AreServing (known_by hooks.now) } by { serving_once (known_by hooks.now) },
}

impl<'a, 'b> PlaySetting<'a, 'b> {
    ghost use Rattle.ncs_machine.specs.InSetting.{seen};
    ghost use Rattle.ncs_machine.specs.Settings.{code_setting};

    /// Few scripts, each of which was checked under this table, with hooks that serve.
    pub fn of(scripts: &'a Scripts, table: &'a Table, hooks: &'b Hooks) -> PlaySetting<'a, 'b>
        requires few { length scripts.now < 2 ^ 32 }
        requires meets { AllMeet table.now (scripts_of scripts.now) (tables_of scripts.now) }
        requires hooks { AreServing (known_by hooks.now) }
        ensures setting { seen result ≡ code_setting (checked_listing scripts.now table.now)
            (known_by hooks.now) }
    {
        PlaySetting {
            code: CheckedScripts::of(scripts, table),
            hooks,
        }
    }
}
