//! Engine tables: the roles of routines, and what names stand for.

use nwq_value::*;
use std::alloc::Global;
use std::test::Fail;

/// A routine: its name, the type that it gives, those that it takes, and its role.
#[derive(Clone, Copy)]
struct Signature {
    name: &'static [u8],
    gives: Ty,
    takes: &'static [Ty],
    role: Role,
}

const SIGNATURES: &[Signature] = &[
    Signature {
        name: b"Random",
        gives: Ty::Int,
        takes: &[Ty::Int],
        role: Role::Built(0),
    },
    Signature {
        name: b"Random",
        gives: Ty::Void,
        takes: &[Ty::Int],
        role: Role::World,
    },
    Signature {
        name: b"random",
        gives: Ty::Int,
        takes: &[Ty::Int],
        role: Role::World,
    },
    Signature {
        name: b"DeleteLocalString",
        gives: Ty::Void,
        takes: &[Ty::Object, Ty::Text],
        role: Role::Built(22),
    },
    Signature {
        name: b"abs",
        gives: Ty::Int,
        takes: &[Ty::Int],
        role: Role::Pure(0),
    },
    Signature {
        name: b"Get2DAString",
        gives: Ty::Text,
        takes: &[Ty::Text, Ty::Text, Ty::Int],
        role: Role::Pure(9),
    },
    Signature {
        name: b"AssignCommand",
        gives: Ty::Void,
        takes: &[Ty::Object, Ty::Action],
        role: Role::Built(6),
    },
    Signature {
        name: b"AssignCommands",
        gives: Ty::Void,
        takes: &[Ty::Object, Ty::Action],
        role: Role::Uncallable,
    },
    Signature {
        name: b"ExecuteScript",
        gives: Ty::Void,
        takes: &[Ty::Text, Ty::Object],
        role: Role::Built(8),
    },
    Signature {
        name: b"SignalEvent",
        gives: Ty::Void,
        takes: &[Ty::Object, Ty::Event],
        role: Role::Built(39),
    },
    Signature {
        name: b"EventActivateItem",
        gives: Ty::Event,
        takes: &[Ty::Object],
        role: Role::World,
    },
    Signature {
        name: b"PrintFloat",
        gives: Ty::Void,
        takes: &[Ty::Refused, Ty::Int, Ty::Int],
        role: Role::Uncallable,
    },
];

fn params_of(alloc: Global, types: &[Ty]) -> Result<Params, NoMemory> {
    let mut params = Params::new(alloc);
    for ty in types {
        params.push(Param {
            ty: *ty,
            default: None,
        })?;
    }
    Ok(params)
}

#[test]
fn roles_follow_name_and_types(rt: HostRuntime) -> Result<(), Fail> {
    for (place, it) in SIGNATURES.iter().enumerate() {
        let params = params_of(rt.alloc(), it.takes)?;
        let role = role_of(it.name, it.gives, params.as_slice());
        assert!(rt; role == it.role, "signature {place}");
    }
    Ok(())
}

/// Whether a table has nothing under a name.
fn has_none(table: &Table, name: &[u8]) -> bool {
    table.by_name(name).is_none() && table.constant(name).is_none()
}

#[test]
fn an_empty_table_has_no_names(rt: HostRuntime) {
    let table = Table::new(rt.alloc());
    assert!(rt; has_none(&table, b"Rest") && has_none(&table, b"TRUE"));
}

/// The table of the routine `int Rest()`.
#[tactic(auto, unfolding(nwq_value::specs::Engine::routine_named, nwq_value::specs::Engine::constant_named))]
fn resting(alloc: Global) -> Result<Table, NoMemory> {
    let name = Text::of(alloc, b"Rest")?;
    let params = Params::new(alloc);
    let role = role_of(name.bytes(), Ty::Int, params.as_slice());
    let routine = Routine {
        name,
        result: Ty::Int,
        params,
        role,
    };
    let mut table = Table::new(alloc);
    match table.push(routine) {
        Ok(()) => Ok(table),
        Err(NoMemory) => {
            drop(table);
            Err(NoMemory)
        }
    }
}

/// Whether the routine is found by its number and by its name, and is one of the world.
fn has_rest(table: &Table) -> bool {
    match table.routine(0) {
        None => false,
        Some(routine) => routine.role == Role::World && table.by_name(b"Rest") == Some(0),
    }
}

#[test]
fn tables_answer_by_number_and_name(rt: HostRuntime) -> Result<(), Fail> {
    let table = resting(rt.alloc())?;
    assert!(rt; has_rest(&table));
    Ok(())
}

/// The table of the constant `TRUE`.
#[tactic(auto, unfolding(nwq_value::specs::Engine::routine_named, nwq_value::specs::Engine::constant_named))]
fn of_true(alloc: Global) -> Result<Table, NoMemory> {
    let name = Text::of(alloc, b"TRUE")?;
    let mut table = Table::new(alloc);
    match table.define(name, Const::Int(1)) {
        Ok(()) => Ok(table),
        Err(NoMemory) => {
            drop(table);
            Err(NoMemory)
        }
    }
}

/// The type of a copy of the constant of a name, if there is one.
fn type_of(alloc: Global, table: &Table, name: &[u8]) -> Result<Option<Ty>, NoMemory> {
    match table.constant(name) {
        None => Ok(None),
        Some(constant) => Ok(Some(constant.copy(alloc)?.ty())),
    }
}

#[test]
fn tables_keep_constants(rt: HostRuntime) -> Result<(), Fail> {
    let table = of_true(rt.alloc())?;
    assert!(rt; type_of(rt.alloc(), &table, b"TRUE")? == Some(Ty::Int));
    Ok(())
}
