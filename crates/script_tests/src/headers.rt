use engine_table::{HeaderFault, built_in, read_header};
use nwq_value::{Const, FILE_BYTES, NoMemory, Param, Role, Table, Ty};
use std::alloc::Global;
use std::test::Fail;

/// Whether a text is a header, or its fault.
fn judged(alloc: Global, text: &[u8]) -> Result<(), HeaderFault> {
    if text.len() > FILE_BYTES {
        return Err(HeaderFault::NoMemory);
    }
    match read_header(alloc, text) {
        Ok(_) => Ok(()),
        Err(fault) => Err(fault),
    }
}

/// The table of a text, where it is a header.
fn table_of(alloc: Global, text: &[u8]) -> Option<Table> {
    if text.len() > FILE_BYTES {
        return None;
    }
    match read_header(alloc, text) {
        Ok(table) => Some(table),
        Err(_) => None,
    }
}

/// The result of the function with this name, and its role.
fn function_of(table: &Table, name: &[u8]) -> Option<(Ty, Role)> {
    match table.by_name(name) {
        Some(number) => match table.routine(number) {
            Some(routine) => Some((routine.result, routine.role)),
            None => None,
        },
        None => None,
    }
}

/// Parameter `i` of the function with this name.
fn param_of<'a>(table: &'a Table, name: &[u8], i: usize) -> Option<&'a Param> {
    match table.by_name(name) {
        Some(number) => match table.routine(number) {
            Some(routine) => routine.params.get(i),
            None => None,
        },
        None => None,
    }
}

/// A parameter's type, and its default where that is an int.
fn int_default(param: Option<&Param>) -> Option<(Ty, Option<i32>)> {
    match param {
        Some(param) => match &param.default {
            Some(Const::Int(n)) => Some((param.ty, Some(*n))),
            _ => Some((param.ty, None)),
        },
        None => None,
    }
}

/// Whether the parameter's default is the caller.
fn is_self(param: Option<&Param>) -> bool {
    match param {
        Some(param) => matches!(&param.default, Some(Const::SelfObject)),
        None => false,
    }
}

/// The int that a name stands for.
fn int_of(table: &Table, name: &[u8]) -> Option<i32> {
    match table.constant(name) {
        Some(Const::Int(n)) => Some(*n),
        _ => None,
    }
}

#[test]
fn faults(rt: HostRuntime) -> Result<(), Fail> {
    for (text, want) in [
        (b"int A(); int A();".as_slice(), Err(HeaderFault::Twice(13))),
        (b"int A(); int @".as_slice(), Err(HeaderFault::Bad(13))),
        (b"int A(".as_slice(), Err(HeaderFault::Header(6))),
        (b"const int A();".as_slice(), Err(HeaderFault::Header(11))),
        (b"int A = 1.0;".as_slice(), Err(HeaderFault::Header(8))),
        (b"struct s A();".as_slice(), Err(HeaderFault::Header(0))),
        (b"int A=1; int A=2;".as_slice(), Err(HeaderFault::Twice(13))),
        (
            b"int A=1; float A=2;".as_slice(),
            Err(HeaderFault::Twice(15)),
        ),
        (b"int A(); int A x".as_slice(), Err(HeaderFault::Header(15))),
        (
            b"void f(float x = 1;".as_slice(),
            Err(HeaderFault::Header(18)),
        ),
        (
            b"#define ENGINE_STRUCTURE_1 effect".as_slice(),
            Err(HeaderFault::Header(27)),
        ),
        (
            b"#define ENGINE_STRUCTURE_0 sql".as_slice(),
            Err(HeaderFault::Header(27)),
        ),
        (b" \n\t// none\n".as_slice(), Ok(())),
        (b"".as_slice(), Ok(())),
    ] {
        assert_eq!(rt; judged(rt.alloc(), text), want, "{text:?}");
    }
    Ok(())
}

/// A header in the shape of the game's own.
static ENGINE: &[u8] = b"#define ENGINE_NUM_STRUCTURES 10\n\
#define ENGINE_STRUCTURE_0 effect\n\
#define ENGINE_STRUCTURE_1 event\n\
#define ENGINE_STRUCTURE_2 location\n\
#define ENGINE_STRUCTURE_3 talent\n\
#define ENGINE_STRUCTURE_4 itemproperty\n\
#define ENGINE_STRUCTURE_5 sqlquery\n\
#define ENGINE_STRUCTURE_9 json\n\
int    TRUE       = 1;\n\
int    FALSE      = 0;\n\
int    NO_FILTER  = -1;\n\
int    ALL_BITS   = 0xFFFFFFFF;\n\
int    FIRST_BIT  = 0x80000000;\n\
float  PI         = 3.141592;\n\
vector ORIGIN     = [0.0,0.0,0.0];\n\
const string GREETING = \"hail\";\n\
object NOBODY     = OBJECT_INVALID;\n\
// 0: a number below nMaxInteger\n\
int Random(int nMaxInteger);\n\
void PrintFloat(float fFloat, int nWidth=18, int nDecimals=9);\n\
void AssignCommand(object oActionSubject,action aActionToAssign);\n\
void ActionMoveToLocation(location lDestination, int bRun=FALSE);\n\
object GetNearest(int nType, object oTarget=OBJECT_SELF, int nNth=1, int nSecond=NO_FILTER);\n\
vector Vector(float x=0.0f, float y=0.0f, float z=0.0f);\n\
effect EffectBeam(int nBeam, object oFrom, int bMiss=FALSE, vector vMove=[0.0,0.0,0.0]);\n\
int Filter(int nObjects=0x7f, talent t=({[1,(2;3),4]}), int nMask=-0x10, string s=GREETING);\n\
/* events */ event EventUserDefined(int nUserDefinedEventNumber);\n\
void SignalEvent(object oObject, event evToRun);\n\
json JsonObject(string sKey=\"\", json jValue=JSON_NULL);\n\
int SqlStep(sqlquery sqlQuery, object = NOBODY);\n";

/// Lines of which the game's own header has hundreds: what stands before a number, and behind it.
const MORE: [(&str, &str); 6] = [
    ("int MORE_", " = 0x10;"),
    ("float RATE_", " = 0.5;"),
    ("vector PLACE_", " = [0.0,-1.0,0.0];"),
    (
        "void ActionMore",
        "(object oTarget=OBJECT_SELF, int bRun=FALSE, float fRate=1.0);",
    ),
    (
        "effect EffectMore",
        "(int nMore, vector vPlace=[0.0,0.0,0.0], string sName=GREETING);",
    ),
    (
        "json JsonMore",
        "(sqlquery sqlQuery, json jMore=JSON_NULL, int nFilter=NO_FILTER);",
    ),
];

fn add_more(alloc: Global, text: &mut Vec<u8>, number: u32) -> Result<(), NoMemory> {
    for (front, rest) in MORE {
        let line = format!(in alloc; "{front}{number}{rest}\n")?;
        text.extend_from_slice(line.as_bytes())?;
    }
    Ok(())
}

/// The header, with 600 lines more, of which 300 are of functions.
fn with_more(alloc: Global) -> Result<Vec<u8>, NoMemory> {
    let mut text = Vec::from_slice(alloc, ENGINE)?;
    for number in 0u32..100 {
        add_more(alloc, &mut text, number)?;
    }
    Ok(text)
}

/// Six of its functions: name, number, result and role.
const SIX: [(&[u8], u16, Ty, Role); 6] = [
    (b"Random", 0, Ty::Int, Role::Built(0)),
    (b"AssignCommand", 2, Ty::Void, Role::Built(6)),
    (b"GetNearest", 4, Ty::Object, Role::World),
    (b"EffectBeam", 6, Ty::Effect, Role::Uncallable),
    (b"SignalEvent", 9, Ty::Void, Role::Built(39)),
    (b"SqlStep", 11, Ty::Int, Role::Uncallable),
];

/// Whether the table has the six, each under its number, and all functions.
fn has_functions(table: &Table) -> bool {
    for (name, number, result, role) in SIX {
        if table.by_name(name) != Some(number) || function_of(table, name) != Some((result, role)) {
            return false;
        }
    }
    table.count() == 312 && table.by_name(b"JsonMore99") == Some(311)
}

/// Parameters of its functions that are no objects: type, and default where that is an int.
const DEFAULTS: [(&[u8], usize, (Ty, Option<i32>)); 8] = [
    (b"PrintFloat", 1, (Ty::Int, Some(18))),
    (b"GetNearest", 3, (Ty::Int, Some(-1))),
    (b"EffectBeam", 2, (Ty::Int, Some(0))),
    (b"EffectBeam", 3, (Ty::Refused, None)),
    (b"Filter", 0, (Ty::Int, Some(127))),
    (b"Filter", 2, (Ty::Int, Some(-16))),
    (b"SignalEvent", 1, (Ty::Event, None)),
    (b"ActionMore99", 1, (Ty::Int, Some(0))),
];

/// Whether the table's functions have these defaults.
fn has_defaults(table: &Table) -> bool {
    for (name, i, want) in DEFAULTS {
        if int_default(param_of(table, name, i)) != Some(want) {
            return false;
        }
    }
    is_self(param_of(table, b"GetNearest", 1)) && is_self(param_of(table, b"ActionMore99", 0))
}

/// Whether the table has the header's constants, and none that is no int, string or object.
fn has_constants(table: &Table) -> bool {
    for (name, want) in [
        (b"TRUE".as_slice(), Some(1)),
        (b"NO_FILTER", Some(-1)),
        (b"ALL_BITS", Some(-1)),
        (b"FIRST_BIT", Some(i32::MIN)),
        (b"MORE_99", Some(16)),
        (b"GREETING", None),
    ] {
        if int_of(table, name) != want {
            return false;
        }
    }
    table.constant(b"ORIGIN").is_none() && table.constant(b"PLACE_99").is_none()
}

/// What the table of a text has of the header's functions, defaults and constants.
fn had(alloc: Global, text: &[u8]) -> [bool; 3] {
    match table_of(alloc, text) {
        Some(table) => [
            has_functions(&table),
            has_defaults(&table),
            has_constants(&table),
        ],
        None => [false; 3],
    }
}

#[test]
fn the_games_header(rt: HostRuntime) -> Result<(), Fail> {
    let text = with_more(rt.alloc())?;
    assert_eq!(rt; had(rt.alloc(), text.as_slice()), [true; 3]);
    Ok(())
}

#[test]
fn the_built_in_header(rt: HostRuntime) -> Result<(), Fail> {
    let table = built_in(rt.alloc())?;
    assert_eq!(rt; table.count(), 41);
    assert_eq!(rt; table.by_name(b"GetUserDefinedEventNumber"), Some(40));
    Ok(())
}

/// A function with so many parameters.
fn with_params(alloc: Global, count: usize) -> Result<Vec<u8>, NoMemory> {
    let mut text = Vec::new(alloc);
    text.extend_from_slice(b"int A(")?;
    for i in 0..count {
        if i > 0 {
            text.push(b',')?;
        }
        text.extend_from_slice(b"int")?;
    }
    text.extend_from_slice(b");")?;
    Ok(text)
}

#[test]
fn parameters(rt: HostRuntime) -> Result<(), Fail> {
    let whole = with_params(rt.alloc(), 255)?;
    assert_eq!(rt; judged(rt.alloc(), whole.as_slice()), Ok(()));
    let long = with_params(rt.alloc(), 256)?;
    assert_eq!(rt;
        judged(rt.alloc(), long.as_slice()),
        Err(HeaderFault::Header(1025))
    );
    Ok(())
}
