//! The play of the example `examples/town`, with its tables in the hooks.

use test_rows::answers::{Held, PLAIN, Row};
use test_rows::bases::Base;
use test_rows::town::PLAYED;

/// The words of its play.
pub const LINE: &str = "play nwscript.nss town.git day.plan after.git tables.txt";

/// Its play: its scripts are compiled, and the area of the evening stands.
pub const ROWS: &[Row] = &[Row {
    line: LINE,
    base: Base::Town,
    text: PLAYED,
    after: &[
        ("dawn.ncs", Held::Something),
        ("inc_town.ncs", Held::Nothing),
        ("after.git", Held::Something),
    ],
    ..PLAIN
}];

/// Each script that the plan of the day lists is compiled.
pub const COMPILES: &[&str] = &[
    "compile nwscript.nss hb_guard",
    "compile nwscript.nss ud_guard",
    "compile nwscript.nss patrol",
    "compile nwscript.nss gate_open",
    "compile nwscript.nss lamp",
    "compile nwscript.nss dusk",
    "compile nwscript.nss dawn",
    "compile nwscript.nss shop_open",
    "compile nwscript.nss shop_buy",
    "compile nwscript.nss heal",
    "compile nwscript.nss closing",
];

/// The plan of the day, but that it lists files of code in place of sources.
pub const CODE_PLAN: &[u8] = b"\
NWQ PLAN 2
limit 20000
until 60000
random 0 1 2 0 4 3
binary hb_guard
binary ud_guard
binary patrol
binary gate_open
binary lamp
binary dusk
binary dawn
binary shop_open
binary shop_buy
binary heal
binary closing
start 0 - dawn
start 1000 0 shop_open MERCHANT
event 2000 0 OnOpen GATE
event 6000 0 ScriptHeartbeat GUARD
start 7000 0 shop_buy MERCHANT
start 8000 0 shop_buy MERCHANT
start 9000 0 shop_buy MERCHANT
event 12000 0 ScriptHeartbeat GUARD
event 18000 0 ScriptHeartbeat GUARD
start 29000 0 shop_buy MERCHANT
start 30000 - heal
start 40000 - dusk
start 50000 0 closing MERCHANT
";
