//! Plays that are saved and resumed: what they print and leave in all is what the unbroken play
//! does.

ghost use Rattle.hook_table.specs.InHooks.{known_by};
ghost use Rattle.world_core.specs.Calls.{AreServing};

use crate::{example, long};
use hook_table::Hooks;
use nwq_outside::MemSink;
use nwq_top::Status;
use nwq_value::NoMemory;
use std::alloc::Global;
use test_rows::answers::{Failing, Held, Named, Outcome, PLAIN, Row, begin, carry_on};
use test_rows::bases::Base;
use test_rows::contents::{DEFERS, GUARDED, OLD, PLAN_OF_ONE};

/// A play, by its files.
#[derive(Clone, Copy)]
pub struct Game<'a> {
    pub base: Base,
    /// Names beside those, or in their place.
    pub own: &'a [Named<'a>],
    /// Lines that are done before.
    pub lines: &'a [&'a str],
    /// Header and area.
    pub given: &'a str,
    /// Plans that go alike. The first one is played without a break.
    pub plans: &'a [&'a str],
    /// The list of tables, if there is one.
    pub tables: &'a str,
    /// They are saved after 1 to less than so many entries. The last number is past their end.
    pub below: usize,
    /// What the unbroken play prints, where it is told.
    pub text: Option<&'a str>,
}

/// Plays of both versions, of sources, which are saved after each of their entries, and the guard's
/// rounds with a long variable, after the first.
pub const GAMES: &[Game] = &[
    Game {
        base: Base::Rounds,
        own: &[],
        lines: &[],
        given: "- a.git",
        plans: &["x.plan"],
        tables: "",
        below: 8,
        text: None,
    },
    Game {
        base: Base::Busy,
        own: &[],
        lines: &[],
        given: "h.nss a.git",
        plans: &["x.plan"],
        tables: "",
        below: 26,
        text: None,
    },
    Game {
        base: Base::Rounds,
        own: &[("a.git", long::FIVE)],
        lines: &[],
        given: "- a.git",
        plans: &["x.plan"],
        tables: "",
        below: 2,
        text: Some(long::TEXT),
    },
];

/// The town's day of sources, and of their files of code, saved after each of its 31 entries.
pub const TOWN: &[Game] = &[Game {
    base: Base::Town,
    own: &[("code.plan", Held::Bytes(example::CODE_PLAN))],
    lines: example::COMPILES,
    given: "nwscript.nss town.git",
    plans: &["day.plan", "code.plan"],
    tables: "tables.txt",
    below: 33,
    text: Some(test_rows::town::PLAYED),
}];

/// Where the last line of a text begins.
fn last_line(text: &[u8]) -> usize {
    let mut at = 0;
    for (place, byte) in text.iter().enumerate() {
        if *byte == b'\n' && place + 1 < text.len() {
            at = place + 1;
        }
    }
    at
}

/// Whether the text ends with the line of a save.
fn is_saved(text: &[u8]) -> bool {
    match text.get(last_line(text)..) {
        Some(line) => line.starts_with(b"saved s.nwq entries "),
        None => false,
    }
}

/// Whether what was put before the last line, and what is put after it, is the text.
fn is_parted(first: &[u8], rest: &[u8], text: &[u8]) -> bool {
    let at = last_line(first);
    match (first.get(..at), text.get(..at), text.get(at..)) {
        (Some(told), Some(front), Some(end)) => told == front && rest == end,
        _ => false,
    }
}

/// Whether a play that is saved by one line and resumed by another puts this text in all, without
/// the line of the save, and leaves this area.
fn goes_on(
    alloc: Global,
    lines: [&str; 2],
    found: &mut Outcome,
    text: &[u8],
    area: Option<&[u8]>,
    hooks: &Hooks,
) -> Result<bool, NoMemory>
    requires hooks { AreServing (known_by hooks.now) }
{
    let [save, resume] = lines;
    found.out = MemSink::new(alloc);
    carry_on(alloc, save, found, hooks)?;
    if found.status != Status::Done || !is_saved(found.out.bytes()) {
        return Ok(false);
    }
    let first = Vec::from_slice(alloc, found.out.bytes())?;
    found.out = MemSink::new(alloc);
    carry_on(alloc, resume, found, hooks)?;
    Ok(
        found.status == Status::Done
            && is_parted(first.as_slice(), found.out.bytes(), text)
            && found.files.get("f.git") == area,
    )
}

/// Takes away what a play wrote: where lines were done before it the state and the area alone.
fn renew(alloc: Global, game: &Game, found: &mut Outcome) -> Result<(), NoMemory> {
    if game.lines.is_empty() {
        begin(alloc, game.base, game.own, found)
    } else {
        found.files.add("s.nwq", b"not written")?;
        found.files.add("f.git", b"not written")
    }
}

/// Whether the play of a plan that is saved after so many entries and resumed prints and leaves
/// what the unbroken one did.
fn goes_as(
    alloc: Global,
    game: &Game,
    plan: &str,
    n: usize,
    found: &mut Outcome,
    text: &[u8],
    area: &[u8],
    hooks: &Hooks,
) -> Result<bool, NoMemory>
    requires hooks { AreServing (known_by hooks.now) }
{
    renew(alloc, game, found)?;
    let save = format!(in alloc; "save {} {plan} {n} s.nwq {}", game.given, game.tables)?;
    let resume = format!(in alloc; "resume s.nwq f.git {}", game.tables)?;
    let lines = [save.as_str(), resume.as_str()];
    goes_on(alloc, lines, found, text, Some(area), hooks)
}

/// After how many entries the saved play of a plan goes on otherwise than to print and leave what
/// the unbroken one did, if it does so anywhere.
fn first_apart(
    alloc: Global,
    game: &Game,
    plan: &str,
    found: &mut Outcome,
    text: &[u8],
    area: &[u8],
    hooks: &Hooks,
) -> Result<Option<usize>, NoMemory>
    requires hooks { AreServing (known_by hooks.now) }
{
    for n in 1..game.below {
        if !goes_as(alloc, game, plan, n, found, text, area, hooks)? {
            return Ok(Some(n));
        }
    }
    Ok(None)
}

/// The same of each plan, with the plan's place.
fn first_plan_apart(
    alloc: Global,
    game: &Game,
    found: &mut Outcome,
    text: &[u8],
    area: &[u8],
    hooks: &Hooks,
) -> Result<Option<(usize, usize)>, NoMemory>
    requires hooks { AreServing (known_by hooks.now) }
{
    for (place, plan) in game.plans.iter().enumerate() {
        if let Some(n) = first_apart(alloc, game, plan, found, text, area, hooks)? {
            return Ok(Some((place, n)));
        }
    }
    Ok(None)
}

fn do_lines(
    alloc: Global,
    lines: &[&str],
    found: &mut Outcome,
    hooks: &Hooks,
) -> Result<(), NoMemory>
    requires hooks { AreServing (known_by hooks.now) }
{
    for line in lines {
        carry_on(alloc, line, found, hooks)?;
    }
    Ok(())
}

/// Plays the first plan without a break.
fn play(alloc: Global, game: &Game, found: &mut Outcome, hooks: &Hooks) -> Result<(), NoMemory>
    requires hooks { AreServing (known_by hooks.now) }
{
    begin(alloc, game.base, game.own, found)?;
    do_lines(alloc, game.lines, found, hooks)?;
    found.out = MemSink::new(alloc);
    let plan = game.plans.first().copied().unwrap_or("");
    let line = format!(in alloc; "play {} {plan} f.git {}", game.given, game.tables)?;
    carry_on(alloc, &line, found, hooks)
}

/// Whether the play is done and prints what is told.
fn is_played(found: &Outcome, game: &Game) -> bool {
    let is_text = match game.text {
        None => true,
        Some(text) => found.out.bytes() == text.as_bytes(),
    };
    found.status == Status::Done && is_text
}

/// The place of the plan of a game, and after how many entries its saved play goes on otherwise
/// than the unbroken one, if it does so anywhere; 0 where the unbroken one is another already.
fn first_other(
    alloc: Global,
    game: &Game,
    found: &mut Outcome,
    hooks: &Hooks,
) -> Result<Option<(usize, usize)>, NoMemory>
    requires hooks { AreServing (known_by hooks.now) }
{
    play(alloc, game, found, hooks)?;
    if !is_played(found, game) {
        return Ok(Some((0, 0)));
    }
    let text = Vec::from_slice(alloc, found.out.bytes())?;
    let area = Vec::from_slice(alloc, found.files.get("f.git").unwrap_or(b""))?;
    first_plan_apart(alloc, game, found, text.as_slice(), area.as_slice(), hooks)
}

/// The places of the first game and of its plan whose play goes on otherwise once it was saved, and
/// after how many entries.
pub fn first_broken(
    alloc: Global,
    games: &[Game],
    found: &mut Outcome,
    hooks: &Hooks,
) -> Result<Option<(usize, usize, usize)>, NoMemory>
    requires hooks { AreServing (known_by hooks.now) }
{
    for (place, game) in games.iter().enumerate() {
        if let Some((plan, n)) = first_other(alloc, game, found, hooks)? {
            return Ok(Some((place, plan, n)));
        }
    }
    Ok(None)
}

const LOOP: Named = ("p.nss", Held::Bytes(b"void main() { while (TRUE) {} }"));

const BEGUN: Named = ("s.nwq", Held::Bytes(b"NWQ"));

const NO_AREA: &[Named] = &[
    ("p.ncs", Held::Something),
    ("s.nwq", Held::Something),
    ("f.git", Held::Nothing),
];

const AN_AREA: &[Named] = &[
    ("p.ncs", Held::Something),
    ("s.nwq", Held::Something),
    ("f.git", Held::Something),
];

/// A play is saved after its first entry.
const FIRST: Row = Row {
    line: "save - a.git x.plan 1 s.nwq",
    base: Base::Saved,
    puts: Some(2),
    text: "0 #0 print 2\nsaved s.nwq entries 1\n",
    after: &[("s.nwq", Held::Something), ("p.ncs", Held::Something)],
    ..PLAIN
};

/// A play that was saved is resumed, and a call fails. A call of files is counted with those of the
/// save, which are five.
macro_rules! cut {
    ($failing:expr, $puts:expr, $text:expr, $after:expr) => {
        Row {
            line: "resume s.nwq f.git",
            base: Base::Saved,
            left: true,
            failing: $failing,
            status: Status::Fault,
            puts: Some($puts),
            text: $text,
            after: $after,
            ..PLAIN
        }
    };
}

/// Each call of `resume` that fails, after a save.
pub const RESUMES: &[Row] = &[
    FIRST,
    cut!(Failing::File(5), 0, "", NO_AREA),
    FIRST,
    cut!(Failing::File(6), 1, "1000 #0 print 1\n", NO_AREA),
    FIRST,
    cut!(Failing::Put(0), 1, "", NO_AREA),
    FIRST,
    cut!(Failing::Put(1), 2, "1000 #0 print 1\n", AN_AREA),
];

/// Saves and resumed plays, each by itself.
pub const ROWS: &[Row] = &[
    FIRST,
    // No further entry is due.
    Row {
        line: "save - a.git x.plan 1000000 s.nwq",
        base: Base::Saved,
        puts: Some(3),
        text: "0 #0 print 2\n1000 #0 print 1\nsaved s.nwq entries 2\n",
        after: &[("s.nwq", Held::Something), ("p.ncs", Held::Something)],
        ..PLAIN
    },
    // Where an entry is stopped no state is written.
    Row {
        line: "save - a.git x.plan 1 s.nwq",
        own: &[PLAN_OF_ONE, LOOP, GUARDED, OLD],
        status: Status::Limit,
        text: "end instructions clock 0 entries 1 instructions 131072\n",
        after: &[("p.ncs", Held::Something)],
        ..PLAIN
    },
    Row {
        line: "save - a.git x.plan 1 s.nwq",
        own: &[PLAN_OF_ONE, GUARDED, OLD],
        status: Status::Missing,
        text: "missing p.nss\n",
        ..PLAIN
    },
    // The reads of plan, script and area are the first three calls, the file of the script is
    // written before the area is read, and the state comes last.
    Row {
        line: "save - a.git x.plan 1 s.nwq",
        base: Base::Saved,
        failing: Failing::File(4),
        status: Status::Fault,
        text: "0 #0 print 2\n",
        after: &[("p.ncs", Held::Something)],
        ..PLAIN
    },
    Row {
        line: "save - a.git x.plan 1 s.nwq",
        base: Base::Saved,
        failing: Failing::Put(0),
        status: Status::Fault,
        after: &[("p.ncs", Held::Something)],
        ..PLAIN
    },
    Row {
        line: "save - a.git x.plan 0 s.nwq",
        own: &[PLAN_OF_ONE, DEFERS, GUARDED],
        status: Status::Words,
        text: "refused words\n",
        ..PLAIN
    },
    Row {
        line: "resume s.nwq f.git",
        own: &[BEGUN],
        status: Status::Area,
        text: "refused s.nwq state 0\n",
        after: &[("f.git", Held::Nothing)],
        ..PLAIN
    },
    Row {
        line: "resume s.nwq f.git",
        status: Status::Missing,
        text: "missing s.nwq\n",
        after: &[("f.git", Held::Nothing)],
        ..PLAIN
    },
    Row {
        line: "resume s.nwq f.git",
        own: &[BEGUN],
        failing: Failing::File(0),
        status: Status::Fault,
        after: &[("f.git", Held::Nothing)],
        ..PLAIN
    },
];
