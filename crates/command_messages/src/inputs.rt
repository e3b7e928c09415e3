//! The files that commands read, and the budgets that they can use up.

use command_words::Command;
use message_sentences::Budget;

/// What a command reads by its words.
#[derive(Clone, Copy)]
pub(crate) struct Inputs<'a> {
    pub header: Option<&'a str>,
    pub script: Option<&'a str>,
    pub area: Option<&'a str>,
    pub plan: Option<&'a str>,
    /// The state that it reads, or the one that it writes.
    pub state: Option<&'a str>,
    /// The list of tables.
    pub list: Option<&'a str>,
    /// Whether the command plays what it reads.
    pub plays: bool,
    /// The fixed budgets that the command can use up.
    pub budgets: &'static [Budget],
}

const NONE: &[Budget] = &[];

const STRINGS: &[Budget] = &[Budget::Strings];

const TREE: &[Budget] = &[Budget::Tree];

const SHAPES: &[Budget] = &[Budget::Shapes];

const STRINGS_SHAPES: &[Budget] = &[Budget::Strings, Budget::Shapes];

const TREE_SHAPES: &[Budget] = &[Budget::Tree, Budget::Shapes];

const ALL: &[Budget] = &[Budget::Strings, Budget::Tree, Budget::Shapes];

/// What a command reads that names no header.
fn without_header<'a>(budgets: &'static [Budget]) -> Inputs<'a> {
    Inputs {
        header: None,
        script: None,
        area: None,
        plan: None,
        state: None,
        list: None,
        plays: false,
        budgets,
    }
}

/// What a command reads that names a header, with its own budgets, or all of them: the built-in
/// header uses up none.
fn with_header<'a>(header: &'a str, own: &'static [Budget], all: &'static [Budget]) -> Inputs<'a> {
    let mut inputs = without_header(if header == "-" { own } else { all });
    inputs.header = Some(header);
    inputs
}

/// What the play of a plan reads.
fn of_plan<'a>(header: &'a str, area: &'a str, plan: &'a str, list: Option<&'a str>) -> Inputs<'a> {
    let mut inputs = with_header(header, TREE_SHAPES, ALL);
    inputs.area = Some(area);
    inputs.plan = Some(plan);
    inputs.list = list;
    inputs.plays = true;
    inputs
}

/// What the first entries of a plan read. They leave a state.
fn of_save<'a>(
    header: &'a str,
    area: &'a str,
    plan: &'a str,
    state: &'a str,
    list: Option<&'a str>,
) -> Inputs<'a> {
    let mut inputs = of_plan(header, area, plan, list);
    inputs.state = Some(state);
    inputs
}

fn of_run<'a>(header: &'a str, script: &'a str) -> Inputs<'a> {
    let mut inputs = with_header(header, SHAPES, STRINGS_SHAPES);
    inputs.script = Some(script);
    inputs.plays = true;
    inputs
}

fn of_compile<'a>(header: &'a str, script: &'a str) -> Inputs<'a> {
    let mut inputs = with_header(header, NONE, STRINGS);
    inputs.script = Some(script);
    inputs
}

/// What the rest of a play reads: header, scripts and area are in its state.
fn of_state<'a>(state: &'a str, list: Option<&'a str>) -> Inputs<'a> {
    let mut inputs = without_header(ALL);
    inputs.state = Some(state);
    inputs.list = list;
    inputs.plays = true;
    inputs
}

/// What a command reads by its words.
pub(crate) fn inputs_of<'a>(command: Command<'a>) -> Inputs<'a> {
    match command {
        Command::Run(header, script) => of_run(header, script),
        Command::Compile(header, script) => of_compile(header, script),
        Command::Check(header, _file) => with_header(header, SHAPES, STRINGS_SHAPES),
        Command::Play {
            header,
            area,
            plan,
            list,
            ..
        } => of_plan(header, area, plan, list),
        Command::Save {
            header,
            area,
            plan,
            state,
            list,
            ..
        } => of_save(header, area, plan, state, list),
        Command::Resume { state, list, .. } => of_state(state, list),
        Command::Tree(_file) => without_header(TREE),
        Command::Generate(_number) => without_header(SHAPES),
        Command::Disassemble(_file, _to) | Command::Assemble(_file, _to) => without_header(NONE),
        Command::NoForm => without_header(NONE),
    }
}
