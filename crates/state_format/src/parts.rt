use nwq_value::Items;

/// An effect: the number of the routine that made it, and that routine's integer arguments.
#[derive(Drop)]
pub struct Effect {
    pub routine: u16,
    pub ints: Items<i32>,
}

/// What a cell of a captured state holds. No captured state has a base cell.
#[derive(Drop)]
pub enum Cell {
    Int(i32),
    Text(Items<u8>),
    Object(u32),
    Effect(Effect),
    Event(i32),
}

/// A captured state: the number of its script, the place at which it resumes, and the cells of its
/// globals and locals.
#[derive(Drop)]
pub struct Captured {
    pub script: u32,
    pub place: u32,
    pub globals: Items<Cell>,
    pub locals: Items<Cell>,
}

/// A local variable of an object, its name first.
#[derive(Drop)]
pub enum Variable {
    Int(Items<u8>, i32),
    Text(Items<u8>, Items<u8>),
}

/// An effect that stands on an object, with the number of the entry that ends it.
#[derive(Drop)]
pub struct Standing {
    pub number: Option<u64>,
    pub effect: Effect,
}

/// One action that an object is to do.
#[derive(Drop)]
pub enum Item {
    Do(Captured),
    Wait(i32),
    Speak(Items<u8>),
}

/// An object beside the area: whether it is busy, its variables, the effects that stand on it, and
/// its actions, the next one first.
#[derive(Drop)]
pub struct Object {
    pub busy: bool,
    pub variables: Items<Variable>,
    pub effects: Items<Standing>,
    pub items: Items<Item>,
}

/// What an entry of the agenda does.
#[derive(Drop)]
pub enum KindPart {
    Event {
        object: u32,
        script: Items<u8>,
        user: i32,
    },
    Stored {
        object: u32,
        state: Captured,
    },
    Turn {
        object: u32,
    },
    Unapply {
        object: u32,
    },
}

/// An entry of the agenda: when it is due, its number, and what it does.
#[derive(Drop)]
pub struct Entry {
    pub due: u64,
    pub number: u64,
    pub kind: KindPart,
}

/// A listed script: its name, and the bytes of its code file.
#[derive(Drop)]
pub struct Script {
    pub name: Items<u8>,
    pub code: Items<u8>,
}

/// The parts of a state.
#[derive(Drop)]
pub struct Parts {
    /// The bytes of the header, where it isn't the built-in one.
    pub header: Option<Items<u8>>,
    pub scripts: Items<Script>,
    /// The area's file as it was first read.
    pub area: Items<u8>,
    pub version: u8,
    /// How many instructions an entry may execute, how many entries may be taken, and until when.
    pub limit: u64,
    pub entries: u64,
    pub until: u64,
    pub clock: u64,
    /// How many entries were taken, and how many instructions executed.
    pub taken: u64,
    pub done: u64,
    /// The number of the next post.
    pub next: u64,
    /// The random numbers left.
    pub random: Items<u32>,
    pub objects: Items<Object>,
    pub agenda: Items<Entry>,
}
