//! States as tables can write them.

/// A text: these bytes, so many times.
#[derive(Clone, Copy)]
pub struct Words(pub &'static [u8], pub usize);

/// A script's code file: one of `bases`, what an assembler text stands for, or its very bytes.
#[derive(Clone, Copy)]
pub enum Code {
    Tells,
    Prints,
    Delays,
    Nothing,
    Deep,
    Text(&'static [u8]),
    Bytes(&'static [u8]),
}

/// A script: its name and its code file.
#[derive(Clone, Copy)]
pub struct Script(pub Words, pub Code);

/// A cell. The effect is what routine 26 makes of the int 3.
#[derive(Clone, Copy)]
pub enum Cell {
    Int(i32),
    Text(Words),
    Object(u32),
    Effect,
    Event(i32),
}

/// A captured state: the number of its script, its place, and the cells of its globals and locals.
#[derive(Clone, Copy)]
pub struct Captured(pub u32, pub u32, pub &'static [Cell], pub &'static [Cell]);

#[derive(Clone, Copy)]
pub enum Variable {
    Int(Words, i32),
    Text(Words, Words),
}

#[derive(Clone, Copy)]
pub enum Item {
    Do(Captured),
    Wait(i32),
    Speak(Words),
}

/// An object: whether it is busy, its variables, of each effect that stands on it the number where
/// it has one, and its actions.
#[derive(Clone, Copy)]
pub struct Object(
    pub bool,
    pub &'static [Variable],
    pub &'static [Option<u64>],
    pub &'static [Item],
);

#[derive(Clone, Copy)]
pub enum Kind {
    Event(u32, Words, i32),
    Stored(u32, Captured),
    Turn(u32),
    Unapply(u32),
}

/// An entry: when it is due, its number, and what it does.
#[derive(Clone, Copy)]
pub struct Entry(pub u64, pub u64, pub Kind);

/// What a state has behind its own: a script, variables and actions of its first object, and an
/// entry.
#[derive(Clone, Copy)]
pub struct Besides {
    pub script: Option<Script>,
    pub variables: &'static [Variable],
    pub items: &'static [Item],
    pub entry: Option<Entry>,
}

/// A state. Behind all its scripts stand so many `more` that do nothing.
#[derive(Clone, Copy)]
pub struct Sketch {
    pub header: Option<&'static [u8]>,
    pub scripts: &'static [Script],
    pub more: usize,
    pub area: &'static [u8],
    pub version: u8,
    pub limit: u64,
    pub entries: u64,
    pub until: u64,
    pub clock: u64,
    pub taken: u64,
    pub done: u64,
    pub next: u64,
    pub random: usize,
    pub objects: &'static [Object],
    pub agenda: &'static [Entry],
    pub besides: Besides,
}
