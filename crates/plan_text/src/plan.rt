use nwq_value::{Items, Randoms, Text};

/// A script that a plan lists.
#[derive(Drop)]
pub struct Script {
    /// 1 to 16 of the characters a to z, 0 to 9 and `_`.
    pub name: Text,
    /// Whether it is there as a binary, and not as a source.
    pub binary: bool,
}

/// Something that is due at a time, in milliseconds.
#[derive(Drop)]
pub enum Line {
    /// An event of an object: the script in its field of this label. The object is the `nth` of
    /// those with the tag, counted from 0.
    Event {
        due: u64,
        nth: u32,
        label: Text,
        tag: Text,
    },
    /// The start of a script for the `nth` object of a tag, counted from 0.
    Start {
        due: u64,
        nth: u32,
        name: Text,
        tag: Text,
    },
    /// The start of a script for no object.
    Free {
        due: u64,
        name: Text,
    },
}

/// The scripts of a plan, no two of one name.
pub type Listed = Items<Script>;

/// The events and starts of a plan in the order of their lines.
pub type Planned = Items<Line>;

/// What a play has besides its area.
pub struct Plan {
    /// 1 or 2.
    pub version: u8,
    /// How many instructions an entry takes at most: 1 to 16,777,216.
    pub limit: u64,
    /// How many entries the play takes at most: 1 to 1,000,000.
    pub entries: u64,
    /// The last time at which an entry is taken, in milliseconds: 0 to 4,294,967,295.
    pub until: u64,
    /// The numbers that the play draws, at most 65,536.
    pub random: Randoms,
    /// The scripts of the play, at most 256.
    pub scripts: Listed,
    /// The entries that are due from the start, at most 65,536.
    pub events: Planned,
}

impl Drop for Plan {
    fn drop(self) {
        let Plan {
            version: _,
            limit: _,
            entries: _,
            until: _,
            random,
            scripts,
            events,
        } = self;
        drop(random);
        drop(scripts);
        drop(events);
    }
}
