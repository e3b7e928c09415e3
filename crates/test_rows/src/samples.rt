//! Files that many rows are over.

use byteorder::{ByteOrder, LittleEndian};
use nwq_value::NoMemory;
use std::alloc::Global;

/// A file by its name: rows name it in place of its bytes.
#[derive(Clone, Copy)]
pub enum Sample {
    /// A GFF file, and an area without objects: one struct 4294967295 with a BYTE `A` of 7.
    Tree,
    /// An area without objects: one struct without fields.
    Empty,
    /// The tree, where the field is a BYTE `TriggerList`, which is no list of objects.
    Broken,
    /// An area with a creature `guard`, whose heartbeat is `tick`.
    Guard,
    /// The same, where the creature has a variable `count` of 5.
    Five,
    /// The same, where the variable is 7.
    Seven,
    /// An area with a creature whose tag is `0`.
    Zero,
    /// The area of the guard, who runs `usr` when an event is signalled.
    Notified,
    /// An area with a goblin, who has a name in two languages and variables of three types, `num`
    /// of 5 among them, with fields of most types, and another creature.
    Goblin,
    /// The same, where `num` is 41.
    ChangedGoblin,
    /// The file of bytecode of `void main() {}`: a call of the code behind it, and two returns.
    Nothing,
    /// The text of that file.
    Listing,
    /// That of `void main() { PrintInteger(2+3); }` under the built-in header.
    Sum,
    /// The same under a header whose first routine is `PrintInteger`.
    FirstSum,
    /// The file of bytecode of `tick` under the built-in header: `Say` begins at byte 21, `main` at
    /// 70.
    Tick,
}

/// Its bytes.
pub fn bytes_of(sample: Sample) -> &'static [u8] {
    match sample {
        Sample::Tree => TREE,
        Sample::Empty => EMPTY,
        Sample::Broken => BROKEN,
        Sample::Guard => GUARD,
        Sample::Five => FIVE,
        Sample::Seven => SEVEN,
        Sample::Zero => ZERO,
        Sample::Notified => NOTIFIED,
        Sample::Goblin => GOBLIN,
        Sample::ChangedGoblin => CHANGED_GOBLIN,
        Sample::Nothing => NOTHING,
        Sample::Listing => LISTING,
        Sample::Sum => SUM,
        Sample::FirstSum => FIRST_SUM,
        Sample::Tick => TICK,
    }
}

const TREE: &[u8] = b"\
    GIT V3.28\0\0\0\x01\0\0\0D\0\0\0\x01\0\0\0P\0\0\0\x01\0\0\0\
    `\0\0\0\0\0\0\0`\0\0\0\0\0\0\0`\0\0\0\0\0\0\0\xff\xff\xff\xff\0\0\0\0\x01\0\0\0\
    \0\0\0\0\0\0\0\0\x07\0\0\0A\0\0\0\0\0\0\0\0\0\0\0\0\0\0\0";

const EMPTY: &[u8] = b"\
    GIT V3.28\0\0\0\x01\0\0\0D\0\0\0\0\0\0\0D\0\0\0\0\0\0\0D\0\0\0\0\0\0\0D\0\0\0\0\0\0\0D\0\0\0\0\
    \0\0\0\xff\xff\xff\xff\xff\xff\xff\xff\0\0\0\0";

const BROKEN: &[u8] = b"\
    GIT V3.28\0\0\0\x01\0\0\0D\0\0\0\x01\0\0\0P\0\0\0\x01\0\0\0\
    `\0\0\0\0\0\0\0`\0\0\0\0\0\0\0`\0\0\0\0\0\0\0\xff\xff\xff\xff\0\0\0\0\x01\0\0\0\
    \0\0\0\0\0\0\0\0\x07\0\0\0TriggerList\0\0\0\0\0";

const GUARD: &[u8] = b"\
    GIT V3.28\0\0\0\x02\0\0\0P\0\0\0\x03\0\0\0t\0\0\0\x03\0\0\0\
    \xa4\0\0\0\x0e\0\0\0\xb2\0\0\0\x08\0\0\0\xba\0\0\0\x08\0\0\0\
    \xff\xff\xff\xff\0\0\0\0\x01\0\0\0\x04\0\0\0\0\0\0\0\x02\0\0\0\x0f\0\0\0\0\0\0\0\0\0\0\0\
    \x0a\0\0\0\x01\0\0\0\0\0\0\0\x0b\0\0\0\x02\0\0\0\x09\0\0\0Creature List\0\0\0\
    Tag\0\0\0\0\0\0\0\0\0\0\0\0\0ScriptHeartbeat\0\x05\0\0\0guard\x04tick\x01\0\0\0\x02\0\0\0\
    \x01\0\0\0\x01\0\0\0";

const FIVE: &[u8] = b"\
    GIT V3.28\0\0\0\x03\0\0\0\\\0\0\0\x07\0\0\0\xb0\0\0\0\x07\0\0\0\
    \x20\x01\0\0\x17\0\0\0\x37\x01\0\0\x18\0\0\0O\x01\0\0\x10\0\0\0\
    \xff\xff\xff\xff\0\0\0\0\x01\0\0\0\
    \x04\0\0\0\0\0\0\0\x03\0\0\0\0\0\0\0\x0c\0\0\0\x03\0\0\0\x0f\0\0\0\0\0\0\0\0\0\0\0\
    \x0a\0\0\0\x01\0\0\0\0\0\0\0\x0b\0\0\0\x02\0\0\0\x09\0\0\0\x0f\0\0\0\x03\0\0\0\x08\0\0\0\
    \x0a\0\0\0\x04\0\0\0\x0e\0\0\0\x04\0\0\0\x05\0\0\0\x01\0\0\0\x05\0\0\0\x06\0\0\0\x05\0\0\0\
    Creature List\0\0\0Tag\0\0\0\0\0\0\0\0\0\0\0\0\0ScriptHeartbeat\0VarTable\0\0\0\0\0\0\0\0\
    Name\0\0\0\0\0\0\0\0\0\0\0\0Type\0\0\0\0\0\0\0\0\0\0\0\0Value\0\0\0\0\0\0\0\0\0\0\0\
    \x05\0\0\0guard\x04tick\x05\0\0\0count\
    \x01\0\0\0\x02\0\0\0\x03\0\0\0\x04\0\0\0\x05\0\0\0\x06\0\0\0\
    \x01\0\0\0\x01\0\0\0\x01\0\0\0\x02\0\0\0";

const SEVEN: &[u8] = b"\
    GIT V3.28\0\0\0\x03\0\0\0\\\0\0\0\x07\0\0\0\xb0\0\0\0\x07\0\0\0\
    \x20\x01\0\0\x17\0\0\0\x37\x01\0\0\x18\0\0\0O\x01\0\0\x10\0\0\0\
    \xff\xff\xff\xff\0\0\0\0\x01\0\0\0\
    \x04\0\0\0\0\0\0\0\x03\0\0\0\0\0\0\0\x0c\0\0\0\x03\0\0\0\x0f\0\0\0\0\0\0\0\0\0\0\0\
    \x0a\0\0\0\x01\0\0\0\0\0\0\0\x0b\0\0\0\x02\0\0\0\x09\0\0\0\x0f\0\0\0\x03\0\0\0\x08\0\0\0\
    \x0a\0\0\0\x04\0\0\0\x0e\0\0\0\x04\0\0\0\x05\0\0\0\x01\0\0\0\x05\0\0\0\x06\0\0\0\x07\0\0\0\
    Creature List\0\0\0Tag\0\0\0\0\0\0\0\0\0\0\0\0\0ScriptHeartbeat\0VarTable\0\0\0\0\0\0\0\0\
    Name\0\0\0\0\0\0\0\0\0\0\0\0Type\0\0\0\0\0\0\0\0\0\0\0\0Value\0\0\0\0\0\0\0\0\0\0\0\
    \x05\0\0\0guard\x04tick\x05\0\0\0count\
    \x01\0\0\0\x02\0\0\0\x03\0\0\0\x04\0\0\0\x05\0\0\0\x06\0\0\0\
    \x01\0\0\0\x01\0\0\0\x01\0\0\0\x02\0\0\0";

const NOTHING: &[u8] = b"NCS V1.0B\0\0\0\x17\x1e\0\0\0\0\x08 \0 \0";

const SUM: &[u8] = b"NCS V1.0B\0\0\0\x2a\x1e\0\0\0\0\x08 \0\
    \x04\x03\0\0\0\x02\x04\x03\0\0\0\x03\x14 \x05\0\0\x04\x01 \0";

const FIRST_SUM: &[u8] = b"NCS V1.0B\0\0\0\x2a\x1e\0\0\0\0\x08 \0\
    \x04\x03\0\0\0\x02\x04\x03\0\0\0\x03\x14 \x05\0\0\0\x01 \0";

const TICK: &[u8] = b"\
    NCS V1.0B\0\0\0\xcb\x1e\0\0\0\0\x39 \0\x04\x05\0\x06round \
    \x03\x01\xff\xff\xff\xf8\0\x04\x05\0\0\x1d\x01\x14#\x01\x01\xff\xff\xff\xf4\0\x04\
    \x1b\0\xff\xff\xff\xf8 \0\x1b\0\xff\xff\xff\xfc \0\x04\x05\0\x05count\
    \x04\x06\0\0\0\0\x05\0\0\x11\x02\x04\x03\0\0\0\x01\x14 \
    \x03\x01\xff\xff\xff\xfc\0\x04\x04\x05\0\x05count\x04\x06\0\0\0\0\x05\0\0\x12\x03\
    \x04\x03\0\0\0\0\x02\x05\x03\x01\xff\xff\xff\xf4\0\x04\x1e\0\xff\xff\xff\x87\
    \x05\0\0\x0c\x02,\x10\0\0\0\0\0\0\0\x04\x1d\0\0\0\0\x15\
    \x03\x01\xff\xff\xff\xfc\0\x04\x05\0\0\x04\x01 \0\x04\x03\0\0\x17p\x05\0\0\x07\x02\
    \x1b\0\xff\xff\xff\xfc \0";

const ZERO: &[u8] = b"\
    GIT V3.28\0\0\0\x02\0\0\0P\0\0\0\x02\0\0\0h\0\0\0\x02\0\0\0\x88\0\0\0\x05\0\0\0\x8d\0\0\0\0\0\
    \0\0\x8d\0\0\0\x08\0\0\0\xff\xff\xff\xff\0\0\0\0\x01\0\0\0\x04\0\0\0\x01\0\0\0\x01\0\0\0\x0f\0\
    \0\0\0\0\0\0\0\0\0\0\n\0\0\0\x01\0\0\0\0\0\0\0Creature List\0\0\0Tag\0\0\0\0\0\0\0\0\0\0\0\0\0\
    \x01\0\0\00\x01\0\0\0\x01\0\0\0";

const NOTIFIED: &[u8] = b"\
    GIT V3.28\0\0\0\x02\0\0\0P\0\0\0\x04\0\0\0\x80\0\0\0\x04\0\0\0\xc0\0\0\0\x12\0\0\0\xd2\0\0\0\
    \x0c\0\0\0\xde\0\0\0\x08\0\0\0\xff\xff\xff\xff\0\0\0\0\x01\0\0\0\x04\0\0\0\0\0\0\0\x03\0\0\0\
    \x0f\0\0\0\0\0\0\0\0\0\0\0\n\0\0\0\x01\0\0\0\0\0\0\0\x0b\0\0\0\x02\0\0\0\x09\0\0\0\x0b\0\0\0\
    \x03\0\0\0\x0e\0\0\0Creature List\0\0\0Tag\0\0\0\0\0\0\0\0\0\0\0\0\0ScriptHeartbeat\0ScriptUse\
    rDefine\x05\0\0\0guard\x04tick\x03usr\x01\0\0\0\x02\0\0\0\x03\0\0\0\x01\0\0\0\x01\0\0\0";

const GOBLIN: &[u8] = b"\
    GIT V3.28\0\0\0\x08\0\0\0\x98\0\0\0\x18\0\0\0\xb8\x01\0\0\x11\0\0\0\xc8\x02\0\0n\0\0\06\x03\0\
    \0`\0\0\0\x96\x03\0\0 \0\0\0\xff\xff\xff\xff\0\0\0\0\x03\0\0\0d\0\0\0\x0c\0\0\0\x02\0\0\0\x04\
    \0\0\0\x14\0\0\0\x05\0\0\0\0\0\0\0(\0\0\0\x03\0\0\0\0\0\0\04\0\0\0\x03\0\0\0\0\0\0\0@\0\0\0\
    \x03\0\0\0\x04\0\0\0L\0\0\0\x02\0\0\0\x07\0\0\0T\0\0\0\x03\0\0\0\x0e\0\0\0\0\0\0\0\x01\0\0\0\
    \x0f\0\0\0\x01\0\0\0\0\0\0\0\x0f\0\0\0\x02\0\0\0\x0c\0\0\0\x05\0\0\0\x03\0\0\0\xff\xff\xff\xff\
    \x06\0\0\0\x04\0\0\0\0\0\0\0\n\0\0\0\x05\0\0\0\x08\0\0\0\x0c\0\0\0\x06\0\0\0\x0f\0\0\0\x08\0\0\
    \0\x07\0\0\0\xcd\xccL>\x0f\0\0\0\x08\0\0\0\x10\0\0\0\x03\0\0\0\x09\0\0\0\xfd\xff\0\0\n\0\0\0\n\
    \0\0\08\0\0\0\x04\0\0\0\x0b\0\0\0\x01\0\0\0\x05\0\0\0\x0c\0\0\0\x05\0\0\0\n\0\0\0\n\0\0\0?\0\0\
    \0\x04\0\0\0\x0b\0\0\0\x02\0\0\0\x08\0\0\0\x0c\0\0\0\0\0\x80?\n\0\0\0\n\0\0\0F\0\0\0\x04\0\0\0\
    \x0b\0\0\0\x03\0\0\0\n\0\0\0\x0c\0\0\0M\0\0\0\x0b\0\0\0\x05\0\0\0T\0\0\0\x0e\0\0\0\x0d\0\0\0\
    \x07\0\0\0\x0d\0\0\0\x0e\0\0\0X\0\0\0\x09\0\0\0\x0f\0\0\0^\0\0\0\x07\0\0\0\x10\0\0\0f\0\0\0Are\
    aProperties\0\0Creature List\0\0\0Door List\0\0\0\0\0\0\0AmbientSndDay\0\0\0Big\0\0\0\0\0\0\0\
    \0\0\0\0\0\0Tag\0\0\0\0\0\0\0\0\0\0\0\0\0FirstName\0\0\0\0\0\0\0XPosition\0\0\0\0\0\0\0VarTabl\
    e\0\0\0\0\0\0\0\0Hp\0\0\0\0\0\0\0\0\0\0\0\0\0\0Name\0\0\0\0\0\0\0\0\0\0\0\0Type\0\0\0\0\0\0\0\
    \0\0\0\0\0Value\0\0\0\0\0\0\0\0\0\0\0Body\0\0\0\0\0\0\0\0\0\0\0\0X\0\0\0\0\0\0\0\0\0\0\0\0\0\0\
    \0Y\0\0\0\0\0\0\0\0\0\0\0\0\0\0\0Z\0\0\0\0\0\0\0\0\0\0\0\0\0\0\0\x05\0\0\0\0\0\0\x80\x03\0\0\0\
    gob%\0\0\0\xff\xff\xff\xff\x02\0\0\0\0\0\0\0\x06\0\0\0Goblin\x02\0\0\0\x07\0\0\0Kobold\xe9\x03\
    \0\0\0num\x03\0\0\0flt\x03\0\0\0txt\x03\0\0\0old\x03orc\x02\0\0\0\x01\x0212345678\xfb\xff\xff\
    \xff\xff\xff\xff\xff\0\0\0\0\x01\0\0\0\x02\0\0\0\x03\0\0\0\x04\0\0\0\x05\0\0\0\x06\0\0\0\x07\0\
    \0\0\x08\0\0\0\x09\0\0\0\n\0\0\0\x0b\0\0\0\x0c\0\0\0\x0d\0\0\0\x0e\0\0\0\x0f\0\0\0\x10\0\0\0\
    \x11\0\0\0\x12\0\0\0\x13\0\0\0\x14\0\0\0\x15\0\0\0\x16\0\0\0\x17\0\0\0\x02\0\0\0\x02\0\0\0\x06\
    \0\0\0\0\0\0\0\x03\0\0\0\x03\0\0\0\x04\0\0\0\x05\0\0\0";

const CHANGED_GOBLIN: &[u8] = b"\
    GIT V3.28\0\0\0\x08\0\0\0\x98\0\0\0\x18\0\0\0\xb8\x01\0\0\x11\0\0\0\xc8\x02\0\0n\0\0\06\x03\0\
    \0`\0\0\0\x96\x03\0\0 \0\0\0\xff\xff\xff\xff\0\0\0\0\x03\0\0\0d\0\0\0\x0c\0\0\0\x02\0\0\0\x04\
    \0\0\0\x14\0\0\0\x05\0\0\0\0\0\0\0(\0\0\0\x03\0\0\0\0\0\0\04\0\0\0\x03\0\0\0\0\0\0\0@\0\0\0\
    \x03\0\0\0\x04\0\0\0L\0\0\0\x02\0\0\0\x07\0\0\0T\0\0\0\x03\0\0\0\x0e\0\0\0\0\0\0\0\x01\0\0\0\
    \x0f\0\0\0\x01\0\0\0\0\0\0\0\x0f\0\0\0\x02\0\0\0\x0c\0\0\0\x05\0\0\0\x03\0\0\0\xff\xff\xff\xff\
    \x06\0\0\0\x04\0\0\0\0\0\0\0\n\0\0\0\x05\0\0\0\x08\0\0\0\x0c\0\0\0\x06\0\0\0\x0f\0\0\0\x08\0\0\
    \0\x07\0\0\0\xcd\xccL>\x0f\0\0\0\x08\0\0\0\x10\0\0\0\x03\0\0\0\x09\0\0\0\xfd\xff\0\0\n\0\0\0\n\
    \0\0\08\0\0\0\x04\0\0\0\x0b\0\0\0\x01\0\0\0\x05\0\0\0\x0c\0\0\0)\0\0\0\n\0\0\0\n\0\0\0?\0\0\0\
    \x04\0\0\0\x0b\0\0\0\x02\0\0\0\x08\0\0\0\x0c\0\0\0\0\0\x80?\n\0\0\0\n\0\0\0F\0\0\0\x04\0\0\0\
    \x0b\0\0\0\x03\0\0\0\n\0\0\0\x0c\0\0\0M\0\0\0\x0b\0\0\0\x05\0\0\0T\0\0\0\x0e\0\0\0\x0d\0\0\0\
    \x07\0\0\0\x0d\0\0\0\x0e\0\0\0X\0\0\0\x09\0\0\0\x0f\0\0\0^\0\0\0\x07\0\0\0\x10\0\0\0f\0\0\0Are\
    aProperties\0\0Creature List\0\0\0Door List\0\0\0\0\0\0\0AmbientSndDay\0\0\0Big\0\0\0\0\0\0\0\
    \0\0\0\0\0\0Tag\0\0\0\0\0\0\0\0\0\0\0\0\0FirstName\0\0\0\0\0\0\0XPosition\0\0\0\0\0\0\0VarTabl\
    e\0\0\0\0\0\0\0\0Hp\0\0\0\0\0\0\0\0\0\0\0\0\0\0Name\0\0\0\0\0\0\0\0\0\0\0\0Type\0\0\0\0\0\0\0\
    \0\0\0\0\0Value\0\0\0\0\0\0\0\0\0\0\0Body\0\0\0\0\0\0\0\0\0\0\0\0X\0\0\0\0\0\0\0\0\0\0\0\0\0\0\
    \0Y\0\0\0\0\0\0\0\0\0\0\0\0\0\0\0Z\0\0\0\0\0\0\0\0\0\0\0\0\0\0\0\x05\0\0\0\0\0\0\x80\x03\0\0\0\
    gob%\0\0\0\xff\xff\xff\xff\x02\0\0\0\0\0\0\0\x06\0\0\0Goblin\x02\0\0\0\x07\0\0\0Kobold\xe9\x03\
    \0\0\0num\x03\0\0\0flt\x03\0\0\0txt\x03\0\0\0old\x03orc\x02\0\0\0\x01\x0212345678\xfb\xff\xff\
    \xff\xff\xff\xff\xff\0\0\0\0\x01\0\0\0\x02\0\0\0\x03\0\0\0\x04\0\0\0\x05\0\0\0\x06\0\0\0\x07\0\
    \0\0\x08\0\0\0\x09\0\0\0\n\0\0\0\x0b\0\0\0\x0c\0\0\0\x0d\0\0\0\x0e\0\0\0\x0f\0\0\0\x10\0\0\0\
    \x11\0\0\0\x12\0\0\0\x13\0\0\0\x14\0\0\0\x15\0\0\0\x16\0\0\0\x17\0\0\0\x02\0\0\0\x02\0\0\0\x06\
    \0\0\0\0\0\0\0\x03\0\0\0\x03\0\0\0\x04\0\0\0\x05\0\0\0";

const LISTING: &[u8] = b"JSR 00 @21\nRETN 00\nRETN 00\n";

/// Parts of a front, so many of a byte, and a rest.
pub fn repeated(
    alloc: Global,
    fronts: &[&[u8]],
    byte: u8,
    count: usize,
    rest: &[u8],
) -> Result<Vec<u8>, NoMemory> {
    let mut bytes = Vec::new(alloc);
    for front in fronts {
        bytes.extend_from_slice(front)?;
    }
    let middle = vec![in alloc; byte; count]?;
    bytes.extend_from_slice(middle.as_slice())?;
    bytes.extend_from_slice(rest)?;
    Ok(bytes)
}

/// Bytes with these numbers in the four bytes from these places.
pub fn changed(alloc: Global, whole: &[u8], changes: &[(usize, u32)]) -> Result<Vec<u8>, NoMemory> {
    let mut bytes = Vec::from_slice(alloc, whole)?;
    for (place, n) in changes {
        if *place < bytes.len() && bytes.len() - *place >= 4 {
            LittleEndian::write_u32(&mut bytes[*place..], *n);
        }
    }
    Ok(bytes)
}
