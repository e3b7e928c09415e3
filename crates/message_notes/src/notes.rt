//! The notes on a plan and its area.

ghost use Rattle.std.specs.Prelude.{◌≡◌, ◌≤◌, ◌<◌, length, OnOk};
ghost use Rattle.nwq_value.specs.Limits.{file_limit};
ghost use Rattle.gff_tree.specs.Count.{node_count};
ghost use Rattle.gff_tree.specs.Whole.{plain_gff};
ghost use Rattle.message_text.specs.Shown.{Appends};
ghost use Rattle.message_notes.specs.Under.{field_place, IsUnder, ShowsLack};

use crate::lacks::{Aim, Lack, aims, lack_of};
use crate::objects::{has_lists, tree_in};
use area_tree::Area;
use gff_tree::{Gff, Node};
use message_sentences::{put_note, put_note_at};
use nwq_text::{Line as TextLine, Lines};
use nwq_value::NoMemory;
use plan_text::{Line, Plan};
use std::alloc::Global;

/// How many lines of a plan are noted at most.
const MOST_NOTES: u32 = 16;

/// A file that a play has read.
#[derive(Clone, Copy)]
pub struct Input<'a> {
    pub name: &'a [u8],
    pub bytes: &'a [u8],
}

/// Whether a line of a plan is an event or a start.
fn is_planned(line: &[u8]) -> bool {
    line.starts_with(b"event ") || line.starts_with(b"start ")
}

/// The lines of a plan that are events and starts.
fn planned_lines(alloc: Global, text: &[u8]) -> Result<Vec<TextLine<'_>>, NoMemory> {
    let mut all = Vec::new(alloc);
    let mut lines = Lines::of(text);
    while let Some(line) = lines.next_line() {
        if is_planned(line.bytes) {
            all.push(line)?;
        }
    }
    Ok(all)
}

/// Where a field of a line begins, counted from 0.
#[tactic(auto, using(crate::proofs::UnderLemmas::blank_passed, crate::proofs::UnderLemmas::other_passed, crate::proofs::UnderLemmas::field_here, crate::proofs::UnderLemmas::field_end))]
fn field_at(line: &[u8], field: u32) -> usize
    ensures { result ≡ field_place field line.now }
{
    let mut passed = 0u32;
    for (i, byte) in line.iter().enumerate() {
        if passed == field {
            return i;
        }
        if *byte == b' ' {
            passed = passed.saturating_add(1);
        }
    }
    line.len()
}

/// Where in a line the field begins that asks in vain.
#[tactic(auto, using(crate::proofs::UnderLemmas::tag_under, crate::proofs::UnderLemmas::number_under, crate::proofs::UnderLemmas::label_under))]
fn lack_at(line: &[u8], lack: Lack) -> usize
    ensures under { IsUnder lack line.now result }
{
    match lack {
        Lack::Tag => field_at(line, 4),
        Lack::Number => field_at(line, 2),
        Lack::Label => field_at(line, 3),
    }
}

fn sentence_of(line: &Line, lack: Lack) -> &'static str {
    match lack {
        Lack::Label => "the object has no field `%` for a script, so the event does nothing",
        Lack::Tag => match line {
            Line::Event { .. } => "no object has the tag `%`, so the event does nothing",
            _ => "no object has the tag `%`, so the script starts on none",
        },
        Lack::Number => match line {
            Line::Event { .. } =>
                "no object of this number has the tag `%`, so the event does nothing",
            _ => "no object of this number has the tag `%`, so the script starts on none",
        },
    }
}

/// The label or the tag that a line names.
fn piece_of(line: &Line, lack: Lack) -> &[u8] {
    match line {
        Line::Event { label, tag, .. } => {
            if matches!(lack, Lack::Label) {
                label.bytes()
            } else {
                tag.bytes()
            }
        }
        Line::Start { tag, .. } => tag.bytes(),
        Line::Free { .. } => b"",
    }
}

/// Appends the note on a line.
fn put_lack(
    out: &mut Vec<u8>,
    plan: Input<'_>,
    text: TextLine<'_>,
    line: &Line,
    lack: Lack,
) -> Result<(), NoMemory>
    requires size { length plan.bytes.now ≤ file_limit }
    ensures shows { OnOk result (Appends
        (ShowsLack plan.entry.name.now plan.entry.bytes.now text.entry.place text.entry.bytes.now
        lack) out.old.items out.new.items) }
{
    let field = lack_at(text.bytes, lack);
    let at = text.place.saturating_add(field).min(plan.bytes.len());
    put_note_at(
        out,
        plan.name,
        plan.bytes,
        at as u32,
        sentence_of(line, lack),
        piece_of(line, lack),
    )
}

/// Appends the notes on the lines of a plan.
fn put_lacks(
    out: &mut Vec<u8>,
    plan: Input<'_>,
    texts: &[TextLine<'_>],
    lines: &[Line],
    aims: &[Aim],
    top: &Node,
) -> Result<(), NoMemory>
    requires size { length plan.bytes.now ≤ file_limit }
{
    let mut noted = 0u32;
    for (i, line) in lines.iter().enumerate() {
        let (Some(text), Some(aim)) = (texts.get(i), aims.get(i)) else {
            return Ok(());
        };
        if let Some(lack) = lack_of(top, line, *aim) {
            if noted >= MOST_NOTES {
                return put_note(
                    out,
                    plan.name,
                    "further lines name what the area hasn't",
                    b"",
                );
            }
            noted += 1;
            put_lack(out, plan, *text, line, lack)?;
        }
    }
    Ok(())
}

/// Appends the notes on the lines of a plan, as it was read, over the area of a tree.
fn put_plan_notes(
    alloc: Global,
    out: &mut Vec<u8>,
    plan: Input<'_>,
    read: &Plan,
    tree: Gff,
) -> Result<(), NoMemory>
    requires size { length plan.bytes.now ≤ file_limit }
    requires few { node_count (plain_gff tree).top < 4294967296 }
{
    let Ok(area) = Area::of(alloc, tree) else {
        return Ok(());
    };
    let lines = read.events.as_slice();
    let aims = aims(alloc, &area, lines)?;
    let texts = planned_lines(alloc, plan.bytes)?;
    let (tree, objects) = area.into_parts();
    drop(objects);
    put_lacks(
        out,
        plan,
        texts.as_slice(),
        lines,
        aims.as_slice(),
        &tree.top,
    )
}

/// Appends the notes on the play of a plan, as it was read, over an area.
pub fn put_play_notes(
    alloc: Global,
    out: &mut Vec<u8>,
    plan: Input<'_>,
    read: &Plan,
    area: Input<'_>,
) -> Result<(), NoMemory>
    requires plan { length plan.bytes.now ≤ file_limit }
    requires area { length area.bytes.now ≤ file_limit }
{
    let Some(tree) = tree_in(alloc, area.bytes) else {
        return Ok(());
    };
    if !has_lists(&tree.top) {
        put_note(
            out,
            area.name,
            "the file has none of the lists of objects, as an `.are` file has none",
            b"",
        )?;
    }
    put_plan_notes(alloc, out, plan, read, tree)
}
