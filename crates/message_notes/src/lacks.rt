//! What a line of a plan asks for that the area hasn't.

use crate::objects::has_script;
use area_tree::Area;
use gff_tree::Node;
use nwq_value::NoMemory;
use plan_text::Line;
use std::alloc::Global;

/// The object that a line is for.
#[derive(Clone, Copy, Drop)]
pub(crate) enum Aim {
    /// The line names none.
    Free,
    /// No object has the tag.
    NoTag,
    /// Fewer objects have the tag than its number says.
    Few,
    /// The object of this number.
    Object(u32),
}

/// What a line asks for in vain.
#[derive(Clone, Copy)]
pub(crate) enum Lack {
    Tag,
    Number,
    Label,
}

fn aim_at(area: &Area, tag: &[u8], nth: u32) -> Aim {
    let Ok(nth) = i32::try_from(nth) else {
        return Aim::Few;
    };
    let number = area.by_tag(tag, nth);
    if number > 0 {
        Aim::Object(number)
    } else if area.by_tag(tag, 0) > 0 {
        Aim::Few
    } else {
        Aim::NoTag
    }
}

fn aim_of(area: &Area, line: &Line) -> Aim {
    match line {
        Line::Event { nth, tag, .. } => aim_at(area, tag.bytes(), *nth),
        Line::Start { nth, tag, .. } => aim_at(area, tag.bytes(), *nth),
        Line::Free { .. } => Aim::Free,
    }
}

/// The objects that these lines are for.
pub(crate) fn aims(alloc: Global, area: &Area, lines: &[Line]) -> Result<Vec<Aim>, NoMemory> {
    let mut all = Vec::new(alloc);
    for line in lines {
        all.push(aim_of(area, line))?;
    }
    Ok(all)
}

/// What a line asks for in vain in the area of this tree.
pub(crate) fn lack_of(top: &Node, line: &Line, aim: Aim) -> Option<Lack> {
    match aim {
        Aim::Free => None,
        Aim::NoTag => Some(Lack::Tag),
        Aim::Few => Some(Lack::Number),
        Aim::Object(number) => match line {
            Line::Event { label, .. } if !has_script(top, number, label.bytes()) => {
                Some(Lack::Label)
            }
            _ => None,
        },
    }
}
