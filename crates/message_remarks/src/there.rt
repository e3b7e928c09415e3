//! A note on a place of a script's code, in its sources.

ghost use Rattle.std.specs.Prelude.{◌≡◌, ◌++◌, ◌≤◌, length, false, true, IfOk, OnOk};
ghost use Rattle.std.specs.Fmt.{decimal};
ghost use Rattle.nwq_text.specs.Line.{line_number};
ghost use Rattle.nwq_value.specs.Limits.{file_limit};
ghost use Rattle.nss_tree.specs.Reading.{plain_tree};
ghost use Rattle.typing_rules.specs.UnitReading.{typed_unit};
ghost use Rattle.message_text.specs.Shown.{Appends};
ghost use Rattle.message_sentences.specs.Form.{ShowsSpot};
ghost use Rattle.message_remarks.specs.There.{ShowsLine, ShowsThere};

use crate::words::put_function;
use message_sentences::{put_name, put_plain, put_words};
use message_text::{column, put_place};
use nwq_text::{line_of, put_count};
use nwq_value::NoMemory;
use run_places::{Compiled, Spot, function_at, spot_at};
use std::alloc::Global;

/// What is said of a place of a script's code: before the words for its function, and behind them.
#[derive(Clone, Copy)]
pub(crate) struct Saying<'a> {
    pub at: u32,
    pub before: &'a [u8],
    /// Whether the place lies in a deferred action, and not in a call of the function.
    pub in_action: bool,
    pub behind: &'a [u8],
    /// Whether the line follows, with the caret.
    pub shows_line: bool,
}

/// Appends the number of the line of a place.
fn put_line_number(out: &mut Vec<u8>, bytes: &[u8], at: u32) -> Result<(), NoMemory>
    requires size { length bytes.now ≤ file_limit }
    requires place { at ≤ length bytes.now }
    ensures { OnOk result (out.new.items ≡ out.old.items ++ decimal (line_number bytes.now at)) }
{
    put_count(out, u64::from(line_of(bytes, at)))
}

/// Appends the name of a file, and the line and column of a place of it.
fn put_spot(out: &mut Vec<u8>, name: &[u8], bytes: &[u8], at: u32) -> Result<(), NoMemory>
    requires size { length bytes.now ≤ file_limit }
    requires place { at ≤ length bytes.now }
    ensures shows { OnOk result (Appends (ShowsSpot name.now bytes.now at)
        out.old.items out.new.items) }
{
    put_name(out, name)?;
    put_words(out, ":")?;
    put_line_number(out, bytes, at)?;
    put_words(out, ":")?;
    put_count(out, column(bytes, at as usize))
}

/// Appends the line of a place with the caret, or nothing.
#[tactic(auto, using(crate::proofs::Shown::line_shown, crate::proofs::Shown::no_line))]
fn put_line(out: &mut Vec<u8>, spot: Spot<'_>, shows: bool) -> Result<(), NoMemory>
    requires place { spot.at ≤ length spot.bytes.now }
    ensures shows { OnOk result (Appends (ShowsLine shows spot.entry.bytes.now spot.entry.at)
        out.old.items out.new.items) }
{
    if shows {
        put_place(out, spot.bytes, spot.at as usize)
    } else {
        Ok(())
    }
}

/// Appends a note on a place of a script's code. Whether a node's code is there.
#[tactic(auto, using(crate::proofs::Shown::there_shown))]
pub(crate) fn put_there(
    alloc: Global,
    out: &mut Vec<u8>,
    script: &Compiled,
    saying: Saying<'_>,
) -> Result<bool, NoMemory>
    ensures shows { IfOk result (λ told. told ≡ true → Appends
        (ShowsThere script.now.unit (plain_tree script.now.tree) (typed_unit script.now.typed)
        saying.entry.at) out.old.items out.new.items) }
    ensures none { IfOk result (λ told. told ≡ false → out.new.items ≡ out.old.items) }
{
    let Some(spot) = spot_at(alloc, script, saying.at)? else {
        return Ok(false);
    };
    put_spot(out, spot.name, spot.bytes, spot.at)?;
    put_words(out, ": note: ")?;
    put_plain(out, saying.before)?;
    put_function(out, function_at(script, saying.at), saying.in_action)?;
    put_plain(out, saying.behind)?;
    put_words(out, "\n")?;
    put_line(out, spot, saying.shows_line)?;
    Ok(true)
}
