ghost use Rattle.std.specs.Prelude.{◌≡◌, ◌++◌, codes, decimal, OnOk, IfOk};
ghost use Rattle.nwq_text.specs.Escape.{escaped};
ghost use Rattle.command_files.specs.Texts.{done_line};

use nwq_text::{put_count, put_text};
use nwq_value::NoMemory;
use std::alloc::Global;

fn put_ascii(out: &mut Vec<u8>, text: &str) -> Result<(), NoMemory>
    ensures { OnOk result (out.new.items ≡ out.old.items ++ text.now) }
{
    out.extend_from_slice(text.as_bytes())?;
    Ok(())
}

/// The line that tells what was done to a file, with a number.
pub fn done_line(alloc: Global, done: &str, name: &[u8], count: u64) -> Result<Vec<u8>, NoMemory>
    ensures { IfOk result (λ text. text.items ≡ done_line done.now name.now count) }
{
    let mut text = Vec::new(alloc);
    put_ascii(&mut text, done)?;
    put_text(&mut text, name)?;
    put_ascii(&mut text, " ")?;
    put_count(&mut text, count)?;
    put_ascii(&mut text, "\n")?;
    Ok(text)
}
