ghost use Rattle.std.specs.Prelude.{◌≡◌, ◌<◌, ◌^◌};
ghost use Rattle.ncs_code.specs.File.{jump_place};

/// The place that a jump leads to, by its distance from its own start; 0, where no instruction
/// begins, for a jump to before the file.
pub fn jump_place(at: u32, offset: i32) -> u32
    requires fits { at < 2 ^ 31 }
    ensures place { result ≡ jump_place at offset }
{
    at.saturating_add_signed(offset)
}
