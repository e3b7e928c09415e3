//! What a jump out of a statement takes off.

ghost use Rattle.std.specs.Prelude.{◌≡◌};
ghost use Rattle.code_places.specs.Marks as marks;

/// Whether cells lie in the frame where a statement begins, and whether `break` and `continue`
/// take some off.
#[derive(Clone, Copy)]
pub(crate) struct Frame {
    pub filled: bool,
    pub breaks: bool,
    pub continues: bool,
}

/// The frame of a function whose parameters have cells, or none.
pub(crate) fn first_frame(any: bool) -> Frame
    ensures { result ≡ marks.first_frame any }
{
    Frame {
        filled: any,
        breaks: any,
        continues: any,
    }
}

/// The frame behind a declaration of cells, or none.
pub(crate) fn deeper(frame: Frame, any: bool) -> Frame
    ensures { result ≡ marks.deeper frame any }
{
    if any {
        Frame {
            filled: true,
            breaks: true,
            continues: true,
        }
    } else {
        frame
    }
}

/// The frame in a loop.
pub(crate) fn loop_frame(frame: Frame) -> Frame
    ensures { result ≡ marks.loop_frame frame }
{
    Frame {
        filled: frame.filled,
        breaks: false,
        continues: false,
    }
}

/// The frame in a switch, whose selector lies on top.
pub(crate) fn switch_frame() -> Frame
    ensures { result ≡ marks.switch_frame }
{
    Frame {
        filled: true,
        breaks: false,
        continues: true,
    }
}
