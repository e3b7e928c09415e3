//! What is kept of an entry's begin, for what is remarked where it ends before its end.
ghost use Rattle.std.specs.Prelude.{◌≡◌, ◌<◌, ◌++◌, ◌∷◌, [], length};
ghost use Rattle.ncs_machine.specs.Remarks.{begun_as, most_cells, spot_of};

use machine_frames::Frame;
use play_remarks::Spot;
use std::marker::Model;

/// How many cells at most are looked at for ints.
const MOST_CELLS: usize = 8;

/// Where an entry began, and the ints among the topmost cells that it began with. They are copied
/// at its begin, since a run writes to its cells, and into an array, which takes no memory.
#[derive(Drop)]
pub(crate) struct Begun {
    spot: Spot,
    ints: [i32; 8],
    count: usize,
}

impl Model for Begun {
    ghost use Rattle.std.specs.Prelude.{◌≤◌, take};
    ghost use Rattle.ncs_machine.specs.Remarks.{Begun as BegunView, most_cells};

    ghost Value = { BegunView };

    ghost view = { λ b. record { spot = b.spot; ints = take b.count b.ints } };

    ghost invariant = { λ b. b.count ≤ most_cells };
}

/// Where the next instruction of a script stands.
pub(crate) fn spot_of(frame: &Frame) -> Spot
    ensures spot { result ≡ spot_of frame.now }
{
    Spot {
        script: frame.script(),
        place: frame.place(),
    }
}

impl Begun {
    /// An entry that begins with this frame.
    pub(crate) fn of(frame: &Frame) -> Begun
        ensures begun { result ≡ begun_as frame.now }
    {
        let mut begun = Begun {
            spot: spot_of(frame),
            ints: [0; MOST_CELLS],
            count: 0,
        };
        let cells = frame.height().min(MOST_CELLS);
        for i in 0..cells {
            match frame.int_at(cells - 1 - i) {
                Some(n) => begun.put(n),
                None => {}
            }
        }
        begun
    }

    /// Puts an int last.
    fn put(&mut self, n: i32)
        requires few { length self.old.ints < most_cells }
        ensures put { self.new ≡ record self.old { ints = self.old.ints ++ n ∷ [] } }
    {
        self.ints[self.count] = n;
        self.count += 1;
    }

    /// Where it began.
    pub(crate) fn spot(&self) -> Spot
        ensures spot { result ≡ self.now.spot }
    {
        self.spot
    }

    /// The ints that it began with.
    pub(crate) fn ints(&self) -> &[i32]
        ensures ints { result.now ≡ self.now.ints }
    {
        &self.ints[..self.count]
    }
}
