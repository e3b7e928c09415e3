ghost use Rattle.std.specs.Prelude.{◌≡◌};
ghost use Rattle.delay_agenda.specs.Order.{comes_before, is_before};
ghost use Rattle.delay_agenda.specs.Queues.{turning};
ghost use Rattle.delay_agenda.specs.Waiting.{is_turn_of};

use nwq_value::Text;

/// What is to run.
#[derive(Drop)]
pub enum Kind<X> {
    /// An event of an object: the script of this name runs there, and may ask for the user number.
    Event {
        object: u32,
        script: Text,
        user: i32,
    },
    /// Stored code, as AssignCommand and DelayCommand leave it, that runs as this object.
    Stored {
        object: u32,
        action: X,
    },
    /// The object turns to the next action of its queue.
    Turn {
        object: u32,
    },
    /// The effect that stands on the object under this entry's number ends.
    Unapply {
        object: u32,
    },
}

/// One piece of delayed work: when it is due, in milliseconds, and which post made it, counted from
/// 0.
#[derive(Drop)]
pub struct Entry<X> {
    pub due: u64,
    pub number: u64,
    pub kind: Kind<X>,
}

/// Whether what is due then, under this number, is taken before an entry.
pub(crate) fn comes_before<X>(due: u64, number: u64, other: &Entry<X>) -> bool
    ensures test { result ≡ comes_before due number other.now }
{
    due < other.due || due == other.due && number < other.number
}

impl<X> Entry<X> {
    /// Whether this entry is taken before the other: it is due earlier, or at one time has the
    /// lesser number.
    pub(crate) fn comes_before(&self, other: &Entry<X>) -> bool
        ensures test { result ≡ is_before self.now other.now }
    {
        comes_before(self.due, self.number, other)
    }

    /// The object whose Turn this is.
    pub(crate) fn turning(&self) -> Option<u32>
        ensures object { result ≡ turning self.now.kind }
    {
        match &self.kind {
            Kind::Turn { object } => Some(*object),
            Kind::Event { .. } | Kind::Stored { .. } | Kind::Unapply { .. } => None,
        }
    }

    /// Whether this is a Turn of the object.
    pub(crate) fn is_turn_of(&self, object: u32) -> bool
        ensures test { result ≡ is_turn_of object self.now }
    {
        match &self.kind {
            Kind::Turn { object: turning } => *turning == object,
            Kind::Event { .. } | Kind::Stored { .. } | Kind::Unapply { .. } => false,
        }
    }
}
