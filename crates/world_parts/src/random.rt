//! Random numbers.
ghost use Rattle.std.specs.Prelude.{◌≡◌, length};
ghost use Rattle.nwq_value.specs.declared.value.Value.TheVariants as value;
ghost use Rattle.world_rules.specs.Rows.{drawn, gives};

use crate::parts::Parts;
use world_rules::at_least_zero;

impl<X: Drop> Parts<X> {
    /// How many random numbers are left.
    pub fn random_left(&self) -> usize
        ensures left { result ≡ length self.now.world.random }
    {
        self.random.len()
    }

    /// The next of the random numbers modulo `n`: 0 below 1, where none is taken, and once they are
    /// used up.
    #[tactic(auto, using(crate::proofs::RandomLemmas::drawn_by))]
    pub(crate) fn random(&mut self, n: i32) -> i32
        ensures drawn { gives (value.Int result) self.new.world ≡ drawn n self.old.world }
        ensures posts { self.new.posts ≡ self.old.posts }
    {
        let most = at_least_zero(n);
        if most == 0 {
            return 0;
        }
        match self.random.pop_front() {
            None => 0,
            Some(number) => (u64::from(number) % most) as i32,
        }
    }
}
