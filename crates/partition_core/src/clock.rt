ghost use Rattle.std.specs.Prelude.{◌≡◌, ◌≤◌};
ghost use Rattle.crdt_core.specs.Log.{end_of_time};
ghost use Rattle.partition_core.specs.Leases.{leased, showing, wanted};

use crate::Partition;
use crdt_core::Crdt;
use prepared_table::Leased;

/// The last time that a clock shows.
pub(crate) const END_OF_TIME: u64 = 1 << 62;

impl<C: Crdt> Partition<C> {
    /// The ceiling of the lease that the clock needs before it shows a time, at most 2^62, if it needs one.
    pub(crate) fn lease_before(&self, time: u64) -> Option<u64>
        requires { time ≤ end_of_time }
        ensures { result ≡ wanted self.now.ceiling time }
    {
        self.clock.wants(time)
    }

    /// Lets the clock show a time that isn't past.
    pub(crate) fn advance(&mut self, time: u64)
        requires later { self.old.clock ≤ time }
        requires most { time ≤ end_of_time }
        ensures { self.new ≡ showing self.old time }
    {
        show(&mut self.clock, time);
    }
}

/// Lets the clock show a time, under a lease where that is above its ceiling.
pub(crate) fn show(clock: &mut Leased, time: u64)
    requires later { clock.old.clock ≤ time }
    requires most { time ≤ end_of_time }
    ensures { clock.new ≡ record { clock = time; ceiling = leased clock.old.ceiling time } }
{
    lease(clock, time);
    clock.tick(time);
}

/// Takes the lease that the clock needs before it shows a time.
fn lease(clock: &mut Leased, time: u64)
    requires { time ≤ end_of_time }
    ensures value { clock.new ≡ record { clock = clock.old.clock; ceiling = leased clock.old.ceiling time } }
    ensures under { time ≤ clock.new.ceiling }
{
    if let Some(ceiling) = clock.wants(time) {
        clock.lease(ceiling);
    }
}
