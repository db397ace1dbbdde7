// A fuse that burns down by one at each call.
ghost use Rattle.std.specs.Prelude.{◌≡◌};
ghost use Rattle.disk_core.specs.States.{fewer};
ghost use Rattle.disk_core.specs.Burns.{IsBurn};

#[derive(Clone, Copy)]
pub(crate) enum Burn {
    // The call is made.
    Passes,
    // The call fails, after the front of a write.
    Fires,
    // The call fails, and nothing is done.
    Fired,
}

// Counts a call, and a fault of the fuse where it fails.
pub(crate) fn burn_down(left: &mut Option<u64>, faults: &mut u64) -> Burn
    ensures counts { left.new ≡ fewer 1 left.old }
    ensures burn { IsBurn result left.old faults.old faults.new }
{
    let before = *faults;
    match *left {
        None => Burn::Passes,
        Some(0) => {
            *faults = before.saturating_add(1);
            Burn::Fired
        }
        Some(1) => {
            *left = Some(0);
            *faults = before.saturating_add(1);
            Burn::Fires
        }
        Some(n) => {
            *left = Some(n - 1);
            Burn::Passes
        }
    }
}
