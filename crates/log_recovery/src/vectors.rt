ghost use Rattle.std.specs.Prelude.{◌≡◌, ◌≤◌, leb, length};
ghost use Rattle.std.specs.List.{list_all};
ghost use Rattle.crdt_core.specs.Fitting.{is_vector};
ghost use Rattle.crdt_core.specs.Log.{end_of_time};
ghost use Rattle.log_recovery.specs.Ledgers.{raised};

use site_vector::VTime;

/// The last time that a clock may show.
pub(crate) const END_OF_TIME: u64 = 1 << 62;

/// The bounds with that of a site raised to a time, unless it is there already.
pub(crate) fn raise(bounds: &VTime, site: u8, hi: u64) -> VTime
    requires least { 1 ≤ site }
    requires most { site ≤ length bounds.now }
    ensures { result ≡ raised bounds.now site hi }
{
    bounds.with(site, hi.max(bounds.get(site)))
}

/// Whether a vector has an entry for each site, and no time past the end.
pub(crate) fn is_vector(v: &VTime, sites: u8) -> bool
    ensures { result ≡ is_vector sites v.now }
{
    v.width() == sites && are_times(v.as_slice())
}

/// Whether no time is past the end.
fn are_times(times: &[u64]) -> bool
    ensures { result ≡ list_all (λ n. leb n end_of_time) times.now }
{
    for time in times {
        if *time > END_OF_TIME {
            return false;
        }
    }
    true
}
