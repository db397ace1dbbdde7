ghost use Rattle.std.specs.Prelude.{◌≡◌, ◌≤◌, ℕ, true, false, None, IfSome, IfOk, IfErr};
ghost use Rattle.crdt_core.specs.Log.{end_of_time};
ghost use Rattle.site_vector.specs.Vector.{entry};
ghost use Rattle.txn_session.specs.Waits.{told_reading, late_in, late_update};

use crate::Clock;
use site_vector::VTime;
use std::alloc::AllocError;
use world_model::Step;

/// What a call comes to, if memory sufficed.
pub type Answer = Result<Step, AllocError>;

/// What an update comes to, with the effect that it made.
pub type Updated<E> = Result<(Step, Option<E>), AllocError>;

/// The greatest reading of a clock that a partition is told.
const MOST_READING: u64 = (1 << 48) - 1;

/// The last time of a partition.
const END_OF_TIME: u64 = 1 << 62;

/// What a partition of the site, whose clock is behind the snapshot, is told of this clock.
pub fn reading_for<K: Clock>(clock: &K, s: &VTime, site: u8) -> u64
    requires site { 1 ≤ site }
    ensures told { (n : ℕ) × K.shows clock.now n × (result ≡ told_reading (entry s.now site) n) }
    ensures most { result ≤ end_of_time }
{
    let reading = clock.reading().min(MOST_READING);
    reading.max(entry_of(s, site)).min(END_OF_TIME)
}

/// The entry of a site, or 0 where there is none.
fn entry_of(s: &VTime, site: u8) -> u64
    requires site { 1 ≤ site }
    ensures { result ≡ entry s.now site }
{
    if site <= s.width() { s.get(site) } else { 0 }
}

/// The answer, or none where it is that the clock is behind.
pub fn settled(answer: Answer) -> Option<Answer>
    ensures some { IfSome result (λ a. (a ≡ answer) × (late_in answer ≡ false)) }
    ensures none { result ≡ None → late_in answer ≡ true }
{
    match answer {
        Ok(Step::WaitClock { .. }) => None,
        other => Some(other),
    }
}

/// The answer to an update, or none where it is that the clock is behind.
pub fn settled_update<E: Drop>(answer: Updated<E>) -> Option<Updated<E>>
    ensures some { IfSome result (λ a. (a ≡ answer) × (late_update answer ≡ false)) }
    ensures none { result ≡ None → late_update answer ≡ true }
{
    match answer {
        Ok((Step::WaitClock { .. }, _)) => None,
        other => Some(other),
    }
}

/// Whether memory ran out.
pub fn lacks_memory(answer: Answer) -> bool
    ensures ok { IfOk answer (λ line. result ≡ false) }
    ensures err { IfErr answer (λ e. result ≡ true) }
{
    match answer {
        Ok(_) => false,
        Err(_) => true,
    }
}
