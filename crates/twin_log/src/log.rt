ghost use Rattle.std.specs.Prelude.{◌≡◌, ◌≢◌, ◌⊎◌, ◌↔◌, ◌+◌, ◌<◌, ◌≤◌, ◌^◌, ◌++◌, [], ◌∷◌, List, ℕ, length, false, true, IsTrue, Some, IfOk, IfErr, MatchResult, OnOk, OnErr, Err};
ghost use Rattle.disk_core.specs.States.{GoesOn, Fails, Rests, Syncs, bytes_of, fewer, Spared};
ghost use Rattle.disk_core.specs.Moments.{EachImage, AtEachMoment};
ghost use Rattle.gate_log.specs.Log.{AreSized};
ghost use Rattle.gate_log.specs.Payloads.{AreWithin};
ghost use Rattle.gate_log.specs.Rest.{Lowers};
ghost use Rattle.twin_log.specs.Twin.{IsTwinLog, IsEither, AreSome, closed_area};
ghost use Rattle.twin_log.specs.Damage.{IsDamagedAt};
ghost use Rattle.twin_log.specs.Found.{HasParts};
ghost use Rattle.twin_log.specs.Payloads.{placed_in};
ghost use Rattle.twin_log.specs.Rests.{target_for, calls_for};

use crate::SwitchError;
use crate::area::{area_size, new_area, next_spot};
use crate::payloads::{Contents, Payloads};
use crate::replace::replace;
use crate::scan::find_area;
use crate::spot::Spot;
use disk_core::{Disk, Fused};
use field_codec::ListOf;
use gate_log::{AppendError, OpenError, read_durable, write_record};
use std::alloc::Global;

/// A log of payloads on a disk, in two areas of which one is in use: a compact image of payloads, and a tail of records.
///
/// At each moment of an append every crash leaves the list before, or that with the new payload, and at each moment of a
/// switch the list before or the new one; once it has answered `Ok` the new list. After a call that failed the log is
/// closed until it is opened again.
#[derive(Drop)]
pub struct TwinLog<D: Disk + Drop> {
    disk: D,
    spot: Spot,
    closed: bool,
    read: Contents,
}

impl<D: Disk + Drop> TwinLog<D> {
    ghost use Rattle.twin_log.specs.Logs.{disk_of, spot_of, gate_of, area_of, format_of, is_closed, read_at_opening, IsOpen, IsReady};
    ghost use Rattle.gate_log.specs.declared.error.AppendError.TheVariants.{Failed as DiskFailed, Full, Closed, NoMemory as OutOfMemory};
    ghost use Rattle.gate_log.specs.declared.error.OpenError.TheVariants.{Failed as OpenFailed, Damaged, NoMemory as NoRoomToRead};
    ghost use Rattle.twin_log.specs.declared.error.SwitchError.TheVariants.{Failed as SwitchFailed, Full as SwitchFull, Closed as SwitchClosed, NoMemory as SwitchNoMemory};

    /// Opens the log that a disk holds: makes all of it durable, and reads it once. An `Err` hands the disk back.
    ///
    /// # Errors
    ///
    /// `Failed` where the disk fails, `Damaged` exactly where its bytes are no log, and `NoMemory` where they don't
    /// fit the memory.
    pub fn open(alloc: Global, disk: D) -> Result<TwinLog<D>, (D, OpenError)>
        ensures opened { IfOk result (λ log. (image tail : List (List ℕ))
            × (read_at_opening log ≡ placed_in (area_of log) image tail) × AreSized (image ++ tail)
            × (IsTrue (D.state disk).tells → HasParts (bytes_of (D.state disk)) (spot_of log) image tail
            × IsOpen D.state log (image ++ tail))) }
        ensures ready { IfOk result (λ log. IsReady D.state log × (is_closed log ≡ false)) }
        ensures damaged { (at : ℕ) → IfErr result (λ e. e.1 ≡ Damaged at → IsTrue (D.state disk).tells
            → IsDamagedAt (bytes_of (D.state disk)) at) }
        ensures exact { (at : ℕ) → IsTrue (D.state disk).tells → IsDamagedAt (bytes_of (D.state disk)) at
            → MatchResult result (λ _. ⊥) (λ e. e.1 ≢ OpenFailed → e.1 ≢ NoRoomToRead → e.1 ≡ Damaged at) }
        ensures failed { IfErr result (λ e. e.1 ≡ OpenFailed → Fails (D.state disk) (D.state e.0)) }
        // All that the disk does is to sync, and that only once.
        ensures synced { IfOk result (λ log. Syncs (D.state disk) (D.state (disk_of log))) }
        ensures synced_err { IfErr result (λ e. Rests (D.state disk) (D.state e.0)
            ⊎ Syncs (D.state disk) (D.state e.0)) }
        ensures goes_on { MatchResult result (λ log. GoesOn (D.state disk) (D.state (disk_of log)))
            (λ e. GoesOn (D.state disk) (D.state e.0)) }
        ensures left { MatchResult result (λ log. Lowers 3 (D.state disk).left (D.state (disk_of log)).left)
            (λ e. Lowers 3 (D.state disk).left (D.state e.0).left) }
        ensures unfired { IfOk result (λ log. (D.state (disk_of log)).left ≢ Some 0) }
    {
        let spot = Spot {
            second: false,
            start: 25,
            end: 30,
            format: 1,
        };
        let mut log = TwinLog {
            disk,
            spot,
            closed: true,
            read: Contents::none(alloc),
        };
        match log.reopen(alloc) {
            Ok(()) => Ok(log),
            Err(error) => Err((log.close(), error)),
        }
    }

    /// Opens the log of its disk again, as `open` does, also where it is closed: makes all of it durable, and reads it
    /// once. What was read before is let go first. An `Err` leaves the log closed, with nothing read.
    ///
    /// # Errors
    ///
    /// As `open`.
    pub fn reopen(&mut self, alloc: Global) -> Result<(), OpenError>
        ensures opened { OnOk result ((image tail : List (List ℕ))
            × (read_at_opening self.new ≡ placed_in (area_of self.new) image tail) × AreSized (image ++ tail)
            × (IsTrue (D.state (disk_of self.old)).tells
            → HasParts (bytes_of (D.state (disk_of self.old))) (spot_of self.new) image tail
            × IsOpen D.state self.new (image ++ tail))) }
        ensures opened_ready { OnOk result (IsReady D.state self.new × (is_closed self.new ≡ false)) }
        ensures closed { OnErr result ((is_closed self.new ≡ true) × (spot_of self.new ≡ spot_of self.old)
            × (read_at_opening self.new ≡ [])) }
        ensures ready { IsReady D.state self.old → IsReady D.state self.new }
        ensures damaged { (at : ℕ) → result ≡ Err (Damaged at) → IsTrue (D.state (disk_of self.old)).tells
            → IsDamagedAt (bytes_of (D.state (disk_of self.old))) at }
        ensures exact { (at : ℕ) → IsTrue (D.state (disk_of self.old)).tells
            → IsDamagedAt (bytes_of (D.state (disk_of self.old))) at
            → result ≢ Err OpenFailed → result ≢ Err NoRoomToRead → result ≡ Err (Damaged at) }
        ensures failed { result ≡ Err OpenFailed
            → Fails (D.state (disk_of self.old)) (D.state (disk_of self.new)) }
        // All that the disk does is to sync, and that only once.
        ensures synced { OnOk result (Syncs (D.state (disk_of self.old)) (D.state (disk_of self.new))) }
        ensures synced_err { OnErr result (Rests (D.state (disk_of self.old)) (D.state (disk_of self.new))
            ⊎ Syncs (D.state (disk_of self.old)) (D.state (disk_of self.new))) }
        ensures goes_on { GoesOn (D.state (disk_of self.old)) (D.state (disk_of self.new)) }
        ensures left { Lowers 3 (D.state (disk_of self.old)).left (D.state (disk_of self.new)).left }
        ensures unfired { OnOk result ((D.state (disk_of self.new)).left ≢ Some 0) }
    {
        self.shut();
        let bytes = read_durable(alloc, &mut self.disk)?;
        match find_area(&bytes) {
            Err(at) => Err(OpenError::Damaged { at: at as u64 }),
            Ok(found) => {
                self.spot = found.spot;
                self.read = Contents {
                    bytes,
                    image: found.image,
                    images: found.images,
                    tail: found.tail,
                    records: found.records,
                };
                self.closed = false;
                Ok(())
            }
        }
    }

    /// Closes the log until it is opened again, and lets go what was read at opening.
    pub fn shut(&mut self)
        ensures closed { is_closed self.new ≡ true }
        ensures read { read_at_opening self.new ≡ [] }
        ensures same { (disk_of self.new ≡ disk_of self.old) × (spot_of self.new ≡ spot_of self.old) }
    {
        self.forget_read();
        self.closed = true;
    }

    /// Lets go what was read at opening, with its memory. The log is as before.
    pub fn forget_read(&mut self)
        ensures read { read_at_opening self.new ≡ [] }
        ensures same { (disk_of self.new ≡ disk_of self.old) × (spot_of self.new ≡ spot_of self.old)
            × (is_closed self.new ≡ is_closed self.old) }
        ensures open { (payloads : List (List ℕ)) → IsOpen D.state self.old payloads
            → IsOpen D.state self.new payloads }
        ensures ready { IsReady D.state self.old → IsReady D.state self.new }
    {
        self.read.forget();
    }

    /// Appends a record with this payload, which isn't empty, by four calls of the disk. Takes no memory.
    ///
    /// # Errors
    ///
    /// `Full` exactly where the new end and one byte more pass the room of the disk, and `Closed` exactly where the log
    /// is closed: the log is as before. `Failed` only where the disk fails: a crash leaves the list before or that with
    /// the payload, and every later call answers `Closed`, until the log is opened again.
    pub fn append(&mut self, payload: &[u8]) -> Result<(), AppendError>
        requires some { 1 ≤ length payload.now }
        requires ready { IsReady D.state self.old }
        ensures appended { OnOk result ((payloads : List (List ℕ)) → IsOpen D.state self.old payloads
            → IsOpen D.state self.new (payloads ++ payload.now ∷ [])) }
        ensures durable { OnOk result ((payloads : List (List ℕ)) → IsOpen D.state self.old payloads
            → EachImage (λ image. IsTwinLog image (format_of self.old) (payloads ++ payload.now ∷ []))
            (D.state (disk_of self.new)).story.now) }
        ensures any_moment { (payloads : List (List ℕ)) → IsOpen D.state self.old payloads
            → AtEachMoment (D.state (disk_of self.old)).story (D.state (disk_of self.new)).story
            (IsEither (format_of self.old) payloads (format_of self.old) (payloads ++ payload.now ∷ [])) }
        ensures closed { result ≡ Err Closed ↔ (is_closed self.old ≡ true) }
        ensures full { is_closed self.old ≡ false → (result ≡ Err (Full (D.state (disk_of self.old)).room)
            ↔ ((D.state (disk_of self.old)).room < gate_of self.old + 5 + length payload.now + 1)) }
        ensures room { (room : ℕ) → result ≡ Err (Full room) → room ≡ (D.state (disk_of self.old)).room }
        ensures failed { result ≡ Err DiskFailed
            → Fails (D.state (disk_of self.old)) (D.state (disk_of self.new)) × (is_closed self.new ≡ true) }
        ensures refused { IfErr result (λ e. e ≢ DiskFailed → self.new ≡ self.old) }
        ensures fed { result ≢ Err OutOfMemory }
        ensures gate { OnOk result (spot_of self.new
            ≡ record (spot_of self.old) { end = gate_of self.old + 5 + length payload.now }) }
        ensures gate_err { OnErr result (spot_of self.new ≡ spot_of self.old) }
        ensures stays_open { OnOk result (is_closed self.new ≡ false) }
        ensures read { read_at_opening self.new ≡ read_at_opening self.old }
        ensures ready { IsReady D.state self.new }
        ensures goes_on { GoesOn (D.state (disk_of self.old)) (D.state (disk_of self.new)) }
        ensures left { Lowers 4 (D.state (disk_of self.old)).left (D.state (disk_of self.new)).left }
        ensures left_ok { OnOk result ((D.state (disk_of self.new)).left ≡ fewer 4 (D.state (disk_of self.old)).left) }
        ensures spared { OnOk result (Spared 4 (D.state (disk_of self.old)).left) }
    {
        if self.closed {
            return Err(AppendError::Closed);
        }
        let room = self.disk.room();
        let count = payload.len() as u64;
        if count > room || self.spot.end + 6 + count > room {
            return Err(AppendError::Full { room });
        }
        if write_record(&mut self.disk, self.spot.end, payload).is_err() {
            self.closed = true;
            return Err(AppendError::Failed);
        }
        self.spot.end += 5 + count;
        Ok(())
    }

    /// Replaces the list by these payloads, none of which is empty. The new area stands at the front, where it ends before
    /// the one in use, and then the disk makes six calls; and else behind the closed gate, and then it makes five.
    ///
    /// # Errors
    ///
    /// `Closed` exactly where the log is closed, `Full` exactly where it isn't and the new area would pass the room of
    /// the disk, and `NoMemory` only where memory runs out: the log is as before. `Failed` only where the disk fails: a
    /// crash leaves the list before or the new one, and every later call answers `Closed`, until the log is opened again.
    pub fn switch(&mut self, payloads: &ListOf<ListOf<u8>>) -> Result<(), SwitchError>
        requires some { AreSome payloads.now }
        requires ready { IsReady D.state self.old }
        ensures switched { OnOk result ((before : List (List ℕ)) → IsOpen D.state self.old before
            → IsOpen D.state self.new payloads.now) }
        ensures durable { OnOk result ((before : List (List ℕ)) → IsOpen D.state self.old before
            → EachImage (λ image. IsTwinLog image (format_of self.old) payloads.now)
            (D.state (disk_of self.new)).story.now) }
        ensures any_moment { (before : List (List ℕ)) → IsOpen D.state self.old before
            → AtEachMoment (D.state (disk_of self.old)).story (D.state (disk_of self.new)).story
            (IsEither (format_of self.old) before (format_of self.old) payloads.now) }
        ensures closed { result ≡ Err SwitchClosed ↔ (is_closed self.old ≡ true) }
        ensures full { let size = length (closed_area (format_of self.old) payloads.now) in is_closed self.old ≡ false
            → (result ≡ Err (SwitchFull (D.state (disk_of self.old)).room)
            ↔ ((D.state (disk_of self.old)).room < target_for (spot_of self.old) size + size)) }
        ensures room { (room : ℕ) → result ≡ Err (SwitchFull room) → room ≡ (D.state (disk_of self.old)).room }
        ensures failed { result ≡ Err SwitchFailed
            → Fails (D.state (disk_of self.old)) (D.state (disk_of self.new)) × (is_closed self.new ≡ true) }
        ensures refused { IfErr result (λ e. e ≢ SwitchFailed → self.new ≡ self.old) }
        ensures place { let size = length (closed_area (format_of self.old) payloads.now) in
            OnOk result (area_of self.new ≡ target_for (spot_of self.old) size) }
        ensures gate { OnOk result (gate_of self.new + 1
            ≡ area_of self.new + length (closed_area (format_of self.old) payloads.now)) }
        ensures format { format_of self.new ≡ format_of self.old }
        ensures stays_open { OnOk result (is_closed self.new ≡ false) }
        ensures read { read_at_opening self.new ≡ read_at_opening self.old }
        ensures ready { IsReady D.state self.new }
        ensures goes_on { GoesOn (D.state (disk_of self.old)) (D.state (disk_of self.new)) }
        ensures left { Lowers 6 (D.state (disk_of self.old)).left (D.state (disk_of self.new)).left }
        ensures left_ok { let calls = calls_for (spot_of self.old) (length (closed_area (format_of self.old) payloads.now)) in
            OnOk result ((D.state (disk_of self.new)).left ≡ fewer calls (D.state (disk_of self.old)).left) }
        ensures spared { let calls = calls_for (spot_of self.old) (length (closed_area (format_of self.old) payloads.now)) in
            OnOk result (Spared calls (D.state (disk_of self.old)).left) }
    {
        if self.closed {
            return Err(SwitchError::Closed);
        }
        let room = self.disk.room();
        let Some(size) = area_size(payloads.as_slice(), room) else {
            return Err(SwitchError::Full { room });
        };
        let next = next_spot(&self.spot, size);
        if next.end >= room {
            return Err(SwitchError::Full { room });
        }
        let alloc = self.read.allocator();
        let Ok(area) = new_area(alloc, next.format, payloads.as_slice(), size) else {
            return Err(SwitchError::NoMemory);
        };
        if replace(&mut self.disk, &self.spot, &next, &area).is_err() {
            self.closed = true;
            return Err(SwitchError::Failed);
        }
        self.spot = next;
        Ok(())
    }

    /// The payloads that were read at opening, each with the place of its first byte.
    pub fn payloads(&self) -> Payloads<'_>
        ensures read { result ≡ read_at_opening self.now }
        ensures within { AreWithin (read_at_opening self.now) }
    {
        self.read.payloads()
    }

    /// The place of the closed gate: how many bytes of the disk stand in front of it.
    pub fn end(&self) -> u64
        ensures { result ≡ gate_of self.now }
    {
        self.spot.end
    }

    /// The format of the area in use.
    pub fn format(&self) -> u8
        ensures { result ≡ format_of self.now }
    {
        self.spot.format
    }

    /// The greatest length of the disk.
    pub fn room(&self) -> u64
        ensures { result ≡ (D.state (disk_of self.now)).room }
    {
        self.disk.room()
    }

    /// Whether the log is closed, so that it takes no record until it is opened again.
    pub fn is_closed(&self) -> bool
        ensures { result ≡ is_closed self.now }
    {
        self.closed
    }

    /// The disk.
    pub fn close(self) -> D
        ensures { result ≡ disk_of self }
    {
        self.disk
    }

    /// Whether a call of the disk failed because it found no memory to grow.
    pub fn starved(&self) -> bool
        ensures { result ≡ (D.state (disk_of self.now)).starved }
    {
        self.disk.starved()
    }
}

impl<D: Disk + Drop> TwinLog<Fused<D>> {
    ghost use Rattle.std.specs.Prelude.{None};
    ghost use Rattle.disk_core.specs.Fuses.{inside, calls_left, cut_length, fused_state};
    ghost use Rattle.twin_log.specs.Logs.{disk_of, spot_of, is_closed, read_at_opening, IsOpen, IsReady};

    /// Arms the fuse of the disk, also where the log is closed, and changes nothing else.
    pub fn arm(&mut self, k: u64, keep: u64)
        ensures inside { inside (disk_of self.new) ≡ inside (disk_of self.old) }
        ensures keep { cut_length (disk_of self.new) ≡ keep }
        ensures state { fused_state D.state (disk_of self.new)
            ≡ record (fused_state D.state (disk_of self.old)) { left = Some k; keep = keep } }
        ensures open { (payloads : List (List ℕ)) → IsOpen (fused_state D.state) self.old payloads
            → IsOpen (fused_state D.state) self.new payloads }
        ensures ready { IsReady (fused_state D.state) self.old → IsReady (fused_state D.state) self.new }
        ensures same { (spot_of self.new ≡ spot_of self.old) × (is_closed self.new ≡ is_closed self.old)
            × (read_at_opening self.new ≡ read_at_opening self.old) }
    {
        self.disk.arm(k, keep);
    }

    /// Takes the fuse of the disk away where it has fired, also where the log is closed, and changes nothing else.
    pub fn revive(&mut self)
        ensures inside { inside (disk_of self.new) ≡ inside (disk_of self.old) }
        ensures fired { calls_left (disk_of self.old) ≡ Some 0
            → fused_state D.state (disk_of self.new) ≡ record (fused_state D.state (disk_of self.old)) { left = None } }
        ensures burning { calls_left (disk_of self.old) ≢ Some 0 → self.new ≡ self.old }
        ensures open { (payloads : List (List ℕ)) → IsOpen (fused_state D.state) self.old payloads
            → IsOpen (fused_state D.state) self.new payloads }
        ensures ready { IsReady (fused_state D.state) self.old → IsReady (fused_state D.state) self.new }
        ensures same { (spot_of self.new ≡ spot_of self.old) × (is_closed self.new ≡ is_closed self.old)
            × (read_at_opening self.new ≡ read_at_opening self.old) }
    {
        self.disk.revive();
    }
}
