ghost use Rattle.std.specs.Prelude.{◌≡◌, ℕ, List, Bool};
ghost use Rattle.disk_core.specs.Images.{Image, after_sync};
ghost use Rattle.disk_core.specs.States.{DiskState, Story, moved};
ghost use Rattle.disk_core.specs.Moments.{EachImage, AtEachMoment};
ghost use Rattle.twin_log.specs.Twin.{IsTwinLog, IsTwinLogAmong};
ghost use Rattle.twin_log.specs.Rests.{AtRest};
ghost use Rattle.twin_log.specs.Damage.{IsDamagedAt};
ghost use Rattle.twin_log.specs.declared.spot.Spot.{Spot};

/// Bytes are a log of one list of payloads at most and of one format, or damaged at one place at most, and never both.
/// `TwinLog::open` says which they are.
pub fn law_twin_log()
    ensures one_list { (bytes : List ℕ) (format other : ℕ) (some others : List (List ℕ)) → IsTwinLog bytes format some
        → IsTwinLog bytes other others → (format ≡ other) × (some ≡ others) }
    ensures one_place { (bytes : List ℕ) (at other : ℕ) → IsDamagedAt bytes at → IsDamagedAt bytes other → at ≡ other }
    ensures not_both { (bytes : List ℕ) (format : ℕ) (payloads : List (List ℕ)) (at : ℕ)
        → IsTwinLog bytes format payloads → IsDamagedAt bytes at → ⊥ }
{}

/// A crash between two calls leaves the log as it is.
pub fn law_at_rest()
    ensures { (disk : DiskState) (spot : Spot) (payloads : List (List ℕ)) → AtRest disk spot payloads
        → EachImage (λ image. IsTwinLog image spot.format payloads) disk.story.now }
{}

/// At each moment of an opening, which only syncs, every crash leaves a log of one of the lists that a crash before it
/// could leave.
pub fn law_opening()
    ensures { (old new : Story) (among : ℕ → List (List ℕ) → Bool) → new ≡ moved (after_sync old.now) old
        → Image old.now old.now.bytes
        → EachImage (IsTwinLogAmong among) old.now → AtEachMoment old new (IsTwinLogAmong among) }
{}
