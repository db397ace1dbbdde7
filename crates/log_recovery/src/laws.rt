ghost use Rattle.std.specs.Prelude.{◌≡◌, ◌≢◌, ◌≤◌, ℕ, List, None, true, false};
ghost use Rattle.site_vector.specs.declared.ids.PartId.{PartId};
ghost use Rattle.site_vector.specs.declared.ids.TxId.{TxId};
ghost use Rattle.crdt_core.specs.declared.record.Record.{Record};
ghost use Rattle.crdt_core.specs.Fitting.{unfit};
ghost use Rattle.crdt_core.specs.Log.{end_of_time, ceiling, prepare_time, pending, committed, taken, holds, last_decided, logged_bound, grown, lease_for, MayFind};
ghost use Rattle.log_recovery.specs.Condensed.{is_dropped, condensed, NamesNone, told_vote, told_part};
ghost use Rattle.log_recovery.specs.Rising.{Rises};

/// What holds of every log whose records fit the partition. What is pending began at its site, at a time above 0 and of
/// at most the ceiling, and isn't held; what was committed here began at its site, and what was brought began at another.
///
/// Leases rise as long as each is the one for a time, and then also in what a restart finds of a call that was cut off.
pub fn law_fitting<E>()
    ensures pending { (sites parts : ℕ) (id : PartId) (log : List (Record E)) → unfit sites parts id log ≡ None → (u : TxId) → pending log u ≡ true → (u.site ≡ id.site) × (1 ≤ prepare_time log u) × (holds log u ≡ false) }
    ensures committed { (sites parts : ℕ) (id : PartId) (log : List (Record E)) → unfit sites parts id log ≡ None → (u : TxId) → committed log u ≡ true → u.site ≡ id.site }
    ensures taken { (sites parts : ℕ) (id : PartId) (log : List (Record E)) → unfit sites parts id log ≡ None → (u : TxId) → taken log u ≡ true → u.site ≢ id.site }
    ensures under { (sites parts : ℕ) (id : PartId) (log : List (Record E)) → unfit sites parts id log ≡ None → (u : TxId) → pending log u ≡ true → prepare_time log u ≤ ceiling log }
    ensures rises { (log : List (Record E)) (n : ℕ) → n ≤ end_of_time → Rises log → Rises (grown log (lease_for log n)) }
    ensures found { (log more image : List (Record E)) → Rises (grown log more) → MayFind log more image → Rises image }
{}

/// What a restart is told of a log whose records fit, its condensed one tells too, also behind the same further records,
/// where these name no transaction that was dropped: who waits and its vote, what is held and its part, the ceiling, the
/// last decision, and up to where the batches of each site go. And where the whole log fits with them, the condensed one
/// does.
pub fn law_condense<E>()
    ensures fits { (sites parts : ℕ) (id : PartId) (log more : List (Record E)) → unfit sites parts id (grown log more) ≡ None
        → NamesNone (is_dropped log) more → unfit sites parts id (grown (condensed log) more) ≡ None }
    ensures pending { (sites parts : ℕ) (id : PartId) (log more : List (Record E)) → unfit sites parts id log ≡ None
        → NamesNone (is_dropped log) more → (u : TxId)
        → pending (grown (condensed log) more) u ≡ pending (grown log more) u }
    ensures holds { (sites parts : ℕ) (id : PartId) (log more : List (Record E)) → unfit sites parts id log ≡ None
        → NamesNone (is_dropped log) more → (u : TxId)
        → holds (grown (condensed log) more) u ≡ holds (grown log more) u }
    ensures vote { (sites parts : ℕ) (id : PartId) (log more : List (Record E)) → unfit sites parts id log ≡ None
        → NamesNone (is_dropped log) more → (u : TxId) → pending (grown log more) u ≡ true
        → told_vote (grown (condensed log) more) u ≡ told_vote (grown log more) u }
    ensures part { (sites parts : ℕ) (id : PartId) (log more : List (Record E)) → unfit sites parts id log ≡ None
        → NamesNone (is_dropped log) more → (u : TxId) → holds (grown log more) u ≡ true
        → told_part (grown (condensed log) more) u ≡ told_part (grown log more) u }
    ensures ceiling { (sites parts : ℕ) (id : PartId) (log more : List (Record E)) → unfit sites parts id log ≡ None
        → NamesNone (is_dropped log) more → ceiling (grown (condensed log) more) ≡ ceiling (grown log more) }
    ensures last { (sites parts : ℕ) (id : PartId) (log more : List (Record E)) → unfit sites parts id log ≡ None
        → NamesNone (is_dropped log) more → last_decided (grown (condensed log) more) ≡ last_decided (grown log more) }
    ensures bounds { (sites parts : ℕ) (id : PartId) (log more : List (Record E)) → unfit sites parts id log ≡ None
        → NamesNone (is_dropped log) more → (j : ℕ)
        → logged_bound (grown (condensed log) more) j ≡ logged_bound (grown log more) j }
{}
