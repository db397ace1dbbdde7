ghost use Rattle.std.specs.Prelude.{◌≡◌, Some, None, Bool, cond, OnOk};
ghost use Rattle.site_vector.specs.declared.ids.TxId.{TxId};
ghost use Rattle.site_vector.specs.Ids.{same_tx};
ghost use Rattle.log_recovery.specs.declared.named.Fate.TheVariants.{Waits, Ended};
ghost use Rattle.log_recovery.specs.Fates.{fate_at};

use site_vector::{TxId, VTime};
use std::alloc::{AllocError, Global};
use std::collections::{HashMap, HashSet};

/// How a partition voted for a transaction.
#[derive(Clone, Copy)]
pub(crate) struct Vote {
    pub(crate) lead: u8,
    pub(crate) time: u64,
    pub(crate) s: VTime,
}

/// What became of a transaction that a log names.
#[derive(Clone, Copy)]
pub(crate) enum Fate {
    /// It was prepared and hasn't ended.
    Waits(Vote),
    /// It was committed, aborted, or brought from another site.
    Ended,
}

/// The transactions that a log names, with what became of them. Few wait at a time, so only those keep their vote, and
/// of all that have ended the name is left.
#[derive(Drop)]
pub(crate) struct Named {
    pub(crate) votes: HashMap<TxId, Vote>,
    pub(crate) ended: HashSet<TxId>,
}

impl Named {
    /// No transaction is named. Takes no memory.
    pub(crate) fn new(alloc: Global) -> Named
        ensures { (u : TxId) → fate_at result u ≡ None }
    {
        Named {
            votes: HashMap::new(alloc),
            ended: HashSet::new(alloc),
        }
    }

    /// What became of a transaction, if it is named.
    pub(crate) fn fate(&self, tx: TxId) -> Option<Fate>
        ensures { result ≡ fate_at self.now tx }
    {
        match self.votes.get(&tx) {
            Some(vote) => Some(Fate::Waits(*vote)),
            None => {
                if self.ended.contains(&tx) {
                    Some(Fate::Ended)
                } else {
                    None
                }
            }
        }
    }

    /// Notes that a transaction waits.
    pub(crate) fn wait(&mut self, tx: TxId, vote: Vote) -> Result<(), AllocError>
        ensures { OnOk result ((u : TxId) → fate_at self.new u ≡ cond (same_tx tx u) (Some (Waits vote)) (fate_at self.old u)) }
    {
        self.votes.insert(tx, vote)?;
        Ok(())
    }

    /// Notes that a transaction has ended.
    pub(crate) fn end(&mut self, tx: TxId) -> Result<(), AllocError>
        ensures { OnOk result ((u : TxId) → fate_at self.new u ≡ cond (same_tx tx u) (Some Ended) (fate_at self.old u)) }
    {
        self.ended.insert(tx)?;
        let _vote = self.votes.remove(&tx);
        Ok(())
    }
}
