ghost use Rattle.std.specs.Prelude.{◌≡◌, true, false, IfOk, Option};
ghost use Rattle.site_partitions.specs.Fates.{OfState, IsLead};
ghost use Rattle.site_partitions.specs.Reaches.{types_of};
ghost use Rattle.cluster.specs.Built.{is_of_fates};
ghost use Rattle.cluster.specs.Fates.{MaySettle, Settles, lacks_txn};
ghost use Rattle.cluster.specs.Reached.{AppliesLive, IsReachedLive};

use crate::cluster::only;
use crate::live::Live;
use crate::store::failed;
use crdt_core::Crdt;
use disk_core::Disk;
use partition_core::Fate;
use site_vector::{PartId, TxId};
use std::alloc::AllocError;
use world_model::{Command, Step};

impl<C: Crdt, D: Disk + Drop> Live<C, D> {
    /// The lines that answer a command by which partitions end what no session ends.
    #[inline(never)]
    pub(crate) fn end(&mut self, command: &Command) -> Result<Vec<Step>, AllocError>
        requires of_fates { is_of_fates command.now ≡ true }
        requires reached { IsReachedLive (types_of C.laws C.spells D.state) self.old }
        ensures { IfOk result (λ steps. AppliesLive (types_of C.laws C.spells D.state) self.old command.now steps.items self.new) }
    {
        match command {
            Command::Expire { part, tx } => {
                return self.expire(*part, *tx);
            }
            Command::Settle { part } => {
                return self.settle(*part);
            }
            _ => {
                return only(self.alloc, Step::Unbuilt);
            }
        }
    }

    /// Whether a partition, or that of a transaction, isn't there, or they are of two sites.
    fn lacks_txn(&self, part: PartId, tx: TxId) -> bool
        ensures { result ≡ lacks_txn self.now.sites part tx }
    {
        let home = PartId {
            site: tx.site,
            part: tx.part,
        };
        !self.has_part(part) || tx.site != part.site || !self.has_part(home)
    }

    /// Aborts a transaction at its lead, if it is pending there.
    fn expire(&mut self, part: PartId, tx: TxId) -> Result<Vec<Step>, AllocError>
        requires reached { IsReachedLive (types_of C.laws C.spells D.state) self.old }
        ensures { IfOk result (λ steps. AppliesLive (types_of C.laws C.spells D.state) self.old (Command.Expire part tx) steps.items self.new) }
    {
        if self.lacks_txn(part, tx) {
            return only(self.alloc, Step::NoPart);
        }
        if self.sites.all.is_down_at(part) {
            return only(self.alloc, Step::Down { part });
        }
        let Some(lead) = self.sites.all.lead_at(part, tx) else {
            return self.look_up(part, tx);
        };
        if lead != part.part {
            return only(self.alloc, Step::Pending { part, tx });
        }
        match self.sites.all.drop_at(part, tx) {
            Ok(()) => {
                return only(self.alloc, Step::Aborted { part, tx });
            }
            Err(error) => {
                let line = failed(part, tx, 0, error)?;
                return only(self.alloc, line);
            }
        }
    }

    /// How a transaction ended that isn't pending at the partition, which is up.
    fn look_up(&self, part: PartId, tx: TxId) -> Result<Vec<Step>, AllocError>
        requires reached { IsReachedLive (types_of C.laws C.spells D.state) self.now }
        requires has { lacks_txn self.now.sites part tx ≡ false }
        requires up { OfState (types_of C.laws C.spells D.state) self.now.sites part (λ p. p.up ≡ true) }
        requires ended { OfState (types_of C.laws C.spells D.state) self.now.sites part (λ p. IsLead p.log tx Option.None) }
        ensures { IfOk result (λ steps. AppliesLive (types_of C.laws C.spells D.state) self.now (Command.Expire part tx) steps.items self.now) }
    {
        match self.sites.all.fate_at(part, tx) {
            Fate::Committed(_) => {
                return only(self.alloc, Step::Finished { part, tx });
            }
            _ => {
                return only(self.alloc, Step::Gone { part, tx });
            }
        }
    }

    /// Ends all that is pending at a partition and that its leads have ended.
    fn settle(&mut self, part: PartId) -> Result<Vec<Step>, AllocError>
        requires reached { IsReachedLive (types_of C.laws C.spells D.state) self.old }
        ensures { IfOk result (λ steps. AppliesLive (types_of C.laws C.spells D.state) self.old (Command.Settle part) steps.items self.new) }
    {
        if !self.has_part(part) {
            return only(self.alloc, Step::NoPart);
        }
        if self.sites.all.is_down_at(part) {
            return only(self.alloc, Step::Down { part });
        }
        let waiting = self.sites.all.waiting_at(part)?;
        let mut lines = Vec::new(self.alloc);
        for one in waiting.as_slice() {
            let (line, goes) = self.settle_one(part, one.tx, one.lead)?;
            lines.push(line)?;
            if !goes {
                return Ok(lines);
            }
        }
        lines.push(Step::Settled { part })?;
        Ok(lines)
    }

    /// Ends a transaction that is pending at a partition, which is up, if its lead is another one and has ended it.
    /// Answers the line, and whether the settle goes on: not where the end couldn't be written.
    fn settle_one(&mut self, part: PartId, tx: TxId, lead: u8) -> Result<(Step, bool), AllocError>
        requires { MaySettle (types_of C.laws C.spells D.state) self.old part tx lead }
        ensures { IfOk result (λ r. Settles (types_of C.laws C.spells D.state) self.old self.new part tx lead r.0 r.1) }
    {
        if lead == part.part {
            return Ok((Step::Pending { part, tx }, true));
        }
        let place = PartId {
            site: part.site,
            part: lead,
        };
        match self.sites.all.fate_at(place, tx) {
            Fate::Committed(c) => match self.sites.all.finish_at(part, tx, &c) {
                Ok(()) => {
                    return Ok((Step::Finished { part, tx }, true));
                }
                Err(error) => {
                    let line = failed(part, tx, 0, error)?;
                    return Ok((line, false));
                }
            },
            Fate::Aborted => match self.sites.all.drop_at(part, tx) {
                Ok(()) => {
                    return Ok((Step::Aborted { part, tx }, true));
                }
                Err(error) => {
                    let line = failed(part, tx, 0, error)?;
                    return Ok((line, false));
                }
            },
            _ => {
                return Ok((Step::Pending { part, tx }, true));
            }
        }
    }
}
