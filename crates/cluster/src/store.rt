ghost use Rattle.std.specs.Prelude.{◌≡◌, ℕ, List, true, ⊤};
ghost use Rattle.partition_core.specs.Answers.{cause};
ghost use Rattle.site_partitions.specs.Reaches.{types_of};
ghost use Rattle.cluster.specs.Fuel.{TellsCall};
ghost use Rattle.cluster.specs.Same.{SameCluster, same_refl, same_trans};
ghost use Rattle.cluster.specs.Sees.{Sees, FailedAs, refusal_line, sees_legal};

use crate::local::Local;
use crdt_core::{Crdt, Message, ObjectId, Op, Upd, UpdateList};
use disk_core::Disk;
use field_codec::Text;
use partition_core::{DurableError, Refusal};
use site_vector::{PartId, TxId, VTime};
use std::alloc::AllocError;
use txn_session::Store;
use world_model::{Mode, Step};

/// What a call comes to, if memory sufficed.
type Answer = Result<Step, AllocError>;

/// No transaction, and no number of a message: what a refusal that names none is handed.
pub(crate) const NO_TX: TxId = TxId {
    site: 0,
    part: 0,
    time: 0,
};

/// On one thread nobody acts meanwhile, and all calls are of one caller: no pass is split.
impl<C: Crdt, D: Disk + Drop> Store<C> for Local<C, D> {
    type Pass = ();

    ghost sees = { λ c pass calls. Sees (types_of C.laws C.spells D.state) c calls };

    ghost numbers = { λ pass n. true };

    /// Whoever numbers messages and reports does so for the whole script.
    ghost numbered = { λ own number. ⊤ };

    ghost sites = { λ c. c.sites };

    ghost parts = { λ c. c.parts };

    ghost stays = { λ a b. SameCluster D.state a b };

    ghost tells = { λ a b at line. TellsCall (types_of C.laws C.spells D.state) a b at line };

    fn tick(&mut self, pass: (), at: PartId, r: u64) -> ((), Answer) {
        match self.all.tick_at(at, r) {
            Ok(now) => {
                return (pass, Ok(Step::Ticked { part: at, now }));
            }
            Err(error) => {
                return (pass, failed(at, NO_TX, 0, error));
            }
        }
    }

    fn begin(
        &mut self,
        pass: (),
        at: PartId,
        who: &Text,
        dep: &VTime,
        mode: Mode,
    ) -> ((), Result<(Step, u64), AllocError>) {
        match who.copy(self.alloc) {
            Ok(name) => match self.all.begin_at(at, dep, mode) {
                Ok(begun) => {
                    let (tx, s) = begun;
                    return (pass, Ok((Step::Began { name, tx, s }, 0)));
                }
                Err(error) => match failed(at, NO_TX, 0, error) {
                    Ok(line) => {
                        return (pass, Ok((line, 0)));
                    }
                    Err(_) => {
                        return (pass, Err(AllocError));
                    }
                },
            },
            Err(_) => {
                return (pass, Err(AllocError));
            }
        }
    }

    fn read(
        &mut self,
        pass: (),
        at: PartId,
        who: &Text,
        by: u64,
        tx: TxId,
        s: &VTime,
        object: &ObjectId,
        own: &[Upd<C::Effect>],
    ) -> ((), Answer) {
        let name = match who.copy(self.alloc) {
            Ok(name) => name,
            Err(_) => {
                return (pass, Err(AllocError));
            }
        };
        let object_read = match object.copy(self.alloc) {
            Ok(copy) => copy,
            Err(_) => {
                return (pass, Err(AllocError));
            }
        };
        match self.all.read_at(at, tx, s, object, own) {
            Ok(value) => {
                let step = Step::Value {
                    name,
                    object: object_read,
                    value,
                };
                return (pass, Ok(step));
            }
            Err(error) => {
                return (pass, failed(at, NO_TX, 0, error));
            }
        }
    }

    fn update(
        &mut self,
        pass: (),
        at: PartId,
        who: &Text,
        by: u64,
        tx: TxId,
        s: &VTime,
        object: &ObjectId,
        own: &[Upd<C::Effect>],
        op: &Op,
        index: u16,
    ) -> ((), Result<(Step, Option<C::Effect>), AllocError>) {
        let name = match who.copy(self.alloc) {
            Ok(name) => name,
            Err(_) => {
                return (pass, Err(AllocError));
            }
        };
        let updated = match object.copy(self.alloc) {
            Ok(copy) => copy,
            Err(_) => {
                return (pass, Err(AllocError));
            }
        };
        match self.all.update_at(at, tx, s, object, own, op, index) {
            Ok(made) => {
                let (effect, stamp) = made;
                let step = Step::Updated {
                    name,
                    object: updated,
                    stamp,
                };
                return (pass, Ok((step, Some(effect))));
            }
            Err(error) => match failed(at, NO_TX, 0, error) {
                Ok(line) => {
                    return (pass, Ok((line, None)));
                }
                Err(_) => {
                    return (pass, Err(AllocError));
                }
            },
        }
    }

    fn prepare(
        &mut self,
        pass: (),
        at: PartId,
        by: u64,
        tx: TxId,
        s: &VTime,
        lead: u8,
        updates: &UpdateList<C::Effect>,
    ) -> ((), Answer) {
        match self.all.prepare_at(at, tx, s, lead, updates) {
            Ok(time) => {
                return (pass, Ok(Step::Prepared { part: at, tx, time }));
            }
            Err(error) => {
                return (pass, failed(at, NO_TX, 0, error));
            }
        }
    }

    fn decide(&mut self, pass: (), at: PartId, by: u64, tx: TxId, c: &VTime) -> ((), Answer) {
        match self.all.decide_at(at, tx, c) {
            Ok(()) => {
                let c = *c;
                return (pass, Ok(Step::Decided { part: at, tx, c }));
            }
            Err(error) => {
                return (pass, undecided(at, tx, error));
            }
        }
    }

    fn finish(&mut self, pass: (), at: PartId, tx: TxId, c: &VTime) -> ((), Answer) {
        match self.all.finish_at(at, tx, c) {
            Ok(()) => {
                return (pass, Ok(Step::Finished { part: at, tx }));
            }
            Err(error) => {
                return (pass, failed(at, tx, 0, error));
            }
        }
    }

    fn abort(&mut self, pass: (), at: PartId, by: u64, tx: TxId) -> ((), Answer) {
        match self.all.abort_at(at, tx) {
            Ok(()) => {
                return (pass, Ok(Step::Aborted { part: at, tx }));
            }
            Err(error) => {
                return (pass, failed(at, tx, 0, error));
            }
        }
    }

    fn release(
        &mut self,
        pass: (),
        at: PartId,
        to: u8,
        from: Option<u64>,
    ) -> (
        (),
        Result<Result<(Message<C::Effect>, u64), Step>, AllocError>,
    ) {
        match self.all.release_at(at, to, from) {
            Ok(message) => {
                return (pass, Ok(Ok((message, 0))));
            }
            Err(error) => match failed(at, NO_TX, 0, error) {
                Ok(line) => {
                    return (pass, Ok(Err(line)));
                }
                Err(_) => {
                    return (pass, Err(AllocError));
                }
            },
        }
    }

    fn take(
        &mut self,
        pass: (),
        at: PartId,
        number: u64,
        message: &Message<C::Effect>,
    ) -> ((), Answer) {
        match self.all.take_at(at, message) {
            Ok(()) => {
                let hi = message.hi;
                return (pass, Ok(Step::Took { number, hi }));
            }
            Err(error) => {
                return (pass, failed(at, NO_TX, number, error));
            }
        }
    }

    fn report(
        &mut self,
        pass: (),
        at: PartId,
    ) -> ((), Result<Result<(VTime, u64), Step>, AllocError>) {
        match self.all.report_at(at) {
            Ok(bounds) => {
                return (pass, Ok(Ok((bounds, 0))));
            }
            Err(error) => match failed(at, NO_TX, 0, error) {
                Ok(line) => {
                    return (pass, Ok(Err(line)));
                }
                Err(_) => {
                    return (pass, Err(AllocError));
                }
            },
        }
    }

    fn hear(
        &mut self,
        pass: (),
        at: PartId,
        number: u64,
        part: u8,
        bounds: &VTime,
    ) -> ((), Answer) {
        match self.all.hear_at(at, part, bounds) {
            Ok(stable) => {
                let step = Step::Heard {
                    number,
                    part: at,
                    stable,
                };
                return (pass, Ok(step));
            }
            Err(error) => {
                return (pass, failed(at, NO_TX, number, error));
            }
        }
    }

    fn split(&mut self, pass: ()) -> Result<((), ()), ()> {
        Err(pass)
    }

    fn meet(&mut self, first: (), second: ()) {}

    ghost legal = { λ store pass calls s. sees_legal (types_of C.laws C.spells D.state) store calls s };

    ghost keeps = { λ a b s. (s.sites_are, s.parts_are) };

    ghost rests = { λ a. same_refl D.state a };

    ghost follows = { λ a b c s t. same_trans D.state a b c s t };
}

/// The line of a refusal, which may name a transaction or a message.
fn refused(at: PartId, tx: TxId, number: u64, why: Refusal) -> Step
    ensures { result ≡ refusal_line at tx number (cause why) }
{
    match why {
        Refusal::ClockBehind { at: now } => Step::WaitClock { part: at, now },
        Refusal::TxPending { tx, time } => Step::WaitTxn { part: at, tx, time },
        Refusal::StableBehind { site, have } => Step::WaitStable { site, have },
        Refusal::ClockAtEnd => Step::TimeEnd,
        Refusal::BadOp => Step::BadOp,
        Refusal::Gone => Step::Gone { part: at, tx },
        Refusal::Gap { have } => Step::Gap { number, have },
        Refusal::Repeat { have } => Step::Dup { number, have },
    }
}

/// What a call comes to that isn't answered.
pub(crate) fn failed(at: PartId, tx: TxId, number: u64, error: DurableError) -> Answer
    ensures { FailedAs at tx number (Step.Disk at) error result }
{
    match error {
        DurableError::NoMemory => Err(AllocError),
        DurableError::Down => Ok(Step::Down { part: at }),
        DurableError::Disk => Ok(Step::Disk { part: at }),
        DurableError::Full { room } => Ok(Step::Full { room }),
        DurableError::Refused(why) => Ok(refused(at, tx, number, why)),
    }
}

/// What a decide comes to that isn't answered: where the disk failed, the transaction is in doubt.
fn undecided(at: PartId, tx: TxId, error: DurableError) -> Answer
    ensures { FailedAs at tx 0 (Step.Unsure tx) error result }
{
    match error {
        DurableError::NoMemory => Err(AllocError),
        DurableError::Down => Ok(Step::Down { part: at }),
        DurableError::Disk => Ok(Step::Unsure { tx }),
        DurableError::Full { room } => Ok(Step::Full { room }),
        DurableError::Refused(why) => Ok(refused(at, tx, 0, why)),
    }
}
