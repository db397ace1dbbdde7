ghost use Rattle.std.specs.Prelude.{◌≡◌, ◌≢◌, true, false, IfOk, IfErr};
ghost use Rattle.site_partitions.specs.Reaches.{types_of};
ghost use Rattle.crdt_core.specs.Fits.{fits};
ghost use Rattle.txn_session.specs.declared.error.SessionError.TheVariants.{NoMemory};
ghost use Rattle.cluster.specs.Live.{refused_line};
ghost use Rattle.cluster.specs.Reached.{AppliesLive, IsReachedLive};

use crate::cluster::{only_in, only_update_in};
use crate::live::{Live, Sessions, is_open};
use crate::local::Local;
use crdt_core::{Crdt, ObjectId, Op};
use disk_core::Disk;
use field_codec::Text;
use std::alloc::{AllocError, Global};
use txn_session::SessionError;
use world_model::{Command, Step};

impl<C: Crdt, D: Disk + Drop> Live<C, D> {
    /// Reads an object in a session's transaction.
    pub(crate) fn read(&mut self, name: &Text, object: &ObjectId) -> Result<Vec<Step>, AllocError>
        requires has { C.has object.now.kind ≡ true }
        requires reached { IsReachedLive (types_of C.laws C.spells D.state) self.old }
        ensures { IfOk result (λ steps. AppliesLive (types_of C.laws C.spells D.state) self.old (Command.Read name.now object.now) steps.items self.new) }
    {
        read_in(
            self.alloc,
            &mut self.spare,
            &mut self.sites,
            &mut self.sessions,
            name,
            object,
        )
    }

    /// Updates an object in a session's transaction.
    pub(crate) fn update(
        &mut self,
        name: &Text,
        object: &ObjectId,
        op: &Op,
    ) -> Result<Vec<Step>, AllocError>
        requires has { C.has object.now.kind ≡ true }
        requires shallow { fits object.now.kind op.now.path op.now.act ≡ true → C.too_deep object.now.kind op.now.path ≡ false }
        requires reached { IsReachedLive (types_of C.laws C.spells D.state) self.old }
        ensures { IfOk result (λ steps. AppliesLive (types_of C.laws C.spells D.state) self.old (Command.Update name.now object.now op.now) steps.items self.new) }
    {
        update_in(
            self.alloc,
            &mut self.spare,
            &mut self.sites,
            &mut self.sessions,
            name,
            object,
            op,
        )
    }
}

/// The line of a read in a session's transaction, which is looked up once.
fn read_in<C: Crdt, D: Disk + Drop>(
    alloc: Global,
    spare: &mut Vec<Step>,
    sites: &mut Local<C, D>,
    sessions: &mut Sessions<C>,
    name: &Text,
    object: &ObjectId,
) -> Result<Vec<Step>, AllocError>
    requires has { C.has object.now.kind ≡ true }
    requires reached { IsReachedLive (types_of C.laws C.spells D.state) (record { sites = sites.old; sessions = sessions.old.entries }) }
    ensures { IfOk result (λ steps. AppliesLive (types_of C.laws C.spells D.state) (record { sites = sites.old; sessions = sessions.old.entries }) (Command.Read name.now object.now) steps.items (record { sites = sites.new; sessions = sessions.new.entries })) }
{
    match sessions.get_mut(name) {
        Some(session) => {
            if !is_open(session.phase()) {
                return only_in(alloc, spare, Step::NoTxn);
            }
            let (_, answer) = session.read(sites, (), object);
            match answer {
                Ok(step) => {
                    return only_in(alloc, spare, step);
                }
                Err(_) => {
                    return Err(AllocError);
                }
            }
        }
        None => {
            return only_in(alloc, spare, Step::NoSession);
        }
    }
}

/// The line of an update in a session's transaction, which is looked up once.
fn update_in<C: Crdt, D: Disk + Drop>(
    alloc: Global,
    spare: &mut Vec<Step>,
    sites: &mut Local<C, D>,
    sessions: &mut Sessions<C>,
    name: &Text,
    object: &ObjectId,
    op: &Op,
) -> Result<Vec<Step>, AllocError>
    requires has { C.has object.now.kind ≡ true }
    requires shallow { fits object.now.kind op.now.path op.now.act ≡ true → C.too_deep object.now.kind op.now.path ≡ false }
    requires reached { IsReachedLive (types_of C.laws C.spells D.state) (record { sites = sites.old; sessions = sessions.old.entries }) }
    ensures { IfOk result (λ steps. AppliesLive (types_of C.laws C.spells D.state) (record { sites = sites.old; sessions = sessions.old.entries }) (Command.Update name.now object.now op.now) steps.items (record { sites = sites.new; sessions = sessions.new.entries })) }
{
    match sessions.get_mut(name) {
        Some(session) => {
            let (_, answer) = session.update(sites, (), object, op);
            match answer {
                Ok(step) => {
                    return only_update_in(alloc, spare, step);
                }
                Err(error) => match refused(&error) {
                    Ok(line) => {
                        return only_in(alloc, spare, line);
                    }
                    Err(error) => {
                        return Err(error);
                    }
                },
            }
        }
        None => {
            return only_in(alloc, spare, Step::NoSession);
        }
    }
}

/// The line of an update that is refused before any partition is asked, unless it is memory that ran out.
fn refused(error: &SessionError) -> Result<Step, AllocError>
    ensures line { IfOk result (λ line. (line ≡ refused_line error.now) × (error.now ≢ NoMemory)) }
    ensures memory { IfErr result (λ e. error.now ≡ NoMemory) }
{
    match error {
        SessionError::NoTxn => Ok(Step::NoTxn),
        SessionError::TooMany => Ok(Step::LimitUpdates),
        SessionError::NoMemory => Err(AllocError),
        _ => Ok(Step::BadOp),
    }
}
