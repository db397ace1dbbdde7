ghost use Rattle.std.specs.Prelude.{◌≡◌, ◌+◌, ℕ, true, Some, None, IfOk, OnOk, if◌then◌else◌, is_some, length, nat_eq};
ghost use Rattle.site_partitions.specs.Reaches.{types_of};
ghost use Rattle.cluster.specs.Built.{is_of_post};
ghost use Rattle.cluster.specs.Post.{item_at, lacks_way};
ghost use Rattle.cluster.specs.Reached.{Applies, IsReached};

use crate::cluster::only;
use crate::post::Note;
use crate::running::Running;
use crate::store::{NO_TX, failed};
use crdt_core::{Crdt, Message};
use disk_core::Disk;
use indexmap::IndexMap;
use site_vector::PartId;
use std::alloc::AllocError;
use world_model::{Command, Step};

/// The most messages that are kept at one time, and the most reports.
const MOST_IN_POST: usize = 4096;

impl<C: Crdt, D: Disk + Drop> Running<C, D> {
    /// The lines that answer a command of messages or reports. A function of its own, whose frame no other command needs.
    #[inline(never)]
    pub(crate) fn handle(&mut self, command: &Command) -> Result<Vec<Step>, AllocError>
        requires of_post { is_of_post command.now ≡ true }
        requires reached { IsReached (types_of C.laws C.spells D.state) (Some self.old) }
        ensures { IfOk result (λ steps. Applies (types_of C.laws C.spells D.state) (Some self.old) command.now steps.items (Some self.new)) }
    {
        match command {
            Command::Send { part, site, from } => {
                return self.send(*part, *site, *from);
            }
            Command::Deliver { number } => {
                return self.deliver(*number);
            }
            Command::Report { part } => {
                return self.report(*part);
            }
            Command::Hear { number, part } => {
                return self.hear(*number, *part);
            }
            Command::DropMessage { number } => {
                return self.drop_message(*number);
            }
            Command::DropReport { number } => {
                return self.drop_report(*number);
            }
            _ => {
                return only(self.alloc, Step::Unbuilt);
            }
        }
    }

    /// Has a partition make a message for another site, and keeps it.
    fn send(&mut self, part: PartId, site: u8, from: Option<u64>) -> Result<Vec<Step>, AllocError>
        requires reached { IsReached (types_of C.laws C.spells D.state) (Some self.old) }
        ensures { IfOk result (λ steps. Applies (types_of C.laws C.spells D.state) (Some self.old) (Command.Send part site from) steps.items (Some self.new)) }
    {
        if self.lacks_way(part, site) {
            return only(self.alloc, Step::NoPart);
        }
        if self.letters.len() == MOST_IN_POST {
            return only(self.alloc, Step::LimitMessages);
        }
        let number = self.next_letter;
        let next = after(number)?;
        match self.live.release(part, site, from) {
            Ok(message) => {
                let step = Step::Sent {
                    number,
                    part,
                    to: site,
                    lo: message.lo,
                    hi: message.hi,
                    count: message.parts.as_slice().len() as u64,
                };
                keep_message(&mut self.letters, number, message)?;
                self.next_letter = next;
                return only(self.alloc, step);
            }
            Err(error) => {
                let line = failed(part, NO_TX, 0, error)?;
                return only(self.alloc, line);
            }
        }
    }

    /// Whether a partition or a site isn't there, or the site is the partition's own.
    fn lacks_way(&self, part: PartId, site: u8) -> bool
        ensures { result ≡ lacks_way self.now.live.sites part site }
    {
        !self.live.has_part(part) || !self.live.has_site(site) || site == part.site
    }

    /// Hands a message to the partition that it is for.
    fn deliver(&mut self, number: u64) -> Result<Vec<Step>, AllocError>
        requires reached { IsReached (types_of C.laws C.spells D.state) (Some self.old) }
        ensures { IfOk result (λ steps. Applies (types_of C.laws C.spells D.state) (Some self.old) (Command.Deliver number) steps.items (Some self.new)) }
    {
        let Some(message) = self.letters.get(&number) else {
            return only(self.alloc, Step::NoMessage);
        };
        let at = PartId {
            site: message.to,
            part: message.part,
        };
        match self.live.take(at, message) {
            Ok(()) => {
                return only(
                    self.alloc,
                    Step::Took {
                        number,
                        hi: message.hi,
                    },
                );
            }
            Err(error) => {
                let line = failed(at, NO_TX, number, error)?;
                return only(self.alloc, line);
            }
        }
    }

    /// Has a partition report its bounds, and keeps the report.
    fn report(&mut self, part: PartId) -> Result<Vec<Step>, AllocError>
        requires reached { IsReached (types_of C.laws C.spells D.state) (Some self.old) }
        ensures { IfOk result (λ steps. Applies (types_of C.laws C.spells D.state) (Some self.old) (Command.Report part) steps.items (Some self.new)) }
    {
        if !self.live.has_part(part) {
            return only(self.alloc, Step::NoPart);
        }
        if self.notes.len() == MOST_IN_POST {
            return only(self.alloc, Step::LimitReports);
        }
        let number = self.next_note;
        let next = after(number)?;
        match self.live.report(part) {
            Ok(bounds) => {
                keep_report(&mut self.notes, number, Note { from: part, bounds })?;
                self.next_note = next;
                let step = Step::Reported {
                    number,
                    part,
                    bounds,
                };
                return only(self.alloc, step);
            }
            Err(error) => {
                let line = failed(part, NO_TX, 0, error)?;
                return only(self.alloc, line);
            }
        }
    }

    /// Tells a partition what another one of its site reported.
    fn hear(&mut self, number: u64, part: PartId) -> Result<Vec<Step>, AllocError>
        requires reached { IsReached (types_of C.laws C.spells D.state) (Some self.old) }
        ensures { IfOk result (λ steps. Applies (types_of C.laws C.spells D.state) (Some self.old) (Command.Hear number part) steps.items (Some self.new)) }
    {
        if !self.live.has_part(part) {
            return only(self.alloc, Step::NoPart);
        }
        let Some(note) = self.notes.get(&number) else {
            return only(self.alloc, Step::NoMessage);
        };
        if note.from.site != part.site {
            return only(self.alloc, Step::NoPart);
        }
        match self.live.hear(part, note.from.part, &note.bounds) {
            Ok(stable) => {
                let step = Step::Heard {
                    number,
                    part,
                    stable,
                };
                return only(self.alloc, step);
            }
            Err(error) => {
                let line = failed(part, NO_TX, 0, error)?;
                return only(self.alloc, line);
            }
        }
    }

    /// Forgets a message.
    fn drop_message(&mut self, number: u64) -> Result<Vec<Step>, AllocError>
        ensures { IfOk result (λ steps. Applies (types_of C.laws C.spells D.state) (Some self.old) (Command.DropMessage number) steps.items (Some self.new)) }
    {
        if !self.letters.contains_key(&number) {
            return only(self.alloc, Step::NoMessage);
        }
        forget_message(&mut self.letters, number);
        only(self.alloc, Step::DroppedMessage { number })
    }

    /// Forgets a report.
    fn drop_report(&mut self, number: u64) -> Result<Vec<Step>, AllocError>
        ensures { IfOk result (λ steps. Applies (types_of C.laws C.spells D.state) (Some self.old) (Command.DropReport number) steps.items (Some self.new)) }
    {
        if !self.notes.contains_key(&number) {
            return only(self.alloc, Step::NoMessage);
        }
        forget_report(&mut self.notes, number);
        only(self.alloc, Step::DroppedReport { number })
    }
}

/// The number after this one.
///
/// # Errors
///
/// `AllocError` where there is none: 2^64 messages or reports would have been made.
fn after(number: u64) -> Result<u64, AllocError>
    ensures { IfOk result (λ n. n ≡ number + 1) }
{
    match number.checked_add(1) {
        Some(next) => Ok(next),
        None => Err(AllocError),
    }
}

/// Keeps a message under a number that is new.
fn keep_message<E: Drop>(
    letters: &mut IndexMap<u64, Message<E>>,
    number: u64,
    message: Message<E>,
) -> Result<(), AllocError>
    requires { item_at letters.old.entries number ≡ None }
    ensures find { OnOk result ((k : ℕ) → item_at letters.new.entries k ≡ (if nat_eq number k then Some message else item_at letters.old.entries k)) }
    ensures count { OnOk result (length letters.new.entries ≡ length letters.old.entries + 1) }
{
    letters.insert(number, message)?;
    Ok(())
}

/// Keeps a report under a number that is new.
fn keep_report(notes: &mut IndexMap<u64, Note>, number: u64, note: Note) -> Result<(), AllocError>
    requires { item_at notes.old.entries number ≡ None }
    ensures find { OnOk result ((k : ℕ) → item_at notes.new.entries k ≡ (if nat_eq number k then Some note else item_at notes.old.entries k)) }
    ensures count { OnOk result (length notes.new.entries ≡ length notes.old.entries + 1) }
{
    notes.insert(number, note)?;
    Ok(())
}

/// Forgets a message that is there.
fn forget_message<E: Drop>(letters: &mut IndexMap<u64, Message<E>>, number: u64)
    requires { is_some (item_at letters.old.entries number) ≡ true }
    ensures find { (k : ℕ) → item_at letters.new.entries k ≡ (if nat_eq number k then None else item_at letters.old.entries k) }
    ensures count { length letters.new.entries + 1 ≡ length letters.old.entries }
{
    let _ = letters.swap_remove(&number);
}

/// Forgets a report that is there.
fn forget_report(notes: &mut IndexMap<u64, Note>, number: u64)
    requires { is_some (item_at notes.old.entries number) ≡ true }
    ensures find { (k : ℕ) → item_at notes.new.entries k ≡ (if nat_eq number k then None else item_at notes.old.entries k) }
    ensures count { length notes.new.entries + 1 ≡ length notes.old.entries }
{
    let _ = notes.swap_remove(&number);
}
