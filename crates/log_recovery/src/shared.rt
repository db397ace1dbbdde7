ghost use Rattle.std.specs.Prelude.{◌≡◌, IfOk};

use crdt_core::{Message, Part, Record, share_part};
use field_codec::ListOf;
use std::alloc::{AllocError, Global};

/// The same parts, whose updates have one more owner each.
fn share_parts<E: Drop>(alloc: Global, parts: &[Part<E>]) -> Result<ListOf<Part<E>>, AllocError>
    ensures { IfOk result (λ l. l ≡ parts.now) }
{
    let mut all = ListOf::new(alloc);
    for part in parts {
        all.push(share_part(part)?)?;
    }
    Ok(all)
}

/// The same message.
fn share_message<E: Drop>(alloc: Global, message: &Message<E>) -> Result<Message<E>, AllocError>
    ensures { IfOk result (λ m. m ≡ message.now) }
{
    let parts = share_parts(alloc, message.parts.as_slice())?;
    Ok(Message {
        from: message.from,
        to: message.to,
        part: message.part,
        lo: message.lo,
        hi: message.hi,
        parts,
    })
}

/// The same record: its updates are shared, and not copied.
///
/// # Errors
///
/// `AllocError` where memory runs out, or where updates have 2^63 owners.
pub(crate) fn share_record<E: Drop>(alloc: Global, old: &Record<E>) -> Result<Record<E>, AllocError>
    ensures { IfOk result (λ r. r ≡ old.now) }
{
    match old {
        Record::Lease { ceil } => Ok(Record::Lease { ceil: *ceil }),
        Record::Prepare {
            tx,
            lead,
            time,
            s,
            updates,
        } => {
            let updates = updates.share()?;
            Ok(Record::Prepare {
                tx: *tx,
                lead: *lead,
                time: *time,
                s: *s,
                updates,
            })
        }
        Record::Decide { tx, c } => Ok(Record::Decide { tx: *tx, c: *c }),
        Record::Finish { tx, c } => Ok(Record::Finish { tx: *tx, c: *c }),
        Record::Abort { tx } => Ok(Record::Abort { tx: *tx }),
        Record::Batch { message } => {
            let message = share_message(alloc, message)?;
            Ok(Record::Batch { message })
        }
    }
}
