// The bytes of records, in memory of their own.
ghost use Rattle.std.specs.Prelude.{◌≡◌, true, IfOk};
ghost use Rattle.crdt_core.specs.declared.record.Record.TheVariants.{Batch};
ghost use Rattle.log_records.specs.Messages.{can_put_batch};
ghost use Rattle.log_records.specs.Records.{can_put_record};
ghost use Rattle.partition_log.specs.Codec.{codec_of};

use crdt_core::{Crdt, Message, Record};
use log_records::{put, put_batch};
use std::alloc::{AllocError, Global};

/// What most records take, so that their bytes grow in place.
const USUAL_BYTES: usize = 512;

pub(crate) fn payload_of<C: Crdt>(
    alloc: Global,
    value: &Record<C::Effect>,
) -> Result<Vec<u8>, AllocError>
    requires { can_put_record C.has C.is_of C.can_put value.now ≡ true }
    ensures spelled { IfOk result (λ payload. (codec_of C.spells).spelled value.now ≡ true) }
    ensures bytes { IfOk result (λ payload. payload.items ≡ (codec_of C.spells).bytes value.now) }
{
    let mut payload = Vec::with_capacity(alloc, USUAL_BYTES)?;
    put::<C>(&mut payload, value)?;
    Ok(payload)
}

pub(crate) fn payload_of_batch<C: Crdt>(
    alloc: Global,
    message: &Message<C::Effect>,
) -> Result<Vec<u8>, AllocError>
    requires { can_put_batch C.has C.is_of C.can_put message.now ≡ true }
    ensures spelled { IfOk result (λ payload. (codec_of C.spells).spelled (Batch message.now) ≡ true) }
    ensures bytes { IfOk result (λ payload. payload.items ≡ (codec_of C.spells).bytes (Batch message.now)) }
{
    let mut payload = Vec::with_capacity(alloc, USUAL_BYTES)?;
    put_batch::<C>(&mut payload, message)?;
    Ok(payload)
}
