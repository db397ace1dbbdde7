ghost use Rattle.std.specs.Prelude.{◌≡◌, ◌≤◌, ◌++◌, ℕ, true, length, OnOk, OnErr, IfOk, IfErr};
ghost use Rattle.crdt_core.specs.declared.record.Record.TheVariants.{Batch};
ghost use Rattle.log_records.specs.Messages.{can_put_batch};
ghost use Rattle.log_records.specs.Records.{can_put_record, is_record_spelled, record_bytes, record_at};
ghost use Rattle.log_records.specs.Whole.{whole_at, Tells};

use crate::RecordError;
use crate::record_form::{RecordForm, put_batch_fields, take_record};
use crdt_core::{Crdt, Message, Record};
use field_codec::{TakeError, put_whole};
use std::alloc::{AllocError, Global};
use std::marker::PhantomData;

/// Appends the bytes of a record.
///
/// # Errors
///
/// `AllocError` where memory runs out, or where a list has 2^32 members or more. `out` is as before then.
pub fn put<C: Crdt>(out: &mut Vec<u8>, value: &Record<C::Effect>) -> Result<(), AllocError>
    requires { can_put_record C.has C.is_of C.can_put value.now ≡ true }
    ensures spelled { OnOk result (is_record_spelled C.has C.is_of C.is_spelled value.now ≡ true) }
    ensures ok { OnOk result (out.new.items ≡ out.old.items ++ record_bytes C.spelling value.now) }
    ensures err { OnErr result (out.new.items ≡ out.old.items) }
{
    let form: RecordForm<C> = RecordForm { kinds: PhantomData };
    put_whole(&form, out, value)
}

/// Appends the bytes of the Batch of a message that has parts.
///
/// # Errors
///
/// `AllocError` where memory runs out, or where a list has 2^32 members or more. `out` is as before then.
pub fn put_batch<C: Crdt>(out: &mut Vec<u8>, message: &Message<C::Effect>) -> Result<(), AllocError>
    requires { can_put_batch C.has C.is_of C.can_put message.now ≡ true }
    ensures spelled { OnOk result (is_record_spelled C.has C.is_of C.is_spelled (Batch message.now) ≡ true) }
    ensures ok { OnOk result (out.new.items ≡ out.old.items ++ record_bytes C.spelling (Batch message.now)) }
    ensures err { OnErr result (out.new.items ≡ out.old.items) }
{
    let start = out.len();
    let put = put_batch_fields::<C>(out, message);
    if put.is_err() {
        out.truncate(start);
    }
    put
}

/// The record that these bytes are, all of them. It can be put.
///
/// # Errors
///
/// `Damaged` exactly where the bytes are no record, with the place of the first field that the grammar refuses, of the
/// first byte behind the record, or of the first byte of all where the bytes end too early; `NoMemory` where memory runs
/// out.
pub fn take<C: Crdt>(alloc: Global, bytes: &[u8]) -> Result<Record<C::Effect>, RecordError>
    ensures answer { Tells result (whole_at (record_at C.has C.reading) bytes.now) }
    ensures fit { IfOk result (λ r. can_put_record C.has C.is_of C.can_put r ≡ true) }
    ensures spelled { IfOk result (λ r. is_record_spelled C.has C.is_of C.is_spelled r ≡ true) }
    ensures bytes { IfOk result (λ r. bytes.now ≡ record_bytes C.spelling r) }
    ensures within { IfErr result (λ e. (at : ℕ) → e ≡ RecordError.Damaged at → at ≤ length bytes.now) }
{
    match take_record::<C>(alloc, bytes, 0) {
        Ok((record, end)) => {
            if end != bytes.len() {
                return Err(RecordError::Damaged { at: end });
            }
            Ok(record)
        }
        Err(TakeError::Short { .. }) => Err(RecordError::Damaged { at: 0 }),
        Err(TakeError::Bad { at }) => Err(RecordError::Damaged { at }),
        Err(TakeError::NoMemory) => Err(RecordError::NoMemory),
    }
}
