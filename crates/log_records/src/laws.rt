ghost use Rattle.std.specs.Prelude.{◌≡◌, ◌<◌, ℕ};
ghost use Rattle.field_codec.specs.Lawful.{IsForm, IsPrefixFree};
ghost use Rattle.crdt_core.specs.declared.record.Part.{Part};
ghost use Rattle.crdt_core.specs.Orders.{stream_cmp};
ghost use Rattle.log_records.specs.Parts.{part_cmp};
ghost use Rattle.log_records.specs.Messages.{can_put_message, is_message_spelled, keeps_message, message, message_at};
ghost use Rattle.log_records.specs.Records.{keeps_record, can_put_record, is_record_spelled, record_bytes, record_at};
ghost use Rattle.log_records.specs.Whole.{ReadsWhole};

use crdt_core::Crdt;

/// Reading answers a message and the place after it exactly where its spelling stands at the place, each refusal means
/// what it says, and no spelling begins that of another. What can be put, and is held as types hold it, has a spelling
/// but where that would be 2^32 bytes or more. The parts of one from a site stand in the order of that site's stream.
pub fn law_messages<C: Crdt>()
    ensures form { IsForm (can_put_message C.has C.is_of C.can_put) (keeps_message C.keeps) (is_message_spelled C.has C.is_of C.is_spelled) (message C.spelling) (message_at C.has C.reading) }
    ensures apart { IsPrefixFree (is_message_spelled C.has C.is_of C.is_spelled) (message C.spelling) }
    ensures order { (site : ℕ) (p q : Part C.Effect) → 0 < site → part_cmp site p q ≡ stream_cmp site p q }
{}

/// The same of records. Bytes are a record exactly where they are its spelling, and are else damaged at one place: that
/// of a field that is refused, that of the first byte behind a record, or 0 where they end too early.
pub fn law_records<C: Crdt>()
    ensures form { IsForm (can_put_record C.has C.is_of C.can_put) (keeps_record C.keeps) (is_record_spelled C.has C.is_of C.is_spelled) (record_bytes C.spelling) (record_at C.has C.reading) }
    ensures apart { IsPrefixFree (is_record_spelled C.has C.is_of C.is_spelled) (record_bytes C.spelling) }
    ensures whole { ReadsWhole (is_record_spelled C.has C.is_of C.is_spelled) (record_bytes C.spelling) (record_at C.has C.reading) }
{}
