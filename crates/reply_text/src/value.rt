#![tactic(auto, using(crate::specs::Words::begins_same, crate::specs::Words::begins_after))]

ghost use Rattle.std.specs.Prelude.{◌≡◌, ◌++◌, if◌then◌else◌, [], ◌∷◌, true, codes, IfOk, OnOk, OnErr, string_bytes};
ghost use Rattle.std.specs.Fmt.{signed_decimal};
ghost use Rattle.std.specs.List.{join_by, flat_map};
ghost use Rattle.json.specs.Print.{quoted};
ghost use Rattle.reply_text.specs.Values.{value_text, array_text, object_text, members, member_name, member_text};
ghost use Rattle.script_words.specs.Plain.{is_plain};
ghost use Rattle.script_words.specs.Kinds.{kind_name};
ghost use Rattle.reply_text.specs.Texts.{texts_of, entries_of};
ghost use Rattle.reply_text.specs.Words.{Begins};

use crate::bytes::{put, put_byte, put_few, put_if};
use crate::member::Member;
use crate::quoted::{put_escaped, put_if_plain, put_quoted};
use crdt_core::{Field, Kind, Value};
use field_codec::Text;
use itoa::Buffer;
use script_words::{is_plain, kind_name};
use std::alloc::{AllocError, Global};
use std::collections::{BTreeMap, LinkedList};
use std::mem::replace;

/// The bytes that most values of fields take.
const MOST_OF_A_VALUE: usize = 32;

/// Adds a text of an array, after a comma where something stands before.
#[inline(always)]
fn put_item(alloc: Global, out: &mut Vec<u8>, later: bool, item: &Text) -> Result<(), AllocError>
    ensures ok { OnOk result (out.new.items ≡ out.old.items ++ ((if later then codes "," else []) ++ quoted item.now)) }
    ensures err { OnErr result (Begins out.old.items out.new.items) }
{
    put_if(out, later, b',')?;
    put_quoted(alloc, out, item.as_str())
}

/// Adds each of the texts, with a comma between neighbors.
#[inline(never)]
fn put_each(alloc: Global, out: &mut Vec<u8>, items: &[Text]) -> Result<(), AllocError>
    ensures ok { OnOk result (out.new.items ≡ out.old.items ++ join_by quoted (codes ",") items.now) }
    ensures err { OnErr result (Begins out.old.items out.new.items) }
{
    for (i, item) in items.iter().enumerate() {
        put_item(alloc, out, i > 0, item)?;
    }
    Ok(())
}

/// Adds each of the texts after a comma, if JSON escapes no byte of them, and says whether that is so. Else it may have
/// added some of them.
#[inline(always)]
fn put_rest_plain(out: &mut Vec<u8>, items: &[Text]) -> Result<bool, AllocError>
    ensures all { result ≡ Ok true → out.new.items ≡ out.old.items ++ flat_map (λ w. codes "," ++ quoted w) items.now }
    ensures begins { Begins out.old.items out.new.items }
{
    for item in items {
        if !put_if_plain(out, true, item)? {
            return Ok(false);
        }
    }
    Ok(true)
}

/// What `put_rest_plain` does, with a comma between neighbors alone.
#[inline(always)]
fn put_each_plain(out: &mut Vec<u8>, items: &[Text]) -> Result<bool, AllocError>
    ensures all { result ≡ Ok true → out.new.items ≡ out.old.items ++ join_by quoted (codes ",") items.now }
    ensures begins { Begins out.old.items out.new.items }
{
    match items.split_first() {
        None => Ok(true),
        Some((first, rest)) => {
            if !put_if_plain(out, false, first)? {
                return Ok(false);
            }
            put_rest_plain(out, rest)
        }
    }
}

/// What `put_each_plain` does. Meanwhile the buffer is the function's own, so that its length and its place stay in
/// registers, where no byte that is written can touch them.
#[inline(never)]
fn put_all_plain(alloc: Global, out: &mut Vec<u8>, items: &[Text]) -> Result<bool, AllocError>
    ensures all { result ≡ Ok true → out.new.items ≡ out.old.items ++ join_by quoted (codes ",") items.now }
    ensures begins { Begins out.old.items out.new.items }
{
    let mut taken = replace(out, Vec::new(alloc));
    let put = put_each_plain(&mut taken, items);
    *out = taken;
    put
}

/// Adds the texts with a comma between neighbors. Only where a byte of them is escaped each text is tested first.
fn put_items(alloc: Global, out: &mut Vec<u8>, items: &[Text]) -> Result<(), AllocError>
    ensures ok { OnOk result (out.new.items ≡ out.old.items ++ join_by quoted (codes ",") items.now) }
    ensures err { OnErr result (Begins out.old.items out.new.items) }
{
    let start = out.len();
    if put_all_plain(alloc, out, items)? {
        return Ok(());
    }
    out.truncate(start);
    put_each(alloc, out, items)
}

/// Adds the texts as a JSON array.
fn put_array(alloc: Global, out: &mut Vec<u8>, items: &[Text]) -> Result<(), AllocError>
    ensures ok { OnOk result (out.new.items ≡ out.old.items ++ array_text items.now) }
    ensures err { OnErr result (Begins out.old.items out.new.items) }
{
    put_byte(out, b'[')?;
    put_items(alloc, out, items)?;
    put_byte(out, b']')
}

/// A member's name: the field's kind, a colon and its name.
fn name_of(alloc: Global, field: &Field) -> Result<String, AllocError>
    ensures { IfOk result (λ s. string_bytes s ≡ member_name field.now) }
{
    let (kind, field) = (kind_name(field.kind), field.name.as_str());
    let mut name = String::with_capacity(alloc, kind.len() + 1 + field.len())?;
    name.push_str(kind)?;
    name.push(':')?;
    name.push_str(field)?;
    Ok(name)
}

/// Adds a kind, a colon and a name between quotes.
#[tactic(auto, using(crate::specs::Words::begins_same, crate::specs::Words::begins_after, crate::proofs::Plain::name_parts))]
fn put_plain_name(out: &mut Vec<u8>, kind: Kind, name: &str) -> Result<(), AllocError>
    requires { is_plain name.now ≡ true }
    ensures ok { OnOk result (out.new.items ≡ out.old.items ++ quoted (kind_name kind ++ 58 ∷ name.now)) }
    ensures err { OnErr result (Begins out.old.items out.new.items) }
{
    put_byte(out, b'"')?;
    put(out, kind_name(kind).as_bytes())?;
    put_byte(out, b':')?;
    put_few(out, name.as_bytes())?;
    put_byte(out, b'"')
}

/// Adds a member's name between quotes. It is made only where JSON escapes one of its bytes.
fn put_name(alloc: Global, out: &mut Vec<u8>, field: &Field) -> Result<(), AllocError>
    ensures ok { OnOk result (out.new.items ≡ out.old.items ++ quoted (member_name field.now)) }
    ensures err { OnErr result (Begins out.old.items out.new.items) }
{
    let name = field.name.as_str();
    if is_plain(name.as_bytes()) {
        return put_plain_name(out, field.kind, name);
    }
    put_escaped(alloc, out, false, name_of(alloc, field)?.as_str())
}

/// The texts of the fields' values, in the order of their members' names.
#[cycle(text)]
fn members_of<'a>(
    alloc: Global,
    fields: &'a LinkedList<(Field, Value)>,
) -> Result<BTreeMap<Member<'a>, Vec<u8>>, AllocError>
    ensures { IfOk result (λ m. entries_of m.entries ≡ members (texts_of fields.now)) }
{
    let mut members = BTreeMap::new(alloc);
    for (field, value) in fields {
        let mut text = Vec::with_capacity(alloc, MOST_OF_A_VALUE)?;
        put_value(alloc, &mut text, value)?;
        members.insert(Member { field }, text)?;
    }
    Ok(members)
}

/// Adds a member of a JSON object, after a comma where something stands before.
fn put_member(
    alloc: Global,
    out: &mut Vec<u8>,
    later: bool,
    member: &Member,
    value: &[u8],
) -> Result<(), AllocError>
    ensures ok { OnOk result (out.new.items ≡ out.old.items ++ ((if later then codes "," else []) ++ member_text (member.now, value.now))) }
    ensures err { OnErr result (Begins out.old.items out.new.items) }
{
    put_if(out, later, b',')?;
    put_name(alloc, out, member.field)?;
    put_byte(out, b':')?;
    put(out, value)
}

/// Adds the members with a comma between neighbors.
fn put_members(
    alloc: Global,
    out: &mut Vec<u8>,
    members: &BTreeMap<Member, Vec<u8>>,
) -> Result<(), AllocError>
    ensures ok { OnOk result (out.new.items ≡ out.old.items ++ join_by member_text (codes ",") (entries_of members.now.entries)) }
    ensures err { OnErr result (Begins out.old.items out.new.items) }
{
    let mut later = false;
    for (member, value) in members {
        put_member(alloc, out, later, member, value)?;
        later = true;
    }
    Ok(())
}

/// Adds the members as a JSON object.
fn put_object(
    alloc: Global,
    out: &mut Vec<u8>,
    members: &BTreeMap<Member, Vec<u8>>,
) -> Result<(), AllocError>
    ensures ok { OnOk result (out.new.items ≡ out.old.items ++ object_text (entries_of members.now.entries)) }
    ensures err { OnErr result (Begins out.old.items out.new.items) }
{
    put_byte(out, b'{')?;
    put_members(alloc, out, members)?;
    put_byte(out, b'}')
}

/// Adds the number.
fn put_signed(out: &mut Vec<u8>, n: i128) -> Result<(), AllocError>
    ensures ok { OnOk result (out.new.items ≡ out.old.items ++ signed_decimal n) }
    ensures err { OnErr result (Begins out.old.items out.new.items) }
{
    put(out, Buffer::new().format(n).as_bytes())
}

/// Adds the value as JSON, without spaces.
#[cycle(text)]
pub fn put_value(alloc: Global, out: &mut Vec<u8>, value: &Value) -> Result<(), AllocError>
    ensures ok { OnOk result (out.new.items ≡ out.old.items ++ value_text value.now) }
    ensures err { OnErr result (Begins out.old.items out.new.items) }
{
    match value {
        Value::Int(n) => put_signed(out, *n),
        Value::Flag(true) => put(out, b"true"),
        Value::Flag(false) => put(out, b"false"),
        Value::Word(word) => put_quoted(alloc, out, word.as_str()),
        Value::Words(words) => put_array(alloc, out, words.as_slice()),
        Value::Fields(fields) => put_object(alloc, out, &members_of(alloc, fields)?),
    }
}
