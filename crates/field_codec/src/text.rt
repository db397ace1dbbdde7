ghost use Rattle.std.specs.Prelude.{◌≡◌, ◌≤◌, ◌<◌, ◌++◌, ◌+◌, ◌∷◌, [], ℕ, List, Bool, true, Some, None, vec_len, vec_capacity, IfOk, IfSome, IfNone, OnOk, OnErr, length, nat_eq, nat_le, if◌then◌else◌};
ghost use Rattle.std.specs.Str.{bytes_eq};
ghost use Rattle.std.specs.Ordering.{nat_cmp, as_partial_cmp};
ghost use Rattle.std.specs.Cmp.Lexicographic.{slice_cmp};
ghost use Rattle.std.specs.Cmp.Rules.{comparing, hashing};
ghost use Rattle.std.specs.Hash as fed;
ghost use Rattle.std.specs.Cmp.{partial_order_from_own_ties};
ghost use Rattle.std.proofs.Common.{rules};
ghost use Rattle.field_codec.specs.Spelling.{text as spelled, is_text, is_below};
ghost use Rattle.field_codec.specs.FormLaws.{any_text_form};
ghost use Rattle.field_codec.specs.Reading.{Gives, text_at, bytes_at};
ghost use Rattle.field_codec.specs.Inline.{bytes_of};

use crate::compare::{is_same, order_of};
use crate::{Form, TakeError, put_u16, take_u16};
use arrayvec::ArrayString;
use std::alloc::{AllocError, Global};
use std::cmp::Ordering;
use std::hash::{Hash, Hasher};
use std::marker::Model;

/// The most bytes of a text.
pub const MOST_BYTES: usize = 256;

/// The most bytes of a text that takes no memory of its own.
const MOST_INLINE: usize = 16;

/// Where a text's bytes lie: in the value itself, or in memory of their own.
#[derive(Debug, Drop)]
enum Bytes {
    Inline(ArrayString<16>),
    Apart(String),
}

/// A text of at most 256 bytes in UTF-8. Contracts see it as its bytes. One of at most 16 bytes takes no memory.
#[derive(Debug, Drop)]
pub struct Text {
    bytes: Bytes,
}

impl Model for Text {
    ghost use Rattle.std.specs.Prelude.{ℕ, List, ◌≤◌, length};
    ghost use Rattle.field_codec.specs.Inline.{bytes_of};

    ghost Value = { List ℕ };

    ghost view = { λ t. bytes_of t.bytes };

    ghost invariant = { λ t. length (bytes_of t.bytes) ≤ 256 };
}

impl Text {
    /// The text with these bytes, or `None` exactly where there are more than 256.
    ///
    /// # Errors
    ///
    /// `AllocError` where memory runs out.
    pub fn of(alloc: Global, s: &str) -> Result<Option<Text>, AllocError>
        ensures some { IfOk result (λ o. IfSome o (λ t. t ≡ s.now)) }
        ensures fits { IfOk result (λ o. IfSome o (λ t. length s.now ≤ 256)) }
        ensures none { IfOk result (λ o. IfNone o (256 < length s.now)) }
    {
        if s.len() > MOST_BYTES {
            return Ok(None);
        }
        Ok(Some(Text::short(alloc, s)?))
    }

    #[tactic(auto, unfolding(crate::specs::Inline::bytes_of))]
    fn short(alloc: Global, s: &str) -> Result<Text, AllocError>
        requires { length s.now ≤ 256 }
        ensures { IfOk result (λ t. t ≡ s.now) }
    {
        let bytes = if s.len() <= MOST_INLINE {
            let mut inline = ArrayString::new();
            inline.push_str(s);
            Bytes::Inline(inline)
        } else {
            Bytes::Apart(String::from_str(alloc, s)?)
        };
        Ok(Text { bytes })
    }

    /// Makes it the text with these bytes, and answers whether they are at most 256. Where they are more, it is as
    /// before. One of at most 16 bytes is written over another of so few.
    ///
    /// # Errors
    ///
    /// `AllocError` where memory runs out. It is as before then.
    #[tactic(auto, unfolding(crate::specs::Inline::bytes_of))]
    pub fn set(&mut self, alloc: Global, s: &str) -> Result<bool, AllocError>
        ensures fits { IfOk result (λ fits. fits ≡ nat_le (length s.now) 256) }
        ensures ok { IfOk result (λ fits. self.new ≡ (if fits then s.now else self.old)) }
        ensures err { OnErr result (self.new ≡ self.old) }
    {
        if s.len() > MOST_BYTES {
            return Ok(false);
        }
        match &mut self.bytes {
            Bytes::Inline(inline) => {
                if s.len() <= MOST_INLINE {
                    inline.clear();
                    inline.push_str(s);
                    return Ok(true);
                }
            }
            Bytes::Apart(_) => {}
        }
        let made = Text::short(alloc, s)?;
        *self = made;
        Ok(true)
    }

    /// The text's characters.
    #[tactic(auto, unfolding(crate::specs::Inline::bytes_of))]
    pub fn as_str(&self) -> &str
        ensures value { result.now ≡ self.now }
        ensures small { length self.now ≤ 256 }
    {
        match &self.bytes {
            Bytes::Inline(bytes) => bytes.as_str(),
            Bytes::Apart(bytes) => bytes.as_str(),
        }
    }

    /// An equal text.
    ///
    /// # Errors
    ///
    /// `AllocError` where memory runs out.
    #[tactic(auto, unfolding(crate::specs::Inline::bytes_of))]
    pub fn copy(&self, alloc: Global) -> Result<Text, AllocError>
        ensures { IfOk result (λ t. t ≡ self.now) }
    {
        let bytes = match &self.bytes {
            Bytes::Inline(bytes) => Bytes::Inline(*bytes),
            Bytes::Apart(bytes) => Bytes::Apart(String::from_str(alloc, bytes.as_str())?),
        };
        Ok(Text { bytes })
    }
}

/// Appends bytes for which there is room, one after another.
#[inline(always)]
fn put_few(out: &mut Vec<u8>, bytes: &[u8])
    requires room { vec_len out.old + length bytes.now ≤ vec_capacity out.old }
    ensures { out.new.items ≡ out.old.items ++ bytes.now }
{
    for byte in bytes {
        out.push_reserved(*byte);
    }
}

/// Appends bytes. Most texts are short, and a call that copies them would take longer than a loop.
fn put_bytes(out: &mut Vec<u8>, bytes: &[u8]) -> Result<(), AllocError>
    ensures ok { OnOk result (out.new.items ≡ out.old.items ++ bytes.now) }
    ensures err { OnErr result (out.new.items ≡ out.old.items) }
{
    if bytes.len() > MOST_INLINE {
        return out.extend_from_slice(bytes);
    }
    out.reserve(bytes.len())?;
    put_few(out, bytes);
    Ok(())
}

/// Appends the length in two bytes, and the bytes.
///
/// # Errors
///
/// `AllocError` where memory runs out. `out` is as before then.
#[tactic(auto, using(crate::proofs::Texts::text_spelled))]
pub fn put_text(out: &mut Vec<u8>, t: &Text) -> Result<(), AllocError>
    ensures text { is_text t.now ≡ true }
    ensures ok { OnOk result (out.new.items ≡ out.old.items ++ spelled t.now) }
    ensures err { OnErr result (out.new.items ≡ out.old.items) }
{
    let start = out.len();
    let text = t.as_str();
    put_u16(out, text.len() as u16)?;
    if let Err(error) = put_bytes(out, text.as_bytes()) {
        out.truncate(start);
        return Err(error);
    }
    Ok(())
}

/// The text at a place, and the place after it.
///
/// # Errors
///
/// `Short` at the place of the length or of the bytes where the one or the other is cut off, `Bad` at
/// the place of the length where it is more than 256, and at that of the bytes where they aren't UTF-8.
#[tactic(auto, unfolding(crate::specs::Reading::text_at))]
pub fn take_text(alloc: Global, bytes: &[u8], at: usize) -> Result<(Text, usize), TakeError>
    ensures answer { Gives result (text_at bytes.now at) }
    ensures within { IfOk result (λ x. x.1 ≤ length bytes.now) }
{
    let (len, start) = take_u16(bytes, at)?;
    let len = len as usize;
    if len > MOST_BYTES {
        return Err(TakeError::Bad { at });
    }
    take_bytes(alloc, len, bytes, start)
}

#[tactic(auto, unfolding(crate::specs::Reading::bytes_at))]
fn take_bytes(
    alloc: Global,
    len: usize,
    bytes: &[u8],
    at: usize,
) -> Result<(Text, usize), TakeError>
    requires within { at ≤ length bytes.now }
    requires most { len ≤ 256 }
    ensures answer { Gives result (bytes_at len bytes.now at) }
    ensures within { IfOk result (λ x. x.1 ≤ length bytes.now) }
{
    if bytes.len() - at < len {
        return Err(TakeError::Short { at });
    }
    match str::from_utf8(&bytes[at..at + len]) {
        Ok(s) => {
            let text = Text::short(alloc, s)?;
            Ok((text, at + len))
        }
        Err(_) => Err(TakeError::Bad { at }),
    }
}

/// A clone is the same text.
impl Clone for Text {
    ghost is_clone = { λ t copy. copy ≡ t };

    #[tactic(auto, unfolding(crate::specs::Inline::bytes_of))]
    fn clone(&self) -> Result<Text, AllocError> {
        let bytes = match &self.bytes {
            Bytes::Inline(bytes) => Bytes::Inline(*bytes),
            Bytes::Apart(bytes) => Bytes::Apart(bytes.clone()?),
        };
        Ok(Text { bytes })
    }
}

impl PartialEq for Text {
    ghost eq = { bytes_eq };

    ghost laws = { Prim.search (comparing, rules) };

    fn eq(&self, other: &Text) -> bool {
        is_same(self.as_str().as_bytes(), other.as_str().as_bytes())
    }
}

impl Eq for Text {
    ghost laws = { Prim.search (comparing, rules) };
}

impl Ord for Text {
    ghost cmp = { slice_cmp nat_cmp };

    ghost total = { Prim.search (comparing, rules) };

    ghost matches_partial_cmp = { Prim.search (comparing, rules) };

    ghost matches_eq = { Prim.search (comparing, rules) };

    fn cmp(&self, other: &Text) -> Ordering {
        order_of(self.as_str().as_bytes(), other.as_str().as_bytes())
    }
}

impl PartialOrd for Text {
    ghost partial_cmp = { as_partial_cmp (slice_cmp nat_cmp) };

    ghost laws = { partial_order_from_own_ties (Prim.search (comparing, rules)) (Prim.search (comparing, rules)) };

    fn partial_cmp(&self, other: &Text) -> Option<Ordering> {
        Some(self.cmp(other))
    }
}

impl Hash for Text {
    ghost hash_input = { fed.str };

    ghost respects_eq = { Prim.search (hashing, rules) };

    fn hash<H: Hasher>(&self, state: &mut H) {
        self.as_str().hash(state);
    }
}

/// The form of texts. Lists of them ascend by their bytes.
#[derive(Clone, Copy, Debug)]
pub struct TextForm;

impl Form for TextForm {
    type Value = Text;

    ghost fits = { λ _ t. true };

    ghost keeps = { λ _ t. is_text t };

    ghost is_spelled = { λ _ t. is_text t };

    ghost spelling = { λ _ t. spelled t };

    ghost reading = { λ _ bytes at. text_at bytes at };

    ghost follows = { λ _ before t. is_below (slice_cmp nat_cmp) before t };

    fn put(&self, out: &mut Vec<u8>, value: &Text) -> Result<(), AllocError> {
        put_text(out, value)
    }

    fn take(&self, alloc: Global, bytes: &[u8], at: usize) -> Result<(Text, usize), TakeError> {
        take_text(alloc, bytes, at)
    }

    fn may_follow(&self, before: &Text, value: &Text) -> bool {
        before < value
    }

    ghost laws = { λ _. any_text_form };
}
