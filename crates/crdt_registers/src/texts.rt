ghost use Rattle.std.specs.Prelude.{◌≡◌, IfOk};
ghost use Rattle.crdt_meanings.specs.RegisterMv.{texts_kept};
ghost use Rattle.crdt_meanings.specs.Sorted.{sorted};

use crdt_core::Kept;
use field_codec::{ListOf, Text};
use std::alloc::{AllocError, Global};

/// The texts that are kept, in the order of their bytes, equal ones kept.
///
/// # Errors
///
/// `AllocError` where memory runs out.
pub fn in_order(alloc: Global, kept: &Kept<Text>) -> Result<ListOf<Text>, AllocError>
    ensures { IfOk result (λ l. l ≡ sorted (texts_kept kept.now)) }
{
    let mut texts = texts_of(alloc, kept)?;
    texts.sort()?;
    list_of(alloc, texts)
}

/// The texts that are kept, in the order of their dots.
fn texts_of(alloc: Global, kept: &Kept<Text>) -> Result<Vec<Text>, AllocError>
    ensures { IfOk result (λ v. v.items ≡ texts_kept kept.now) }
{
    let mut texts = Vec::new(alloc);
    for (_dot, text) in kept.iter() {
        texts.push(text.copy(alloc)?)?;
    }
    Ok(texts)
}

fn list_of(alloc: Global, texts: Vec<Text>) -> Result<ListOf<Text>, AllocError>
    ensures { IfOk result (λ l. l ≡ texts.items) }
{
    let mut list = ListOf::new(alloc);
    for text in texts {
        list.push(text)?;
    }
    Ok(list)
}
