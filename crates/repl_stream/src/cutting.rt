ghost use Rattle.std.specs.Prelude.{◌≡◌, ◌++◌, ◌∷◌, [], OnOk, IfOk};
ghost use Rattle.site_vector.specs.Vector.{entry};
ghost use Rattle.crdt_core.specs.Parts.{above};

use crdt_core::{Crdt, Message, Part, share_part};
use field_codec::ListOf;
use site_vector::VTime;
use std::alloc::{AllocError, Global};

/// The entry of a site, or 0 where the vector has none. Sites are numbered from 1.
fn time_of(c: &VTime, site: u8) -> u64
    ensures { result ≡ entry c.now site }
{
    let times = c.as_slice();
    let at = site.saturating_sub(1) as usize;
    if at < times.len() {
        return times[at];
    }
    0
}

/// Adds the same part where its commit time at the site is above a bound.
fn add_above<C: Crdt>(
    all: &mut ListOf<Part<C::Effect>>,
    part: &Part<C::Effect>,
    site: u8,
    bound: u64,
) -> Result<(), AllocError>
    ensures { OnOk result (all.new ≡ all.old ++ above site bound (part.now ∷ [])) }
{
    if time_of(&part.c, site) > bound {
        return all.push(share_part(part)?);
    }
    Ok(())
}

/// The parts whose commit time at the site is above a bound.
fn copy_above<C: Crdt>(
    alloc: Global,
    parts: &[Part<C::Effect>],
    site: u8,
    bound: u64,
) -> Result<ListOf<Part<C::Effect>>, AllocError>
    ensures { IfOk result (λ l. l ≡ above site bound parts.now) }
{
    let mut all = ListOf::new(alloc);
    for part in parts {
        add_above::<C>(&mut all, part, site, bound)?;
    }
    Ok(all)
}

/// The same stretch from `have` on: the message without the parts whose commit time is at most `have`, in logical
/// ticks. Its parts are shared with it.
///
/// # Errors
///
/// `AllocError` where memory runs out.
pub fn cut_at<C: Crdt>(
    alloc: Global,
    m: &Message<C::Effect>,
    have: u64,
) -> Result<Message<C::Effect>, AllocError>
    ensures { IfOk result (λ x. x ≡ record m.now { lo = have; parts = above m.now.from have m.now.parts }) }
{
    let parts = copy_above::<C>(alloc, m.parts.as_slice(), m.from, have)?;
    Ok(Message {
        from: m.from,
        to: m.to,
        part: m.part,
        lo: have,
        hi: m.hi,
        parts,
    })
}
