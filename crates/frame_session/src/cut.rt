// The frames among bytes that are all there.
ghost use Rattle.std.specs.Prelude.{◌≡◌, ◌≤◌, [], ◌∷◌, ◌++◌, length, drop, map, option_map, Some, None, IfOk, IfSome, IfNone, OnOk};
ghost use Rattle.frame_session.specs.Frames.{frames_of, rest_of};
ghost use Rattle.frame_session.specs.Cut.{first_body};

use std::alloc::{AllocError, Global};

/// The body of the frame that stands first among bytes, where it is whole.
fn first_body(bytes: &[u8]) -> Option<&[u8]>
    ensures { option_map (λ body. body.now) result ≡ first_body bytes.now }
{
    match bytes {
        [high, low, rest @ ..] => rest.get(..usize::from(*high) * 256 + usize::from(*low)),
        _ => None,
    }
}

/// The same from a place on.
#[tactic(auto, using(crate::proofs::Fronts::body_found, crate::proofs::Fronts::none_there))]
fn body_at(bytes: &[u8], place: usize) -> Option<&[u8]>
    requires { place ≤ length bytes.now }
    ensures some { IfSome result (λ body. first_body (drop place bytes.now) ≡ Some body.now) }
    ensures none { IfNone result (first_body (drop place bytes.now) ≡ None) }
{
    first_body(&bytes[place..])
}

/// One frame more.
fn put(frames: &mut Vec<Vec<u8>>, body: &[u8]) -> Result<(), AllocError>
    ensures { OnOk result (map (λ f. f.items) frames.new.items ≡ map (λ f. f.items) frames.old.items ++ body.now ∷ []) }
{
    let alloc = *frames.allocator();
    frames.push(Vec::from_slice(alloc, body)?)?;
    Ok(())
}

/// The bodies of the frames among bytes, and where the last of them ends.
#[tactic(auto, using(crate::proofs::Fronts::cut_start, crate::proofs::Fronts::cut_on, crate::proofs::Fronts::cut_frames, crate::proofs::Fronts::cut_rest))]
pub(crate) fn cut(alloc: Global, bytes: &[u8]) -> Result<(Vec<Vec<u8>>, usize), AllocError>
    ensures frames { IfOk result (λ c. map (λ f. f.items) c.0.items ≡ frames_of bytes.now) }
    ensures rest { IfOk result (λ c. drop c.1 bytes.now ≡ rest_of bytes.now) }
    ensures within { IfOk result (λ c. c.1 ≤ length bytes.now) }
{
    let mut frames = Vec::new(alloc);
    let mut done = 0;
    while let Some(body) = body_at(bytes, done) {
        put(&mut frames, body)?;
        done += 2 + body.len();
    }
    Ok((frames, done))
}
