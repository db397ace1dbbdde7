// What frames are in other words, and that pieces tell nothing.
ghost use Rattle.std.specs.Prelude.{◌≡◌, ℕ, ◌+◌, ◌*◌, ◌<◌, List, [], ◌∷◌, ◌++◌, length};
ghost use Rattle.frame_session.specs.Frames.{nothing_fed, with_bytes, frames_of, rest_of};
ghost use Rattle.frame_session.specs.Pieces.{by_pieces, joined};

/// After any pieces the frames given and the bytes held are those of all bytes, in one piece.
pub fn law_pieces()
    ensures all { (pieces : List (List ℕ)) → by_pieces nothing_fed pieces ≡ with_bytes nothing_fed (joined pieces) }
    ensures frames { (before piece : List ℕ) → frames_of (before ++ piece) ≡ frames_of before ++ frames_of (rest_of before ++ piece) }
    ensures rest { (before piece : List ℕ) → rest_of (before ++ piece) ≡ rest_of (rest_of before ++ piece) }
{}

/// Bytes begin with a frame and go on behind it, where the first two tell how many follow, and as many do. Where fewer
/// do, they are all the rest.
pub fn law_frames()
    ensures frame { (high low : ℕ) (body more : List ℕ) → length body ≡ high * 256 + low → frames_of ((high ∷ low ∷ body) ++ more) ≡ body ∷ frames_of more }
    ensures behind { (high low : ℕ) (body more : List ℕ) → length body ≡ high * 256 + low → rest_of ((high ∷ low ∷ body) ++ more) ≡ rest_of more }
    ensures short { (high low : ℕ) (body : List ℕ) → length body < high * 256 + low → (frames_of (high ∷ low ∷ body) ≡ []) × (rest_of (high ∷ low ∷ body) ≡ high ∷ low ∷ body) }
    ensures head { (high : ℕ) → (frames_of (high ∷ []) ≡ []) × (rest_of (high ∷ []) ≡ high ∷ []) }
    ensures none { (frames_of [] ≡ []) × (rest_of [] ≡ []) }
{}
