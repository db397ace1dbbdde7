// What frames and statuses are, in other words than the definitions'.
ghost use Rattle.std.specs.Prelude.{◌≡◌, ℕ, ◌+◌, ◌*◌, ◌<◌, List, [], ◌∷◌, ◌++◌, length, map, None};
ghost use Rattle.dc_engine.specs.Lines.{lines_of, ended_lines};
ghost use Rattle.dc_engine.specs.Bodies.{bodies, left};
ghost use Rattle.dc_engine.specs.OneReply.{LawOneReply, LawOneCalmReply};
ghost use Rattle.frame_session.specs.Frames.{frames_of, rest_of};
ghost use Rattle.dc_engine.specs.Status.{code_of, text_of};
ghost use Rattle.dc_engine.specs.declared.status.Status.TheVariants as status;
ghost use Rattle.dc_engine.specs.declared.framing.Framing.TheVariants.{Frames};

/// A script of frames begins with a frame and goes on behind it, where the first two bytes tell how many follow, and
/// as many do. Where fewer do, what there is of the frame is one line, which hasn't ended.
#[tactic(auto, using(crate::proofs::bytes::Frames::frame_first, crate::proofs::bytes::Frames::frame_ended, crate::proofs::bytes::Frames::frame_rest, crate::proofs::bytes::Frames::frame_head))]
pub fn law_frames()
    ensures whole { (high low : ℕ) (body more : List ℕ) → length body ≡ high * 256 + low → lines_of Frames ((high ∷ low ∷ body) ++ more) ≡ (high ∷ low ∷ body) ∷ lines_of Frames more }
    ensures ended { (high low : ℕ) (body more : List ℕ) → length body ≡ high * 256 + low → ended_lines Frames ((high ∷ low ∷ body) ++ more) ≡ (high ∷ low ∷ body) ∷ ended_lines Frames more }
    ensures rest { (high low : ℕ) (body : List ℕ) → length body < high * 256 + low → (lines_of Frames (high ∷ low ∷ body) ≡ (high ∷ low ∷ body) ∷ []) × (ended_lines Frames (high ∷ low ∷ body) ≡ []) }
    ensures head { (high : ℕ) → (lines_of Frames (high ∷ []) ≡ (high ∷ []) ∷ []) × (ended_lines Frames (high ∷ []) ≡ []) }
{}

/// The lines of a framed script whose end is there are the frames that `frame_session` tells of its bytes, each with its
/// head, and the last line is what is behind them.
pub fn law_bodies()
    ensures bodies { (bytes : List ℕ) → bodies (ended_lines Frames bytes) ≡ frames_of bytes }
    ensures rest { (bytes : List ℕ) → lines_of Frames bytes ≡ ended_lines Frames bytes ++ left (rest_of bytes) }
{}

/// One script, one reply: two programs that keep the clause of `play` write the same bytes in reply to the same lines,
/// where disks tell the same in both, and so where no line of either tells of a disk. The function does nothing: its
/// contract is the law.
pub fn law_one_reply()
    ensures reply { LawOneReply }
    ensures calm { LawOneCalmReply }
{}

/// The process ends with 0 where all was answered, 1 where a line was outside the grammar, 2 where the words are no call,
/// 3 and 4 where the source and the sink failed, 5 where memory ran out, 6 where the script was too long, and 7 where a
/// disk couldn't be made. It says nothing on standard error of the first two.
pub fn law_statuses()
    ensures codes { map code_of (status.Done ∷ status.BadLine ∷ status.Usage ∷ status.ReadFault ∷ status.WriteFault ∷ status.NoMemory ∷ status.TooLong ∷ status.NoDisk ∷ []) ≡ 0 ∷ 1 ∷ 2 ∷ 3 ∷ 4 ∷ 5 ∷ 6 ∷ 7 ∷ [] }
    ensures silent { map text_of (status.Done ∷ status.BadLine ∷ []) ≡ None ∷ None ∷ [] }
{}
