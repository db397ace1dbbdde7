ghost use Rattle.std.specs.Prelude.{◌≡◌, ◌≤◌, ◌∷◌, true, length, IfOk};
ghost use Rattle.field_codec.specs.Reading.{Gives};
ghost use Rattle.crdt_registers.specs.LwwForm.{can_put_lww, keeps_lww, is_lww_spelled, lww_spelling, lww_at, lww_form};

use crate::Assigned;
use crate::register_lww::LAST_STAMP;
use field_codec::{Form, TakeError, put_text, put_u64, take_text, take_u64};
use std::alloc::{AllocError, Global};

/// The form of assigns to the register that the last writer wins.
#[derive(Clone, Copy, Debug)]
pub(crate) struct LwwForm;

impl Form for LwwForm {
    type Value = Assigned;

    ghost fits = { λ _ e. can_put_lww e };

    ghost keeps = { λ _ e. keeps_lww e };

    ghost is_spelled = { λ _ e. is_lww_spelled e };

    ghost spelling = { λ _ e. lww_spelling e };

    ghost reading = { λ _ bytes at. lww_at bytes at };

    ghost follows = { λ _ before e. true };

    fn put(&self, out: &mut Vec<u8>, value: &Assigned) -> Result<(), AllocError> {
        put_u64(out, value.stamp)?;
        put_text(out, &value.text)
    }

    fn take(&self, alloc: Global, bytes: &[u8], at: usize) -> Result<(Assigned, usize), TakeError> {
        take_assigned(alloc, bytes, at)
    }

    fn may_follow(&self, before: &Assigned, value: &Assigned) -> bool {
        true
    }

    ghost laws = { λ _. lww_form };
}

#[tactic(auto, unfolding(crate::specs::LwwForm::lww_at))]
fn take_assigned(alloc: Global, bytes: &[u8], at: usize) -> Result<(Assigned, usize), TakeError>
    ensures answer { Gives result (lww_at bytes.now at) }
    ensures within { IfOk result (λ x. x.1 ≤ length bytes.now) }
{
    let (stamp, text_at) = take_u64(bytes, at)?;
    if stamp > LAST_STAMP {
        return Err(TakeError::Bad { at });
    }
    let (text, end) = take_text(alloc, bytes, text_at)?;
    Ok((Assigned { stamp, text }, end))
}
