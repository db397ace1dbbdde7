ghost use Rattle.std.specs.Prelude.{◌≡◌, IfOk};
ghost use Rattle.std.specs.FinMap.{empty};
ghost use Rattle.std.specs.List.{list_all};
ghost use Rattle.field_codec.specs.Spelling.{is_text};
ghost use Rattle.crdt_core.specs.Texts.{ascending};
ghost use Rattle.crdt_meanings.specs.SetMeaning.{go_meaning, added_by};
ghost use Rattle.crdt_meanings.specs.SetGo.{go_has, go_step, go_made, go_value, has_none};
ghost use Rattle.crdt_sets.specs.EffectForm.{can_put_texts, are_texts_spelled, texts_sets, texts_spelling, texts_at, go_spells, go_named};
ghost use Rattle.crdt_meanings.proofs.GoLaw.{go_law, go_in_maps, go_resets};
ghost use Rattle.crdt_meanings.specs.Without.{no_stamp, no_dot};

use crate::TextSet;
use crate::texts::{copy_texts, in_order, insert_each};
use crdt_core::{Act, Crdt, Field, Kind, Op, Value, reads_state};
use field_codec::{ListOf, TakeError, Text, TextForm, put_list, take_list};
use site_vector::Dot;
use std::alloc::{AllocError, Global};

/// The set that only grows. An effect is the elements that it adds, each once, in order.
pub struct SetGo;

impl Crdt for SetGo {
    type State = TextSet;

    type Effect = ListOf<Text>;

    ghost has = { go_has };

    ghost initial = { λ k. empty };

    ghost applied = { go_step };

    ghost generated = { go_made };

    ghost value_of = { go_value };

    ghost stamp_of = { no_stamp };

    ghost meaning = { go_meaning };

    ghost names = { no_dot };

    ghost holds = { no_dot };

    ghost laws = { go_law };

    ghost is_blank = { has_none };

    ghost in_maps = { go_in_maps };

    ghost resets = { go_resets };

    ghost can_put = { can_put_texts };

    ghost keeps = { list_all is_text };

    ghost is_spelled = { are_texts_spelled };

    ghost sets = { texts_sets };

    ghost spelling = { texts_spelling };

    ghost reading = { λ k. texts_at };

    ghost spells = { go_spells go_has };

    ghost named = { go_named };

    fn has(kind: Kind) -> bool {
        kind == Kind::SetGo
    }

    fn empty(alloc: Global, kind: Kind) -> Result<TextSet, AllocError> {
        Ok(TextSet::new(alloc))
    }

    fn needs_state(kind: Kind, op: &Op) -> bool {
        reads_state(kind)
    }

    fn is_too_deep(kind: Kind, path: &[Field]) -> bool {
        false
    }

    fn is_blank(state: &TextSet) -> bool {
        state.is_empty()
    }

    fn effect(
        alloc: Global,
        kind: Kind,
        path: &[Field],
        act: &Act,
        state: &TextSet,
        now: u64,
    ) -> Result<ListOf<Text>, AllocError> {
        adds_of(alloc, act)
    }

    fn stamp(effect: &ListOf<Text>) -> Option<u64> {
        None
    }

    fn apply(
        alloc: Global,
        state: &mut TextSet,
        dot: Dot,
        effect: &ListOf<Text>,
    ) -> Result<(), AllocError> {
        insert_each(alloc, state, effect.as_slice())
    }

    fn copy(alloc: Global, state: &TextSet) -> Result<TextSet, AllocError> {
        state.copy()
    }

    fn copy_effect(alloc: Global, effect: &ListOf<Text>) -> Result<ListOf<Text>, AllocError> {
        copy_texts(alloc, effect.as_slice())
    }

    fn value(alloc: Global, state: &TextSet) -> Result<Value, AllocError> {
        Ok(Value::Words(state.to_list(alloc)?))
    }

    fn put_effect(out: &mut Vec<u8>, effect: &ListOf<Text>) -> Result<(), AllocError> {
        put_list(&TextForm, out, effect.as_slice())
    }

    #[tactic(auto, unfolding(crate::specs::EffectForm::texts_at))]
    fn take_effect(
        alloc: Global,
        kind: Kind,
        bytes: &[u8],
        at: usize,
    ) -> Result<(ListOf<Text>, usize), TakeError> {
        let (texts, end) = take_list(&TextForm, alloc, bytes, at)?;
        if texts.as_slice().is_empty() {
            return Err(TakeError::Bad { at });
        }
        Ok((texts, end))
    }
}

/// What an act adds, each text once, in order.
fn adds_of(alloc: Global, act: &Act) -> Result<ListOf<Text>, AllocError>
    ensures { IfOk result (λ l. l ≡ ascending (added_by act.now)) }
{
    match act {
        Act::Add(texts) => in_order(alloc, texts.as_slice()),
        _ => in_order(alloc, &[]),
    }
}
