ghost use Rattle.std.specs.Prelude.{◌≡◌, ◌&&◌, Bool, true};
ghost use Rattle.std.specs.List.{list_all};
ghost use Rattle.field_codec.specs.Lawful.{IsForm, IsPrefixFree};
ghost use Rattle.crdt_core.specs.declared.kind.Kind.{Kind};
ghost use Rattle.crdt_core.specs.Spelled.{is_tx, tx, tx_at, is_dot, dot, dot_at, is_dots, dots, dots_at, is_vector, vector, vector_at, kind, kind_at, is_object, object, object_at};
ghost use Rattle.crdt_core.specs.SpelledLaws.{are_ascending};
ghost use Rattle.crdt_core.specs.NamedDots.{NamesAreSpelled};

use crate::Crdt;

/// Reading answers each of these and the place after it exactly where its spelling stands at the place,
/// each refusal means what it says, and no spelling begins that of another. But for sets of updates, what
/// can be put is what has a spelling.
pub fn law_forms()
    ensures transactions { IsForm is_tx (λ _. true) is_tx tx tx_at }
    ensures updates { IsForm is_dot (λ _. true) is_dot dot dot_at }
    ensures sets { IsForm are_ascending (λ ds. list_all (λ _. true) ds) is_dots dots dots_at }
    ensures vectors { IsForm is_vector (λ _. true) is_vector vector vector_at }
    ensures kinds { IsForm (λ _. true) (λ _. true) (λ _. true) kind kind_at }
    ensures objects { (has : Kind → Bool) → IsForm (is_object has) (λ _. true) (is_object has) object (object_at has) }
    ensures transactions_apart { IsPrefixFree is_tx tx }
    ensures updates_apart { IsPrefixFree is_dot dot }
    ensures sets_apart { IsPrefixFree is_dots dots }
    ensures vectors_apart { IsPrefixFree is_vector vector }
    ensures kinds_apart { IsPrefixFree (λ _. true) kind }
    ensures objects_apart { (has : Kind → Bool) → IsPrefixFree (is_object has) object }
{}

/// The same of the effects of each kind that a type has: reading answers an effect of the kind and the place after it
/// exactly where its spelling stands at the place, each refusal means what it says, and no spelling begins that of
/// another of the kind. What can be put, and is held as types hold it (`keeps`), has a spelling but where that would be
/// 2^32 bytes or more. An effect names exactly the updates in the sets that stand in its bytes.
pub fn law_effects<C: Crdt>()
    ensures form { (k : Kind) → C.has k ≡ true → IsForm (λ e. C.is_of k e && C.can_put e) C.keeps (λ e. C.is_of k e && C.is_spelled e) C.spelling (C.reading k) }
    ensures named { NamesAreSpelled C.can_put C.names C.sets C.spelling }
    ensures apart { (k : Kind) → C.has k ≡ true → IsPrefixFree (λ e. C.is_of k e && C.is_spelled e) C.spelling }
{}
