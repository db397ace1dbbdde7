ghost use Rattle.std.specs.Prelude.{◌≡◌, ℕ, List, true};
ghost use Rattle.std.specs.List.{list_all};
ghost use Rattle.field_codec.specs.Spelling.{number, is_number, text, is_text, list, are_members, is_list};
ghost use Rattle.field_codec.specs.Reading.{number_at, text_at, list_at};
ghost use Rattle.field_codec.specs.Lawful.{IsForm, IsPrefixFree};

use crate::{Form, TextForm};

/// Reading answers a number or a text and the place after it exactly where its spelling stands at the
/// place, each refusal means what it says, and no spelling begins that of another.
pub fn law_fields()
    ensures number8 { IsForm (is_number 1) (λ _. true) (is_number 1) (number 1) (number_at 1) }
    ensures number16 { IsForm (is_number 2) (λ _. true) (is_number 2) (number 2) (number_at 2) }
    ensures number32 { IsForm (is_number 4) (λ _. true) (is_number 4) (number 4) (number_at 4) }
    ensures number64 { IsForm (is_number 8) (λ _. true) (is_number 8) (number 8) (number_at 8) }
    ensures texts { IsForm is_text (λ _. true) is_text text text_at }
    ensures apart8 { IsPrefixFree (is_number 1) (number 1) }
    ensures apart16 { IsPrefixFree (is_number 2) (number 2) }
    ensures apart32 { IsPrefixFree (is_number 4) (number 4) }
    ensures apart64 { IsPrefixFree (is_number 8) (number 8) }
    ensures apart { IsPrefixFree is_text text }
{}

/// The same of the lists of each form's values, as `put_list` and `take_list` spell and read them.
pub fn law_list<F: Form>(form: &F)
    ensures form { IsForm (are_members (F.follows form.now) (F.fits form.now)) (list_all (F.keeps form.now)) (is_list (F.follows form.now) (F.is_spelled form.now)) (list (F.spelling form.now)) (list_at (F.follows form.now) (F.reading form.now)) }
    ensures apart { IsPrefixFree (is_list (F.follows form.now) (F.is_spelled form.now)) (list (F.spelling form.now)) }
{}

/// Each text can be put in the form of texts, and has its spelling there exactly where it is as each `Text` is.
pub fn law_text_form(form: TextForm)
    ensures fit { let T = ⟦<TextForm as Form>⟧ in (t : List ℕ) → T.fits form t ≡ true }
    ensures kept { let T = ⟦<TextForm as Form>⟧ in (t : List ℕ) → T.keeps form t ≡ is_text t }
    ensures spelled { let T = ⟦<TextForm as Form>⟧ in (t : List ℕ) → T.is_spelled form t ≡ is_text t }
    ensures same { let T = ⟦<TextForm as Form>⟧ in (t : List ℕ) → T.spelling form t ≡ text t }
{}
