ghost use Rattle.std.specs.Prelude.{◌≡◌, ◌≢◌, ◌++◌, ◌∷◌, [], Err, IfOk, IfSome, OnOk, Some, None, string_bytes, option_and_then, true};
ghost use Rattle.serde_json.specs.Read.{read};
ghost use Rattle.serde_json.specs.Find.{as_str};
ghost use Rattle.script_text.specs.Texts as texts;

use crate::ParseError;
use field_codec::Text;
use script_words::{is_bare, is_plain, spells};
use serde_json::Value;
use std::alloc::Global;

/// The text that a string of JSON stands for.
fn string(alloc: Global, word: &str) -> Result<String, ParseError>
    ensures ok { IfOk result (λ s. option_and_then as_str (read word.now) ≡ Some (string_bytes s)) }
    ensures bad { result ≡ Err ParseError.Bad → option_and_then as_str (read word.now) ≡ None }
{
    match Value::from_str(alloc, word) {
        Ok(Value::String(text)) => Ok(text),
        Ok(_) => Err(ParseError::Bad),
        Err(error) => {
            if error.is_memory() {
                Err(ParseError::NoMemory)
            } else {
                Err(ParseError::Bad)
            }
        }
    }
}

/// The text, where it has at most 256 bytes.
fn fitting(alloc: Global, text: &str) -> Result<Text, ParseError>
    ensures ok { IfOk result (λ t. texts.at_most_256 text.now ≡ Some t) }
    ensures bad { result ≡ Err ParseError.Bad → texts.at_most_256 text.now ≡ None }
{
    match Text::of(alloc, text)? {
        Some(text) => Ok(text),
        None => Err(ParseError::Bad),
    }
}

/// Whether the word begins and ends with a quote.
fn is_quoted(word: &[u8]) -> bool
    ensures { result ≡ texts.is_quoted word.now }
{
    word.len() >= 2 && word[0] == b'"' && word[word.len() - 1] == b'"'
}

/// What stands between the quotes.
#[tactic(auto, using(crate::proofs::Quoted::between, crate::proofs::Cuts::after_quote, crate::proofs::Cuts::before_quote))]
fn between(word: &str) -> &str
    requires { texts.is_quoted word.now ≡ true }
    ensures { word.now ≡ 34 ∷ (result.now ++ 34 ∷ []) }
{
    &word[1..word.len() - 1]
}

/// The text in quotes, where each of its bytes stands for itself.
#[tactic(auto, using(crate::proofs::Quoted::string_plain))]
fn plain(word: &str) -> Option<&str>
    requires { texts.is_quoted word.now ≡ true }
    ensures { IfSome result (λ t. texts.string_of word.now ≡ Some t.now) }
{
    let text = between(word);
    if is_plain(text.as_bytes()) {
        return Some(text);
    }
    None
}

/// The text of a word in quotes. Most hold no escape, and need no reader of JSON. The reader takes much of the stack, and
/// so stands apart.
#[inline(never)]
#[tactic(auto, using(crate::proofs::Utf8::string_is, crate::proofs::Utf8::string_none))]
fn quoted(alloc: Global, word: &str) -> Result<Text, ParseError>
    requires { texts.is_quoted word.now ≡ true }
    ensures ok { IfOk result (λ t. option_and_then texts.at_most_256 (texts.string_of word.now) ≡ Some t) }
    ensures bad { result ≡ Err ParseError.Bad → option_and_then texts.at_most_256 (texts.string_of word.now) ≡ None }
{
    if let Some(text) = plain(word) {
        return fitting(alloc, text);
    }
    let text = string(alloc, word)?;
    fitting(alloc, &text)
}

/// The text that a word stands for, bare or in quotes.
pub fn text(alloc: Global, word: &str) -> Result<Text, ParseError>
    ensures ok { IfOk result (λ t. texts.text word.now ≡ Some t) }
    ensures bad { result ≡ Err ParseError.Bad → texts.text word.now ≡ None }
{
    if is_bare(word.as_bytes()) {
        return fitting(alloc, word);
    }
    if !is_quoted(word.as_bytes()) {
        return Err(ParseError::Bad);
    }
    quoted(alloc, word)
}

/// Makes `place` the text, where it has at most 256 bytes.
fn fit_into(alloc: Global, text: &str, place: &mut Text) -> Result<(), ParseError>
    ensures ok { OnOk result (texts.at_most_256 text.now ≡ Some place.new) }
    ensures bad { result ≡ Err ParseError.Bad → texts.at_most_256 text.now ≡ None }
{
    if place.set(alloc, text)? {
        return Ok(());
    }
    Err(ParseError::Bad)
}

/// Makes `place` the text that a word stands for, bare or in quotes. A bare one, as most are, is written over what
/// stands there: a text that is made anew is moved.
pub fn text_into(alloc: Global, word: &str, place: &mut Text) -> Result<(), ParseError>
    ensures ok { OnOk result (texts.text word.now ≡ Some place.new) }
    ensures bad { result ≡ Err ParseError.Bad → texts.text word.now ≡ None }
{
    if is_bare(word.as_bytes()) {
        return fit_into(alloc, word, place);
    }
    if !is_quoted(word.as_bytes()) {
        return Err(ParseError::Bad);
    }
    *place = quoted(alloc, word)?;
    Ok(())
}

/// Makes `place` the text that a word stands for. Nothing is written where it is that already, as the name of a session
/// mostly is.
pub fn name_into(alloc: Global, word: &str, place: &mut Text) -> Result<(), ParseError>
    ensures ok { OnOk result (texts.text word.now ≡ Some place.new) }
    ensures bad { result ≡ Err ParseError.Bad → texts.text word.now ≡ None }
{
    if is_bare(word.as_bytes()) && spells(word.as_bytes(), place.as_str()) {
        return Ok(());
    }
    text_into(alloc, word, place)
}

/// Makes `place` the empty text.
pub fn empty_into(alloc: Global, place: &mut Text) -> Result<(), ParseError>
    ensures ok { OnOk result (place.new ≡ []) }
    ensures bad { result ≢ Err ParseError.Bad }
{
    let _ = place.set(alloc, "")?;
    Ok(())
}

/// The empty text.
pub fn empty(alloc: Global) -> Result<Text, ParseError>
    ensures ok { IfOk result (λ t. t ≡ []) }
    ensures bad { result ≢ Err ParseError.Bad }
{
    match Text::of(alloc, "")? {
        Some(text) => Ok(text),
        None => unreachable!(),
    }
}
