// Options and their values.
ghost use Rattle.std.specs.Prelude.{◌≡◌, true, false, Option, None, Some, map, option_map, IfOk, IfErr, MatchOption};
ghost use Rattle.std.specs.String.{string_bytes};
ghost use Rattle.lop_desk.specs.Number.{digits_value};
ghost use Rattle.lop_words.specs.Word.{is_count};
ghost use Rattle.lop_words.specs.Options.{value_of, is_option, is_new_option, are_options, number_or, workers_of, budget_of, certificate_of};
ghost use Rattle.lop_words.specs.WordsFault.{IsWordsFault};

use crate::command::WordsFault;
use crate::name::NameWord;
use lop_desk::plain_number;
use std::alloc::Global;

// The number of workers where none is given, and the greatest one.
const DEFAULT_WORKERS: u32 = 1;

const MOST_WORKERS: u32 = 16;

// The number of nodes where none is given, and the greatest one.
const DEFAULT_NODES: u32 = 10_000;

const MOST_NODES: u32 = 1_000_000;

/// Whether the words are options of these names, each with its value, and none stands twice.
pub fn are_options(names: &[&str], words: &[String]) -> bool
    ensures { result ≡ are_options (map (λ s. s.now) names.now) (map (λ s. string_bytes s) words.now) }
{
    let mut rest = words;
    while let [option, _, others @ ..] = rest {
        if !is_new_option(names, option.as_str(), others) {
            return false;
        }
        rest = others;
    }
    rest.is_empty()
}

// Whether the word is one of these names, which doesn't stand in the other words.
fn is_new_option(names: &[&str], option: &str, others: &[String]) -> bool
    ensures { result ≡ is_new_option (map (λ s. s.now) names.now) option.now (map (λ s. string_bytes s) others.now) }
{
    is_option(names, option) && value_of(option, others).is_none()
}

fn is_option(names: &[&str], word: &str) -> bool
    ensures { result ≡ is_option (map (λ s. s.now) names.now) word.now }
{
    let mut rest = names;
    while let [name, others @ ..] = rest {
        if *name == word {
            return true;
        }
        rest = others;
    }
    false
}

/// The value of the option of this name, in words that are options and their values in turn.
pub fn value_of<'a>(name: &str, words: &'a [String]) -> Option<&'a str>
    ensures { option_map (λ s. s.now) result ≡ value_of name.now (map (λ s. string_bytes s) words.now) }
{
    let mut rest = words;
    while let [option, value, others @ ..] = rest {
        if option.as_str() == name {
            return Some(value.as_str());
        }
        rest = others;
    }
    None
}

/// The number of workers that the option's value spells.
pub fn workers(value: Option<&str>) -> Option<u32>
    ensures { result ≡ workers_of (option_map (λ s. s.now) value.entry) }
{
    number_or(DEFAULT_WORKERS, MOST_WORKERS, value)
}

/// The number of nodes that the option's value spells.
pub fn budget(value: Option<&str>) -> Option<u32>
    ensures { result ≡ budget_of (option_map (λ s. s.now) value.entry) }
{
    number_or(DEFAULT_NODES, MOST_NODES, value)
}

// The number from 1 to the greatest that the option's value spells, or another where the option isn't given.
fn number_or(other: u32, most: u32, value: Option<&str>) -> Option<u32>
    ensures { result ≡ number_or other most (option_map (λ s. s.now) value.entry) }
{
    match value {
        None => Some(other),
        Some(word) => count(most, word),
    }
}

/// The number from 1 to the greatest that the word spells.
pub fn count(most: u32, word: &str) -> Option<u32>
    ensures { MatchOption result (is_count most word.now ≡ false) (λ n. (is_count most word.now ≡ true) × (n ≡ digits_value word.now)) }
{
    match plain_number(word.as_bytes()) {
        Some(n) if n >= 1 && n <= most as u64 => Some(n as u32),
        _ => None,
    }
}

/// The certificate's name that the option's value spells, if there is one. It isn't the file's.
pub fn certificate(
    alloc: Global,
    file: &NameWord,
    value: Option<&str>,
) -> Result<Option<NameWord>, WordsFault>
    ensures name { IfOk result (λ name. certificate_of file.now (option_map (λ s. s.now) value.entry) ≡ Some name) }
    ensures fault { IfErr result (IsWordsFault (certificate_of file.now (option_map (λ s. s.now) value.entry))) }
{
    let Some(word) = value else {
        return Ok(None);
    };
    let name = NameWord::of_word(alloc, word)?;
    if name.text() == file.text() {
        return Err(WordsFault::Usage);
    }
    Ok(Some(name))
}
