// The reader of the words.
ghost use Rattle.std.specs.Prelude.{◌≡◌, Some, true, false, map, IfOk, IfErr, MatchOption};
ghost use Rattle.std.specs.String.{string_bytes};
ghost use Rattle.lop_desk.specs.Number.{digits_value};
ghost use Rattle.lop_words.specs.Word.{format_of, is_seed, is_size};
ghost use Rattle.lop_words.specs.Command.{command_of, gen_command, formatted_command, verb_command, solve_command, check_command, value_command, IsWithinLimits};
ghost use Rattle.lop_words.specs.WordsFault.{IsWordsFault};

use crate::command::{Command, Format, WordsFault};
use crate::name::NameWord;
use crate::options::{are_options, budget, certificate, count, value_of, workers};
use lop_desk::plain_number;
use std::alloc::Global;

// The greatest number of objects.
const MOST_OBJECTS: u32 = 512;

// The options that `solve` takes.
const SOLVE_OPTIONS: [&str; 3] = ["--workers", "--nodes", "--cert"];

/// The command that the words after the program's name spell, in words of its own. O(bytes of the words).
pub fn read_words(alloc: Global, words: &[String]) -> Result<Command, WordsFault>
    ensures command { IfOk result (λ command. command_of (map (λ s. string_bytes s) words.now) ≡ Some command) }
    ensures limits { IfOk result IsWithinLimits }
    ensures fault { IfErr result (IsWordsFault (command_of (map (λ s. string_bytes s) words.now))) }
{
    let [verb, first, second, words @ ..] = words else {
        return Err(WordsFault::Usage);
    };
    if verb.as_str() == "gen" {
        gen_words(first.as_str(), second.as_str(), words)
    } else {
        formatted_words(alloc, verb.as_str(), first.as_str(), second.as_str(), words)
    }
}

fn gen_words(seed: &str, n: &str, words: &[String]) -> Result<Command, WordsFault>
    ensures command { IfOk result (λ command. gen_command seed.now n.now (map (λ s. string_bytes s) words.now) ≡ Some command) }
    ensures fault { IfErr result (IsWordsFault (gen_command seed.now n.now (map (λ s. string_bytes s) words.now))) }
{
    if !words.is_empty() {
        return Err(WordsFault::Usage);
    }
    match (seed_of(seed), size_of(n)) {
        (Some(seed), Some(n)) => Ok(Command::Gen { seed, n }),
        _ => Err(WordsFault::Usage),
    }
}

fn seed_of(word: &str) -> Option<u64>
    ensures { MatchOption result (is_seed word.now ≡ false) (λ seed. (is_seed word.now ≡ true) × (seed ≡ digits_value word.now)) }
{
    plain_number(word.as_bytes())
}

fn size_of(word: &str) -> Option<u16>
    ensures { MatchOption result (is_size word.now ≡ false) (λ n. (is_size word.now ≡ true) × (n ≡ digits_value word.now)) }
{
    match count(MOST_OBJECTS, word) {
        Some(n) => Some(n as u16),
        None => None,
    }
}

// The commands whose verb is followed by a format and a file.
fn formatted_words(
    alloc: Global,
    verb: &str,
    format: &str,
    file: &str,
    words: &[String],
) -> Result<Command, WordsFault>
    ensures command { IfOk result (λ command. formatted_command verb.now (format_of format.now) file.now (map (λ s. string_bytes s) words.now) ≡ Some command) }
    ensures fault { IfErr result (IsWordsFault (formatted_command verb.now (format_of format.now) file.now (map (λ s. string_bytes s) words.now))) }
{
    let Some(format) = format_of(format) else {
        return Err(WordsFault::Usage);
    };
    let file = NameWord::of_word(alloc, file)?;
    match verb {
        "solve" => solve_words(alloc, format, file, words),
        "check" => check_words(alloc, format, file, words),
        "value" => value_words(alloc, format, file, words),
        _ => Err(WordsFault::Usage),
    }
}

fn format_of(word: &str) -> Option<Format>
    ensures { result ≡ format_of word.now }
{
    match word {
        "lolib" => Some(Format::Lolib),
        "preflib" => Some(Format::Preflib),
        _ => None,
    }
}

fn solve_words(
    alloc: Global,
    format: Format,
    file: NameWord,
    words: &[String],
) -> Result<Command, WordsFault>
    ensures command { IfOk result (λ command. solve_command format file (map (λ s. string_bytes s) words.now) ≡ Some command) }
    ensures fault { IfErr result (IsWordsFault (solve_command format file (map (λ s. string_bytes s) words.now))) }
{
    if !are_options(&SOLVE_OPTIONS, words) {
        return Err(WordsFault::Usage);
    }
    let Some(workers) = workers(value_of("--workers", words)) else {
        return Err(WordsFault::Usage);
    };
    let Some(nodes) = budget(value_of("--nodes", words)) else {
        return Err(WordsFault::Usage);
    };
    let cert = certificate(alloc, &file, value_of("--cert", words))?;
    Ok(Command::Solve {
        format,
        file,
        workers,
        nodes,
        cert,
    })
}

fn check_words(
    alloc: Global,
    format: Format,
    file: NameWord,
    words: &[String],
) -> Result<Command, WordsFault>
    ensures command { IfOk result (λ command. check_command format file (map (λ s. string_bytes s) words.now) ≡ Some command) }
    ensures fault { IfErr result (IsWordsFault (check_command format file (map (λ s. string_bytes s) words.now))) }
{
    match words {
        [cert] => {
            let cert = NameWord::of_word(alloc, cert.as_str())?;
            Ok(Command::Check { format, file, cert })
        }
        _ => Err(WordsFault::Usage),
    }
}

fn value_words(
    alloc: Global,
    format: Format,
    file: NameWord,
    words: &[String],
) -> Result<Command, WordsFault>
    ensures command { IfOk result (λ command. value_command format file (map (λ s. string_bytes s) words.now) ≡ Some command) }
    ensures fault { IfErr result (IsWordsFault (value_command format file (map (λ s. string_bytes s) words.now))) }
{
    match words {
        [order_file] => {
            let order_file = NameWord::of_word(alloc, order_file.as_str())?;
            Ok(Command::Value {
                format,
                file,
                order_file,
            })
        }
        _ => Err(WordsFault::Usage),
    }
}
