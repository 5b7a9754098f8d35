// The reader of LOLIB files.
ghost use Rattle.std.specs.Prelude.{◌≡◌, ◌≤◌, ◌<◌, ◌+◌, ◌*◌, ◌^◌, length, take, nat_abs, true, false, IfOk, IfErr, Err, MatchOption};
ghost use Rattle.std.specs.List.{All};
ghost use Rattle.lop_lolib.specs.Number.{digits_of, decimal_count};
ghost use Rattle.lop_lolib.specs.Units.{units_of};
ghost use Rattle.lop_lolib.specs.Numbers.{AreNumbers, AreUnits, IsFirstWide};
ghost use Rattle.lop_lolib.specs.Words.{words_of};
ghost use Rattle.lop_lolib.specs.Reading.{lolib_reading, titled, body_reading, words_reading, rows_reading, units_reading, entries_reading, is_entry_word, entry_refusal, IsRefusal};

use crate::heading::heading_of;
use crate::number::{MAX_DECIMALS, MAX_NUMBER, NumberWord, number_word};
use crate::refusal::LolibRefusal;
use crate::title::Title;
use crate::words::{Words, blank_len, number_of};
use lop_model::{MAX_OBJECTS, Weights, WeightsFault};
use std::alloc::Global;

/// What a file holds.
#[derive(Drop)]
pub struct LolibFile {
    /// The entries in units of 10^-k.
    pub weights: Weights,
    /// The first line with a word, where a word of it is no decimal number; else empty.
    pub title: Title,
    /// The number of words behind the last entry.
    pub tail_words: u64,
    /// k: the greatest number of decimals among the entries, 0 to 6.
    pub decimals: u8,
}

/// Reads a text, O(bytes + n²), in one pass and one more over the first line. It keeps the n² entries and the title.
pub fn read_lolib(alloc: Global, bytes: &[u8]) -> Result<LolibFile, LolibRefusal>
    ensures file { IfOk result (λ file. lolib_reading bytes.now ≡ Ok file) }
    ensures decimals { IfOk result (λ file. file.decimals ≤ MAX_DECIMALS) }
    ensures refusal { IfErr result (IsRefusal (lolib_reading bytes.now)) }
{
    let heading = heading_of(bytes);
    let title = Title::of_bytes(alloc, heading.title)?;
    read_body(alloc, title, heading.len, &bytes[heading.len..])
}

// The file with this title and the numbers behind it, of which this many bytes stand before these.
fn read_body(
    alloc: Global,
    title: Title,
    before: usize,
    body: &[u8],
) -> Result<LolibFile, LolibRefusal>
    requires { before + length body.now < 2 ^ 63 }
    ensures file { IfOk result (λ file. titled title (body_reading before body.now) ≡ Ok file) }
    ensures decimals { IfOk result (λ file. file.decimals ≤ MAX_DECIMALS) }
    ensures refusal { IfErr result (IsRefusal (titled title (body_reading before body.now))) }
{
    let mut words = Words { rest: body };
    let n = read_size(&mut words, before + blank_len(body))?;
    let entries = read_entries(alloc, &mut words, n)?;
    let tail_words = words.count() as u64;
    match Weights::new(n, entries.units) {
        Ok(weights) => Ok(LolibFile {
            weights,
            title,
            tail_words,
            decimals: entries.decimals,
        }),
        Err(WeightsFault::TooHeavy(sum)) => Err(LolibRefusal::TooHeavy(sum)),
        Err(WeightsFault::Size) => unreachable!(),
    }
}

// The number of objects, which is the first word and begins at this position.
fn read_size(words: &mut Words<'_>, position: usize) -> Result<u16, LolibRefusal>
    ensures size { IfOk result (λ n. (1 ≤ n) × (n ≤ MAX_OBJECTS)
        × (words_reading position (words_of words.old.rest.now) ≡ rows_reading n (words_of words.new.rest.now))) }
    ensures fewer { IfOk result (λ _. length (words_of words.new.rest.now) ≤ length (words_of words.old.rest.now)) }
    ensures refusal { IfErr result (λ refusal. words_reading position (words_of words.old.rest.now) ≡ Err refusal) }
{
    let Some(word) = words.next() else {
        return Err(LolibRefusal::Empty);
    };
    match number_of(word) {
        Some(n) if n >= 1 && n <= MAX_OBJECTS as i64 => Ok(n as u16),
        Some(n) => Err(LolibRefusal::SizeRange(n)),
        None => Err(LolibRefusal::BadSize(position as u64)),
    }
}

// The entries in units of 10^-k, and k.
#[derive(Drop)]
struct Entries {
    units: Vec<i64>,
    decimals: u8,
}

// The n * n entries.
fn read_entries(alloc: Global, words: &mut Words<'_>, n: u16) -> Result<Entries, LolibRefusal>
    requires { n ≤ MAX_OBJECTS }
    ensures entries { IfOk result (λ entries. (length entries.units.items ≡ n * n)
        × (rows_reading n (words_of words.old.rest.now) ≡ entries_reading n entries.decimals entries.units.items (length (words_of words.new.rest.now)))) }
    ensures decimals { IfOk result (λ entries. entries.decimals ≤ MAX_DECIMALS) }
    ensures fewer { IfOk result (λ _. length (words_of words.new.rest.now) ≤ length (words_of words.old.rest.now)) }
    ensures refusal { IfErr result (IsRefusal (rows_reading n (words_of words.old.rest.now))) }
{
    let mut numbers = read_numbers(alloc, words, n)?;
    if numbers.most > 0 {
        match scale(&mut numbers.digits, &numbers.decimals, numbers.most) {
            Ok(()) => {}
            Err(index) => return Err(LolibRefusal::TooWide(index as u64)),
        }
    }
    Ok(Entries {
        units: numbers.digits,
        decimals: numbers.most,
    })
}

// Numbers: the digits of each without its point, how many of them are decimals, and the greatest number of decimals.
#[derive(Drop)]
struct Numbers {
    digits: Vec<i64>,
    decimals: Vec<u8>,
    most: u8,
}

// The numbers of the n * n entries.
fn read_numbers(alloc: Global, words: &mut Words<'_>, n: u16) -> Result<Numbers, LolibRefusal>
    requires { n ≤ MAX_OBJECTS }
    ensures numbers { IfOk result (λ numbers. (length numbers.digits.items ≡ n * n)
        × AreNumbers (take (n * n) (words_of words.old.rest.now)) numbers.digits.items numbers.decimals.items numbers.most) }
    ensures reading { IfOk result (λ numbers. rows_reading n (words_of words.old.rest.now)
        ≡ units_reading n numbers.most (take (n * n) (words_of words.old.rest.now)) (length (words_of words.new.rest.now))) }
    ensures fewer { IfOk result (λ _. length (words_of words.new.rest.now) ≤ length (words_of words.old.rest.now)) }
    ensures refusal { IfErr result (IsRefusal (rows_reading n (words_of words.old.rest.now))) }
{
    let count = n as usize * n as usize;
    let mut digits = Vec::with_capacity(alloc, count)?;
    let mut decimals = Vec::with_capacity(alloc, count)?;
    let mut most = 0;
    while digits.len() < count {
        let Some(word) = words.next() else {
            return Err(LolibRefusal::Short(digits.len() as u64));
        };
        let entry = entry_of(digits.len() as u64, word)?;
        digits.push(entry.digits)?;
        decimals.push(entry.decimals)?;
        most = most.max(entry.decimals);
    }
    Ok(Numbers {
        digits,
        decimals,
        most,
    })
}

// The digits of an entry without its point, and how many of them are decimals.
#[derive(Clone, Copy, Drop)]
struct Entry {
    digits: i64,
    decimals: u8,
}

// The entry that a word spells, or why it spells none.
fn entry_of(index: u64, word: &[u8]) -> Result<Entry, LolibRefusal>
    ensures entry { IfOk result (λ entry. (is_entry_word word.now ≡ true) × (entry.digits ≡ digits_of word.now) × (entry.decimals ≡ decimal_count word.now)) }
    ensures refusal { IfErr result (λ refusal. (is_entry_word word.now ≡ false) × (refusal ≡ entry_refusal index word.now)) }
{
    match number_word(word) {
        NumberWord::Not => Err(LolibRefusal::BadEntry(index)),
        NumberWord::TooFine => Err(LolibRefusal::TooFine(index)),
        NumberWord::TooWide => Err(LolibRefusal::TooWide(index)),
        NumberWord::Good { digits, decimals } => Ok(Entry { digits, decimals }),
    }
}

// Brings numbers of which so many digits are decimals to units of 10^-k; else the index of the first that is too wide in
// them. O(1) for each.
fn scale(digits: &mut [i64], decimals: &[u8], k: u8) -> Result<(), usize>
    requires long { length decimals.now ≡ length digits.old }
    requires fine { k ≤ MAX_DECIMALS }
    requires coarsest { All (λ d. d ≤ k) decimals.now }
    requires narrow { All (λ v. nat_abs v ≤ MAX_NUMBER) digits.old }
    ensures len { length digits.new ≡ length digits.old }
    ensures units { IfOk result (λ _. AreUnits k digits.old decimals.now digits.new (length digits.old)) }
    ensures wide { IfErr result (λ index. IsFirstWide k digits.old decimals.now index) }
{
    for index in 0..digits.len() {
        match units_of(digits[index], decimals[index], k) {
            Some(units) => digits[index] = units,
            None => return Err(index),
        }
    }
    Ok(())
}

// A number in units of 10^-k, where it is at most 10^18 in absolute value.
fn units_of(digits: i64, decimals: u8, k: u8) -> Option<i64>
    requires coarser { decimals ≤ k }
    requires fine { k ≤ MAX_DECIMALS }
    ensures { MatchOption result (MAX_NUMBER < nat_abs (units_of k digits decimals))
        (λ units. (units ≡ units_of k digits decimals) × (nat_abs units ≤ MAX_NUMBER)) }
{
    let units = i128::from(digits) * 10_i128.pow(u32::from(k - decimals));
    if units.unsigned_abs() > u128::from(MAX_NUMBER) {
        return None;
    }
    Some(units as i64)
}
