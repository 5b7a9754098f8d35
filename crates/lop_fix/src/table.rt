// Tables of bits: n rows of n bits, each row in whole words of 64 bits, one row after another.
ghost use Rattle.std.specs.Prelude.{◌≡◌, ◌≢◌, ◌+◌, ◌*◌, ◌/◌, ◌%◌, ◌<◌, ◌≤◌, ◌==◌, ◌||◌, length, false, replicate, IfOk};
ghost use Rattle.std.specs.Int.{bit_at};
ghost use Rattle.lop_model.specs.Sums.{count_below};
ghost use Rattle.lop_fix.specs.Table.{at, row_words, SetsBit, JoinsRow, Links};

use crate::lanes::or_into;
use std::alloc::{AllocError, Global};

/// How many words a row takes.
pub fn row_words(n: usize) -> usize
    requires { n < 65536 }
    ensures { result ≡ row_words n }
{
    (n + 63) / 64
}

/// A table with no bit set.
pub fn empty_table(alloc: Global, n: usize) -> Result<Vec<u64>, AllocError>
    requires { n < 65536 }
    ensures { IfOk result (λ t. t.items ≡ replicate (n * row_words n) 0) }
{
    let words = vec![in alloc; 0; n * row_words(n)]?;
    Ok(words)
}

/// Where the word with column b of row a lies.
fn word_place(n: usize, a: usize, b: usize) -> usize
    requires small { n < 65536 }
    requires row { a < n }
    requires column { b < n }
    ensures value { result ≡ a * row_words n + b / 64 }
    ensures within { result < n * row_words n }
{
    a * row_words(n) + b / 64
}

/// The bit in row a and column b.
pub fn at_table(words: &[u64], n: usize, a: usize, b: usize) -> bool
    requires whole { length words.now ≡ n * row_words n }
    requires small { n < 65536 }
    requires row { a < n }
    requires column { b < n }
    ensures { result ≡ at words.now n a b }
{
    (words[word_place(n, a, b)] >> (b % 64)) & 1 == 1
}

/// How many of a word's first bits are set. O(1).
fn first_ones(word: u64, bits: usize) -> u32
    requires { bits < 64 }
    ensures value { result ≡ count_below bits (λ i. bit_at word i == 1) }
    ensures few { result ≤ 64 }
{
    (word & ((1 << bits) - 1)).count_ones()
}

/// How many bits are set in the whole words of row a. O(n / 64).
fn whole_ones(words: &[u64], n: usize, a: usize) -> u32
    requires whole { length words.now ≡ n * row_words n }
    requires small { n < 65536 }
    requires row { a < n }
    ensures value { result ≡ count_below (n / 64 * 64) (at words.now n a) }
    ensures few { result ≤ n }
{
    let start = a * row_words(n);
    let mut count: u32 = 0;
    for k in 0..n / 64 {
        count += words[start + k].count_ones();
    }
    count
}

/// How many bits are set in the columns of row a behind its whole words. O(1).
fn rest_ones(words: &[u64], n: usize, a: usize) -> u32
    requires whole { length words.now ≡ n * row_words n }
    requires small { n < 65536 }
    requires row { a < n }
    ensures value { result ≡ count_below (n % 64) (λ i. at words.now n a (n / 64 * 64 + i)) }
    ensures few { result ≤ 64 }
{
    if n % 64 == 0 {
        0
    } else {
        first_ones(words[a * row_words(n) + n / 64], n % 64)
    }
}

/// How many bits are set in row a. O(n / 64).
pub fn count_row(words: &[u64], n: usize, a: usize) -> u16
    requires whole { length words.now ≡ n * row_words n }
    requires small { n < 65536 }
    requires row { a < n }
    ensures { result ≡ count_below n (at words.now n a) }
{
    (whole_ones(words, n, a) + rest_ones(words, n, a)) as u16
}

/// Sets the bit in row a and column b.
fn set_bit(words: &mut [u64], n: usize, a: usize, b: usize)
    requires whole { length words.old ≡ n * row_words n }
    requires small { n < 65536 }
    requires row { a < n }
    requires column { b < n }
    ensures { SetsBit words.old words.new n a b }
{
    words[word_place(n, a, b)] |= 1 << (b % 64);
}

/// Adds to row `into` what row `from` has. O(n / 64).
fn join_row(words: &mut [u64], n: usize, into: usize, from: usize)
    requires whole { length words.old ≡ n * row_words n }
    requires small { n < 65536 }
    requires into { into < n }
    requires from { from < n }
    requires differ { into ≢ from }
    ensures { JoinsRow words.old words.new n into from }
{
    let width = row_words(n);
    if into < from {
        let (front, back) = words.split_at_mut(from * width);
        or_into(
            &mut front[into * width..into * width + width],
            &back[..width],
        );
    } else {
        let (front, back) = words.split_at_mut(into * width);
        or_into(
            &mut back[..width],
            &front[from * width..from * width + width],
        );
    }
}

/// Whether x is a or is related to it.
fn is_at_or_before(words: &[u64], n: usize, x: usize, a: usize) -> bool
    requires whole { length words.now ≡ n * row_words n }
    requires small { n < 65536 }
    requires row { x < n }
    requires column { a < n }
    ensures { result ≡ (x == a || at words.now n x a) }
{
    x == a || at_table(words, n, x, a)
}

/// Relates each object at a or before it to b and to each object after b. O(n² / 64).
pub fn link(words: &mut [u64], n: usize, a: usize, b: usize)
    requires whole { length words.old ≡ n * row_words n }
    requires small { n < 65536 }
    requires first { a < n }
    requires second { b < n }
    requires differ { a ≢ b }
    requires fresh { at words.old n b a ≡ false }
    ensures { Links words.old words.new n a b }
{
    for x in 0..n {
        if is_at_or_before(words, n, x, a) {
            set_bit(words, n, x, b);
            join_row(words, n, x, b);
        }
    }
}
