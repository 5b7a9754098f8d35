// Weights that a seed gives.
ghost use Rattle.std.specs.Prelude.{◌≡◌, ◌-◌, ◌%◌, ◌<◌, ◌≤◌, ◌==◌, ◌++◌, pos, if◌then◌else◌, IfOk};
ghost use Rattle.rand_pcg.specs.Lcg.{advance, next};
ghost use Rattle.rand_pcg.specs.Pcg.{multiplier_64, output_xsh_rr};
ghost use Rattle.lop_gen.specs.Drawn.{drawn_row};
ghost use Rattle.lop_gen.specs.Generated.{generated_matrix};
ghost use Rattle.lop_gen.specs.Text.{HasNarrowDiagonal};
ghost use Rattle.lop_model.specs.declared.weights.TheConstants.{MAX_OBJECTS};

use lop_model::Weights;
use rand_core::SeedableRng;
use rand_core::utils::NextWord;
use rand_pcg::Lcg64Xsh32;
use std::alloc::{AllocError, Global};

/// The weights of n objects that a seed gives: row by row, each entry off the diagonal is the next word of the
/// generator `Lcg64Xsh32` modulo 1,000, and the diagonal is 0 and draws no word. O(n²).
pub fn generate(alloc: Global, seed: u64, n: u16) -> Result<Weights, AllocError>
    requires positive { 1 ≤ n }
    requires within_limit { n ≤ MAX_OBJECTS }
    ensures weights { IfOk result (λ weights. weights ≡ generated_matrix seed n) }
    ensures diagonal { IfOk result HasNarrowDiagonal }
{
    let mut generator = Lcg64Xsh32::seed_from_u64(seed);
    let mut entries = Vec::with_capacity(alloc, n as usize * n as usize)?;
    for row in 0..n {
        push_row(&mut entries, row, n, &mut generator)?;
    }
    match Weights::new(n, entries) {
        Ok(weights) => Ok(weights),
        Err(_) => unreachable!(),
    }
}

// Appends a row, which draws a word for each column but its own.
fn push_row(
    entries: &mut Vec<i64>,
    row: u16,
    n: u16,
    generator: &mut Lcg64Xsh32,
) -> Result<(), AllocError>
    requires { row < n }
    ensures entries { IfOk result (λ _. entries.new.items ≡ entries.old.items ++ drawn_row generator.old n row) }
    ensures drawn { IfOk result (λ _. generator.new ≡ advance 64 multiplier_64 (n - 1) generator.old) }
{
    for column in 0..n {
        let entry = next_entry(row, column, generator);
        match entries.push(entry) {
            Ok(()) => {}
            Err(_) => return Err(AllocError),
        }
    }
    Ok(())
}

// The next entry of a row.
fn next_entry(row: u16, column: u16, generator: &mut Lcg64Xsh32) -> i64
    ensures entry { result ≡ (if row == column then pos 0 else pos (output_xsh_rr generator.old.state % 1000)) }
    ensures drawn { generator.new ≡ (if row == column then generator.old else next 64 multiplier_64 generator.old) }
{
    if row == column {
        return 0;
    }
    i64::from(generator.next_word() % 1000)
}
