// Matrices that another program of the same rule gives, and texts that are read back.
ghost use Rattle.std.specs.Prelude.{◌≤◌};

use crate::entries::{entries_of, has_entries};
use crate::expected::same;
use lop_gen::{generate, lolib_text};
use lop_lolib::read_lolib;
use lop_model::Weights;
use std::alloc::Global;
use std::process::Abort;
use std::test::Fail;

fn gives(rt: &impl Abort, alloc: Global, seed: u64, n: u16, entries: &[i64]) -> Result<(), Fail>
    requires positive { 1 ≤ n }
    requires within_limit { n ≤ 512 }
{
    let weights = generate(alloc, seed, n)?;
    has_entries(rt, alloc, &weights, entries, "generated")
}

const OF_THREE: &[i64] = &[0, 337, 806, 285, 0, 804, 60, 93, 0];

const OF_FOUR: &[i64] = &[
    0, 318, 822, 484, 333, 0, 82, 896, 589, 581, 0, 994, 640, 455, 17, 0,
];

#[test]
fn matrices(rt: HostRuntime) -> Result<(), Fail> {
    let alloc = rt.alloc();
    gives(&rt, alloc, 7, 3, OF_THREE)?;
    gives(&rt, alloc, 0, 2, &[0, 107, 527, 0])?;
    gives(&rt, alloc, u64::MAX, 4, OF_FOUR)?;
    gives(&rt, alloc, 7, 1, &[0])
}

// The text is read back as the weights.
fn is_read_back(
    rt: &impl Abort,
    alloc: Global,
    weights: &Weights,
    text: &[u8],
) -> Result<(), Fail> {
    let made = entries_of(alloc, weights)?;
    let file = read_lolib(alloc, text)?;
    has_entries(rt, alloc, &file.weights, &made, "read back")
}

#[test]
fn generated_text(rt: HostRuntime) -> Result<(), Fail> {
    let alloc = rt.alloc();
    let weights = generate(alloc, 7, 44)?;
    let text = lolib_text(alloc, &weights)?;
    same(&rt, &text.len(), &7428);
    is_read_back(&rt, alloc, &weights, &text)
}
