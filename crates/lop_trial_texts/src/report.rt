// Answers whose numbers are worked out by hand.
ghost use Rattle.std.specs.Prelude.{◌≡◌, ◌≤◌, ◌^◌, unsigned_abs, IfSome};
ghost use Rattle.std.specs.Option.{option_copied};
ghost use Rattle.lop_report.specs.declared.decimal.TheConstants.{MAX_DECIMALS};

use crate::expected::{holds, same};
use lop_desk::{MemoryDesk, TextRoom};
use lop_model::{Order, Weights};
use lop_preflib::{Profile, read_preflib};
use lop_profile::pair_weights;
use lop_report::{
    Answer, MAX_DECIMALS, decimal_text, print_accepted, print_answer, print_generated, print_value,
};
use std::alloc::Global;
use std::process::Abort;
use std::test::Fail;

const LUNCH: &str =
    "# FILE NAME: lunch.soc\n# NUMBER ALTERNATIVES: 3\n# NUMBER VOTERS: 9\n# ALTERNATIVE NAME 1: Soup\n# ALTERNATIVE NAME 2: Rice\n# ALTERNATIVE NAME 3: Fish\n4: 1,2,3\n3: 2,3,1\n2: 3,1,2\n";

const ONE_RANKED: &str = "# NUMBER ALTERNATIVES: 3\n2: 1\n";

fn desk(alloc: Global) -> Result<MemoryDesk, Fail> {
    let desk = MemoryDesk::new(alloc, Vec::new(alloc), Vec::new(alloc), 4096)?;
    Ok(desk)
}

fn sectors(alloc: Global) -> Result<Weights, Fail> {
    let entries: [i64; 9] = [0, 5, 1, 2, 0, 4, 3, 1, 0];
    Ok(Weights::new(3, entries.to_vec(alloc)?)?)
}

// The answer of `solve` for the order 1, 2, 3 of three objects.
fn solves(
    rt: &impl Abort,
    alloc: Global,
    answer: &Answer,
    weights: &Weights,
    profile: Option<&Profile>,
    text: &str,
) -> Result<(), Fail>
    requires profile { IfSome (option_copied profile) (λ p. p.size ≡ 3) }
    requires value { unsigned_abs answer.now.value ≤ 2 ^ 63 }
    requires decimals { answer.now.decimals ≤ MAX_DECIMALS }
{
    let order = Order::first(alloc, 3)?;
    holds(rt, weights.n() == 3 && order.n() == 3);
    let mut desk = desk(alloc)?;
    let mut room = TextRoom::new(alloc)?;
    print_answer(answer, &order, weights, profile, &mut desk, &mut room)?;
    same(rt, &desk.printed(), &text.as_bytes());
    Ok(())
}

// The same of a profile.
fn solves_profile(
    rt: &impl Abort,
    alloc: Global,
    answer: &Answer,
    bytes: &str,
    text: &str,
) -> Result<(), Fail>
    requires value { unsigned_abs answer.now.value ≤ 2 ^ 63 }
    requires decimals { answer.now.decimals ≤ MAX_DECIMALS }
{
    let profile = read_preflib(alloc, bytes.as_bytes())?;
    let weights = pair_weights(alloc, &profile)?;
    holds(rt, profile.n() == 3);
    solves(rt, alloc, answer, &weights, Some(&profile), text)
}

#[test]
fn three_sectors(rt: HostRuntime) -> Result<(), Fail> {
    let answer = Answer {
        value: 10,
        bound: 10,
        nodes: 1,
        decimals: 0,
    };
    let weights = sectors(rt.alloc())?;
    solves(
        &rt,
        rt.alloc(),
        &answer,
        &weights,
        None,
        "objects 3\norder 1 2 3\nvalue 10\nbound 10\nstatus optimal\nnodes 1\ntotal 16\nlinearity 0.6250\n",
    )
}

#[test]
fn a_lunch_profile(rt: HostRuntime) -> Result<(), Fail> {
    let answer = Answer {
        value: 17,
        bound: 17,
        nodes: 1,
        decimals: 0,
    };
    solves_profile(
        &rt,
        rt.alloc(),
        &answer,
        LUNCH,
        "objects 3\norder 1 2 3\nvalue 17\nbound 17\nstatus optimal\nnodes 1\ntotal 27\nlinearity 0.6296\nvoters 9\ndisagreements 10\nrank 1 1 Soup\nrank 2 2 Rice\nrank 3 3 Fish\n",
    )
}

#[test]
fn voters_who_rank_one(rt: HostRuntime) -> Result<(), Fail> {
    let answer = Answer {
        value: 0,
        bound: 0,
        nodes: 0,
        decimals: 0,
    };
    solves_profile(
        &rt,
        rt.alloc(),
        &answer,
        ONE_RANKED,
        "objects 3\norder 1 2 3\nvalue 0\nbound 0\nstatus optimal\nnodes 0\ntotal 0\nlinearity none\nvoters 2\ndisagreements 0\nrank 1 1\nrank 2 2\nrank 3 3\n",
    )
}

// What `value` prints.
fn weighs(
    rt: &impl Abort,
    alloc: Global,
    value: i128,
    decimals: u8,
    weights: &Weights,
    profile: Option<&Profile>,
    text: &str,
) -> Result<(), Fail>
    requires value { unsigned_abs value ≤ 2 ^ 63 }
    requires decimals { decimals ≤ MAX_DECIMALS }
{
    let mut desk = desk(alloc)?;
    let mut room = TextRoom::new(alloc)?;
    print_value(value, decimals, weights, profile, &mut desk, &mut room)?;
    same(rt, &desk.printed(), &text.as_bytes());
    Ok(())
}

// The sectors in the order 3, 2, 1.
#[test]
fn the_sectors_backwards(rt: HostRuntime) -> Result<(), Fail> {
    let alloc = rt.alloc();
    let text = "objects 3\nvalue 6\ntotal 16\nlinearity 0.3750\n";
    weighs(&rt, alloc, 6, 0, &sectors(alloc)?, None, text)?;
    let text = "objects 3\nvalue 0.06\ntotal 0.16\nlinearity 0.3750\n";
    weighs(&rt, alloc, 6, 2, &sectors(alloc)?, None, text)
}

#[test]
fn half_of_the_greatest_total(rt: HostRuntime) -> Result<(), Fail> {
    let alloc = rt.alloc();
    let half = 500_000_000_000_000_000;
    let entries: [i64; 4] = [0, half, half, 0];
    let weights = Weights::new(2, entries.to_vec(alloc)?)?;
    let text = "objects 2\nvalue 500000000000000000\ntotal 1000000000000000000\nlinearity 0.5000\n";
    weighs(&rt, alloc, 500_000_000_000_000_000, 0, &weights, None, text)
}

#[test]
fn lunch_valued(rt: HostRuntime) -> Result<(), Fail> {
    let alloc = rt.alloc();
    let profile = read_preflib(alloc, LUNCH.as_bytes())?;
    let weights = pair_weights(alloc, &profile)?;
    let text = "objects 3\nvalue 17\ntotal 27\nlinearity 0.6296\nvoters 9\ndisagreements 10\n";
    weighs(&rt, alloc, 17, 0, &weights, Some(&profile), text)
}

#[test]
fn generated(rt: HostRuntime) -> Result<(), Fail> {
    let alloc = rt.alloc();
    let mut room = TextRoom::new(alloc)?;
    let answer = Answer {
        value: 9,
        bound: 10,
        nodes: 1,
        decimals: 0,
    };
    let mut desk = desk(alloc)?;
    print_generated(7, &answer, &sectors(alloc)?, &mut desk, &mut room)?;
    let text = "seed 7\nobjects 3\nvalue 9\nbound 10\nstatus spent\nnodes 1\ntotal 16\n";
    same(&rt, &desk.printed(), &text.as_bytes());
    Ok(())
}

#[test]
fn accepted(rt: HostRuntime) -> Result<(), Fail> {
    let alloc = rt.alloc();
    let mut room = TextRoom::new(alloc)?;
    let mut desk = desk(alloc)?;
    print_accepted(4, 4, 0, &mut desk, &mut room)?;
    print_accepted(-4, 6, 1, &mut desk, &mut room)?;
    let text =
        "accepted\nvalue 4\nbound 4\nstatus optimal\naccepted\nvalue -0.4\nbound 0.6\nstatus bounded\n";
    same(&rt, &desk.printed(), &text.as_bytes());
    Ok(())
}

/// Units of 10^-k, k, and how they are written.
const DECIMALS: &[(i128, u8, &str)] = &[
    (0, 0, "0"),
    (-5, 0, "-5"),
    (0, 1, "0.0"),
    (-5, 1, "-0.5"),
    (-80, 1, "-8.0"),
    (175, 2, "1.75"),
    (-1, 6, "-0.000001"),
    (1_000_000_000_000_000_000, 6, "1000000000000.000000"),
    (i128::MAX, 0, "170141183460469231731687303715884105727"),
    (i128::MIN, 0, "-170141183460469231731687303715884105728"),
    (i128::MAX, 6, "170141183460469231731687303715884.105727"),
    (i128::MIN, 6, "-170141183460469231731687303715884.105728"),
];

#[test]
fn decimals(rt: HostRuntime) -> Result<(), Fail> {
    for (value, decimals, text) in DECIMALS {
        holds(&rt, *decimals <= MAX_DECIMALS);
        same(&rt, &decimal_text(*value, *decimals).as_str(), text);
    }
    Ok(())
}
