// The weights of a profile.
ghost use Rattle.std.specs.Prelude.{◌≡◌, ◌≢◌, ℕ, ℤ, ◌+◌, ◌*◌, ◌<◌, ◌≤◌, All, Ok, length, map, slice_index, pos, IfOk, IfErr};
ghost use Rattle.lop_model.specs.declared.weights.WeightsFault.TheVariants.{Size, TooHeavy as Heavy};
ghost use Rattle.lop_preflib.specs.Profile.{votes, order_at};
ghost use Rattle.lop_preflib.specs.declared.profile.TheConstants.{MAX_VOTERS};
ghost use Rattle.lop_profile.specs.Preference.{order_preference};
ghost use Rattle.lop_profile.specs.Reading.{profile_reading, IsFault};
ghost use Rattle.lop_profile.specs.declared.profile.ProfileFault.TheVariants.{TooHeavy, Memory};

use crate::cells::add_order;
use lop_model::{Weights, WeightsFault};
use lop_preflib::Profile;
use std::alloc::{AllocError, AllocFailed, Global};

/// Why a profile has no weights.
#[derive(Clone, Copy, Debug, PartialEq, Eq, Drop)]
pub enum ProfileFault {
    /// The entries sum to this, which is more than 10^18.
    TooHeavy(i128),
    /// Memory ran out.
    Memory,
}

impl From<AllocError> for ProfileFault {
    ghost from_gives = { λ _ fault. fault ≡ Memory };

    fn from(_: AllocError) -> Self {
        ProfileFault::Memory
    }
}

impl From<AllocFailed<i64>> for ProfileFault {
    ghost from_gives = { λ _ fault. fault ≡ Memory };

    fn from(_: AllocFailed<i64>) -> Self {
        ProfileFault::Memory
    }
}

/// The preference matrix: how many voters rank the object of the row before that of the column, in an earlier group.
/// One pass over the orders, with at most k² / 2 additions and as many comparisons for an order of k objects.
pub fn pair_weights(alloc: Global, profile: &Profile) -> Result<Weights, ProfileFault>
    ensures weights { IfOk result (λ weights. profile_reading profile.now ≡ Ok weights) }
    ensures fault { IfErr result (IsFault (profile_reading profile.now)) }
{
    let n = profile.n();
    let size = n as usize;
    let mut cells = vec![in alloc; 0u64; size * size]?;
    let orders = profile.orders();
    for index in 0..orders {
        count_order(&mut cells, profile, index);
    }
    let entries = signed(alloc, &cells)?;
    match Weights::new(n, entries) {
        Ok(weights) => Ok(weights),
        Err(fault) => Err(too_heavy(fault)),
    }
}

// Adds an order of the profile to the cells.
fn count_order(cells: &mut [u64], profile: &Profile, index: usize)
    requires index { index < length profile.now.orders }
    requires square { length cells.old ≡ profile.now.size * profile.now.size }
    requires small { All (λ cell. cell + (order_at profile.now.orders index).count ≤ MAX_VOTERS) cells.old }
    ensures { (i j : ℕ) → i < profile.now.size → j < profile.now.size → slice_index cells.new (i * profile.now.size + j) ≡ slice_index cells.old (i * profile.now.size + j) + order_preference i j (order_at profile.now.orders index) }
{
    let n = profile.n() as usize;
    let ranked = profile.ranked(index);
    let groups = profile.group_of(index);
    add_order(cells, n, profile.count(index), ranked, groups);
}

// What weights that are too heavy say of a profile.
fn too_heavy(fault: WeightsFault) -> ProfileFault
    requires { fault ≢ Size }
    ensures { (sum : ℤ) → fault ≡ Heavy sum → result ≡ TooHeavy sum }
{
    match fault {
        WeightsFault::TooHeavy(sum) => ProfileFault::TooHeavy(sum),
        WeightsFault::Size => unreachable!(),
    }
}

// The cells as entries.
fn signed(alloc: Global, cells: &[u64]) -> Result<Vec<i64>, ProfileFault>
    requires { All (λ cell. cell ≤ MAX_VOTERS) cells.now }
    ensures entries { IfOk result (λ entries. entries.items ≡ map pos cells.now) }
    ensures fault { IfErr result (λ fault. fault ≡ Memory) }
{
    let mut entries = Vec::with_capacity(alloc, cells.len())?;
    for cell in cells {
        entries.push(*cell as i64)?;
    }
    Ok(entries)
}

/// The number of voters: the sum of the counts.
pub fn voters(profile: &Profile) -> u64
    ensures { result ≡ votes profile.now.orders }
{
    let _n = profile.n();
    let mut sum = 0;
    for index in 0..profile.orders() {
        sum += profile.count(index);
    }
    sum
}
