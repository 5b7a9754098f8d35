// The bound with which a search starts.
ghost use Rattle.std.specs.Prelude.{◌≡◌, [], IfOk};
ghost use Rattle.lop_model.specs.Bound.{pair_bound};

use lop_fix::Fixings;
use lop_leaf::{LeafRecord, PairRoom, upper};
use lop_model::Weights;
use std::alloc::{AllocError, Global};

/// The pair bound with nothing fixed. O(n²).
pub fn root_bound(alloc: Global, weights: &Weights) -> Result<i128, AllocError>
    ensures { IfOk result (λ bound. bound ≡ pair_bound weights.now []) }
{
    let n = weights.n();
    let fixings = Fixings::new(alloc, n)?;
    let mut room = PairRoom::new(alloc, n)?;
    Ok(upper(weights, &fixings, &LeafRecord::new(alloc)?, &mut room))
}
