// Counts, added to the cells of a matrix.
ghost use Rattle.std.specs.Prelude.{◌≡◌, ◌≢◌, ℕ, ◌+◌, ◌*◌, ◌<◌, ◌≤◌, All, length, drop, slice_index, if◌then◌else◌};
ghost use Rattle.lop_profile.specs.Preference.{stands_in, ranks_before};
ghost use Rattle.lop_profile.specs.Cells.{IsRanking, AreGrouped};
ghost use Rattle.lop_model.specs.declared.weights.TheConstants.{MAX_OBJECTS};
ghost use Rattle.lop_preflib.specs.declared.profile.TheConstants.{MAX_VOTERS};

// Adds a count to each of these places of a row.
fn add_row(row: &mut [u64], count: u64, places: &[u16])
    requires places { IsRanking (length row.old) places.now }
    requires small { All (λ cell. cell + count ≤ MAX_VOTERS) row.old }
    ensures { (j : ℕ) → j < length row.old → slice_index row.new j ≡ slice_index row.old j + (if stands_in places.now j then count else 0) }
{
    for place in places {
        row[*place as usize] += count;
    }
}

// The place behind the group of the object at a place.
fn group_end(groups: &[u16], place: usize) -> usize
    requires { place < length groups.now }
    ensures behind { place < result }
    ensures within { result ≤ length groups.now }
    ensures same { (q : ℕ) → place ≤ q → q < result → slice_index groups.now q ≡ slice_index groups.now place }
    ensures next { result < length groups.now → slice_index groups.now result ≢ slice_index groups.now place }
{
    let mut end = place + 1;
    while end < groups.len() && groups[end] == groups[place] {
        end += 1;
    }
    end
}

// The objects from a place on.
fn later(ranked: &[u16], end: usize) -> &[u16]
    requires { end ≤ length ranked.now }
    ensures { result.now ≡ drop end ranked.now }
{
    &ranked[end..]
}

/// Adds a count to the cells of all pairs that an order ranks, in n rows of n cells. O(k²) for k objects.
pub(crate) fn add_order(cells: &mut [u64], n: usize, count: u64, ranked: &[u16], groups: &[u16])
    requires square { length cells.old ≡ n * n }
    requires within_limit { n ≤ MAX_OBJECTS }
    requires ranked { IsRanking n ranked.now }
    requires groups { AreGrouped ranked.now groups.now }
    requires small { All (λ cell. cell + count ≤ MAX_VOTERS) cells.old }
    ensures { (i j : ℕ) → i < n → j < n → slice_index cells.new (i * n + j) ≡ slice_index cells.old (i * n + j) + (if ranks_before ranked.now groups.now i j then count else 0) }
{
    for (place, object) in ranked.iter().enumerate() {
        let start = *object as usize * n;
        let end = group_end(groups, place);
        add_row(&mut cells[start..start + n], count, later(ranked, end));
    }
}
