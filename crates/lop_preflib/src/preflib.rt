// The reader of PrefLib files.
ghost use Rattle.std.specs.Prelude.{◌≡◌, Ok, IfOk, IfErr};
ghost use Rattle.lop_preflib.specs.Reading.{preflib_reading, IsRefusal};

use crate::gathered::Gathered;
use crate::lines::Lines;
use crate::profile::Profile;
use crate::refusal::PrefRefusal;
use std::alloc::Global;

/// Reads a text in one pass, O(bytes). It keeps the names, the counts and the ranked objects.
pub fn read_preflib(alloc: Global, bytes: &[u8]) -> Result<Profile, PrefRefusal>
    ensures profile { IfOk result (λ profile. preflib_reading bytes.now ≡ Ok profile) }
    ensures refusal { IfErr result (IsRefusal (preflib_reading bytes.now)) }
{
    let mut gathered = Gathered::new(alloc);
    let mut number: u64 = 0;
    for line in (Lines { rest: bytes }) {
        number += 1;
        gathered.add(alloc, line, number)?;
    }
    gathered.finish(number)
}
