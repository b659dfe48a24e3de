ghost use Rattle.std.specs.Prelude.{◌≡◌, map, IfOk};
ghost use Rattle.cx_words.specs.Value.{are_distinct};

use cx_outside::NoMemory;
use std::alloc::Global;
use std::collections::BTreeSet;

/// Whether no two of the names are equal.
pub fn are_distinct(alloc: Global, names: &[&str]) -> Result<bool, NoMemory>
    ensures { IfOk result (λ answer. answer ≡ are_distinct (map (λ name. name.now) names.now)) }
{
    let mut seen = BTreeSet::new(alloc);
    for name in names {
        if !seen.insert(*name)? {
            return Ok(false);
        }
    }
    Ok(true)
}
