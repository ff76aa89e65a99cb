//! The files of a workload.
ghost use Rattle.std.specs.Prelude.{◌≡◌, ◌≤◌, [], ◌∷◌, map, IfOk, IsOkUnless};
ghost use Rattle.jm_gen.specs.Specifications.{unsafe_iter, has_next};
ghost use Rattle.jm_gen.specs.Scripts.{IsInRange, script_text, most_rounds};

use crate::files::{GenError, Workload};
use crate::script::script;
use crate::specification::{has_next, unsafe_iter};
use std::alloc::{AllocError, Global};

/// The most rounds of a workload.
const MAX_ROUNDS: u32 = 8000;

/// The workload of `n` rounds: the specifications `UnsafeIter` and `HasNext`, and four scripts of `n` rounds each. A
/// round has a collection, its change, the use of its iterator in both specifications, and the deaths of both objects;
/// each sixteenth round is followed by a pass on both specifications.
///
/// The answer is `OutOfRange` exactly where `n` is 0 or more than 8000.
pub fn workload(alloc: Global, n: u32) -> Result<Workload, GenError>
    ensures specs { IfOk result (λ files. map (λ text. text.items) files.specs.items ≡ unsafe_iter ∷ has_next ∷ []) }
    ensures scripts { IfOk result (λ files. map (λ text. text.items) files.scripts.items
        ≡ script_text 0 n ∷ script_text 1 n ∷ script_text 2 n ∷ script_text 3 n ∷ []) }
    ensures in_range { IsInRange n → IsOkUnless result GenError.NoMemory }
    ensures out_of_range { ¬ IsInRange n → result ≡ Err GenError.OutOfRange }
{
    if n == 0 || n > MAX_ROUNDS {
        return Err(GenError::OutOfRange);
    }
    Ok(files(alloc, n)?)
}

/// The two specifications, and the four scripts, each of the given number of rounds.
fn files(alloc: Global, n: u32) -> Result<Workload, AllocError>
    requires { n ≤ most_rounds }
    ensures specs { IfOk result (λ files. map (λ text. text.items) files.specs.items ≡ unsafe_iter ∷ has_next ∷ []) }
    ensures scripts { IfOk result (λ files. map (λ text. text.items) files.scripts.items
        ≡ script_text 0 n ∷ script_text 1 n ∷ script_text 2 n ∷ script_text 3 n ∷ []) }
{
    let mut specs = Vec::new(alloc);
    specs.push(unsafe_iter(alloc)?)?;
    specs.push(has_next(alloc)?)?;
    let mut scripts = Vec::new(alloc);
    scripts.push(script(alloc, 0, n)?)?;
    scripts.push(script(alloc, 1, n)?)?;
    scripts.push(script(alloc, 2, n)?)?;
    scripts.push(script(alloc, 3, n)?)?;
    Ok(Workload { specs, scripts })
}
