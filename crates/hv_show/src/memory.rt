//! Want of memory.

ghost use Rattle.std.specs.Prelude.{◌≡◌, IfOk, Ok};

use anyhow::bail;
use hv_types::NoMemory;

/// What was answered, where there was enough memory for it.
pub(crate) fn enough<T: Drop>(answer: Result<T, NoMemory>) -> anyhow::Result<T>
    ensures { IfOk result (λ value. answer ≡ Ok value) }
{
    match answer {
        Ok(value) => Ok(value),
        Err(NoMemory) => bail!("not enough memory"),
    }
}
