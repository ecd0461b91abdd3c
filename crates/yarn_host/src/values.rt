//! Copies of lists of values.
ghost use Rattle.std.specs.Prelude.{◌≡◌, IfOk};

use std::alloc::Global;
use yarn_base::{List, Memory};
use yarn_value::Value;

// Equal values, in order.
pub(crate) fn copy_values(alloc: Global, values: &List<Value>) -> Result<List<Value>, Memory>
    ensures { IfOk result (λ copy. copy ≡ values.now) }
{
    let mut copies = List::new(alloc);
    for value in values.as_slice() {
        if copies.push(value.copy()?).is_err() {
            return Err(Memory);
        }
    }
    Ok(copies)
}
