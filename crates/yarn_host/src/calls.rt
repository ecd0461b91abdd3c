//! Asks one function of several.
ghost use Rattle.std.specs.Prelude.{◌<◌, length, map};
ghost use Rattle.yarn_host.specs.Calls.{Called, CalledAt};

use crate::{HostFault, HostFunction};
use std::alloc::Global;
use yarn_base::List;
use yarn_value::Value;

// Asks a function. What it did to it is said in one fact.
fn call_one<B: HostFunction>(
    function: &mut B,
    alloc: Global,
    args: &List<Value>,
) -> Result<Value, HostFault>
    ensures { Called (B.meaning function.old) (B.meaning function.new) args.now result }
{
    function.call(alloc, args)
}

// Asks the function at a place.
fn call_at<B: HostFunction>(
    functions: &mut [B],
    at: usize,
    alloc: Global,
    args: &List<Value>,
) -> Result<Value, HostFault>
    requires { at < length functions.old }
    ensures { CalledAt (map B.meaning functions.old) (map B.meaning functions.new) at args.now result }
{
    call_one(&mut functions[at], alloc, args)
}

// Asks the function at a place of a table's functions.
pub(crate) fn call_in<B: HostFunction>(
    functions: &mut Vec<B>,
    at: usize,
    alloc: Global,
    args: &List<Value>,
) -> Result<Value, HostFault>
    requires { at < length functions.old.items }
    ensures { CalledAt (map B.meaning functions.old.items) (map B.meaning functions.new.items) at args.now result }
{
    call_at(functions, at, alloc, args)
}
