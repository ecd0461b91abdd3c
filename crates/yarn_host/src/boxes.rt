//! A table whose functions are of any type.
use crate::{HostFault, HostFunction, Table};
use std::alloc::Global;
use yarn_base::List;
use yarn_value::Value;

/// A table of boxed functions, which may be of different types.
pub type HostTable = Table<Box<dyn HostFunction>>;

impl HostFunction for Box<dyn HostFunction> {
    ghost meaning = { λ b. (HostFunction-box b).meaning b.value };

    fn call(&mut self, alloc: Global, args: &List<Value>) -> Result<Value, HostFault> {
        (**self).call(alloc, args)
    }
}
