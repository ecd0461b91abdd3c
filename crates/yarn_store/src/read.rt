//! Reads a variables file line by line.
ghost use Rattle.std.specs.Prelude.{◌≡◌, ◌≤◌, ◌<◌, IfOk, length};
ghost use Rattle.yarn_store.specs.Reading.{ReadsVars};
ghost use Rattle.yarn_store.specs.Steps.{AddsOr};

use crate::Store;
use crate::line::first_line;
use crate::pair::read_pair;
use std::alloc::Global;
use yarn_base::{List, Memory};

/// Why a variables file gives no store.
#[derive(Clone, Copy, Debug, PartialEq, Eq)]
pub enum VarsFault {
    /// The first line, from 1, that is of another form or whose variable stood before.
    BadVars(u32),
    /// Want of memory.
    Memory,
}

impl From<Memory> for VarsFault {
    ghost use Rattle.std.specs.Prelude.{◌≡◌};
    ghost use Rattle.yarn_store.specs.declared.read.VarsFault.TheVariants.{Memory};

    ghost from_gives = { λ _ e. e ≡ Memory };

    fn from(_: Memory) -> VarsFault {
        VarsFault::Memory
    }
}

/// The store of a variables file, or its first bad line (docs/formats.md, Variables file).
pub fn read_vars(alloc: Global, bytes: &List<u8>) -> Result<Store, VarsFault>
    requires { length bytes.now ≤ 1073741824 }
    ensures { ReadsVars bytes.now result }
{
    let mut store = Store::new(alloc);
    let mut number = 1;
    let mut rest = bytes.as_slice();
    while !rest.is_empty() {
        let (line, after) = first_line(rest);
        if !add_line(alloc, &mut store, line)? {
            return Err(VarsFault::BadVars(number));
        }
        number += 1;
        rest = after;
    }
    Ok(store)
}

// Puts the pair of a line last, and says whether the line may stand there. An empty line has no pair.
fn add_line(alloc: Global, store: &mut Store, line: &[u8]) -> Result<bool, Memory>
    requires { length line.now < 4294967296 }
    ensures { IfOk result (λ added. AddsOr store.old line.now store.new added) }
{
    if line.is_empty() {
        return Ok(true);
    }
    let Some((name, value)) = read_pair(alloc, line)? else {
        return Ok(false);
    };
    if store.get(&name).is_some() {
        return Ok(false);
    }
    store.set(name, value).map_err(|_| Memory)?;
    Ok(true)
}
