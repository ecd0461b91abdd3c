//! Reads a string table for a base that is made up.
ghost use Rattle.std.specs.Prelude.{◌≡◌, map, IfOk, OnOk};
ghost use Rattle.yarn_table.specs.Tables.{AreDistinct};

use indexmap::IndexSet;
use std::alloc::Global;
use yarn_base::{List, Memory, Text};
use yarn_table::read_table;
use yarn_value::{Base, BaseLine};

/// Whether the file is the table of a project with so many lines, all without values and in one node `Start`.
pub(crate) fn is_read(alloc: Global, bytes: &List<u8>, rows: u32) -> bool {
    match base_of(alloc, rows) {
        Ok(base) => read_table(alloc, bytes, &base).is_ok(),
        Err(Memory) => false,
    }
}

fn base_of(alloc: Global, rows: u32) -> Result<Base, Memory>
    ensures { IfOk result AreDistinct }
{
    let mut ids = IndexSet::new(alloc);
    let mut base = List::new(alloc);
    for row in 0..rows {
        let id = format!(in alloc; "line:Start-{row}")?;
        let id = Text::from_string(id).map_err(|_| Memory)?;
        put(alloc, &mut ids, &mut base, id)?;
    }
    Ok(base)
}

// Puts a row of this id last. An id that is there already is answered as want of memory.
#[tactic(auto, using(crate::proofs::BaseLemmas::distinct_put))]
fn put(alloc: Global, ids: &mut IndexSet<Text>, base: &mut Base, id: Text) -> Result<(), Memory>
    requires distinct { AreDistinct base.now }
    requires ids { ids.now.keys ≡ map (λ line. line.id) base.now }
    ensures distinct { OnOk result (AreDistinct base.new) }
    ensures ids { OnOk result (ids.new.keys ≡ map (λ line. line.id) base.new) }
{
    if !ids.insert(id.copy()?)? {
        return Err(Memory);
    }
    let line = BaseLine {
        id,
        holes: 0,
        text: Text::from_str(alloc, "")?,
        file: 0,
        node: 0,
        line: 1,
    };
    base.push(line).map_err(|_| Memory)
}
