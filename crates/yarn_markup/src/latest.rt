//! Where the latest open attribute of each name stands.
ghost use Rattle.std.specs.Prelude.{OnOk};
ghost use Rattle.yarn_markup.specs.Latest.{place_in, IsSet};

use std::collections::BTreeMap;
use yarn_base::{Memory, Text};

/// Puts down where the latest open attribute of that name stands; `None` where none is open.
pub(crate) fn set_latest(
    latest: &mut BTreeMap<Text, usize>,
    name: &Text,
    place: Option<usize>,
) -> Result<(), Memory>
    ensures { OnOk result (IsSet (place_in latest.old) name.now place (place_in latest.new)) }
{
    match place {
        Some(place) => {
            latest.insert(name.copy()?, place)?;
        }
        None => {
            latest.remove(name);
        }
    }
    Ok(())
}
