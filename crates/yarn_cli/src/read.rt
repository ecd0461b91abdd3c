//! Reads the source files of a command, all of them before any is judged.
ghost use Rattle.std.specs.Prelude.{◌≡◌, ◌≤◌, Some, IfOk, OnOk, IsErrOf};
ghost use Rattle.yarn_base.specs.Causes.{HasCause};
ghost use Rattle.yarn_cli.specs.Read.{IsAdded, IsRead, IsSource};

use std::alloc::Global;
use yarn_base::{Files, IoFault, List, SourceFile, Text};

/// The most bytes of a source file (docs/language.md, Limits).
const FILE_LIMIT: usize = 4194304;

/// What reading all files gives.
#[derive(Drop)]
pub(crate) enum AllRead<'w> {
    /// The files, in order.
    Sources(List<SourceFile>),
    /// The first name whose file can't be read.
    Unread(&'w Text),
    /// Want of memory.
    Memory,
}

/// Reads the files of these names, in order.
pub(crate) fn read_all<'w, F: Files>(alloc: Global, names: &'w [Text], files: &mut F) -> AllRead<'w>
    ensures read { IsRead (F.contents files.old) names.now (F.latest_fault files.new)
        (F.read_faults files.old) (F.read_faults files.new) result }
    ensures same { F.contents files.new ≡ F.contents files.old }
    ensures count { F.read_faults files.old ≤ F.read_faults files.new }
    ensures writes { F.write_faults files.new ≡ F.write_faults files.old }
{
    let mut sources = List::new(alloc);
    for name in names {
        match add_source(alloc, name, files, &mut sources) {
            Ok(()) => {}
            Err(IoFault::Failed) => return AllRead::Unread(name),
            Err(IoFault::Memory) => return AllRead::Memory,
        }
    }
    AllRead::Sources(sources)
}

// Puts the file of that name last.
fn add_source<F: Files>(
    alloc: Global,
    name: &Text,
    files: &mut F,
    sources: &mut List<SourceFile>,
) -> Result<(), IoFault>
    ensures added { OnOk result (IsAdded (F.contents files.old) name.now sources.old sources.new) }
    ensures cause { HasCause (F.read_faults files.old) (F.read_faults files.new) result }
    ensures named { IsErrOf result IoFault.Failed → F.latest_fault files.new ≡ Some name.now }
    ensures same { F.contents files.new ≡ F.contents files.old }
    ensures writes { F.write_faults files.new ≡ F.write_faults files.old }
{
    let source = read_source(alloc, name, files)?;
    match sources.push(source) {
        Ok(()) => Ok(()),
        Err(_) => Err(IoFault::Memory),
    }
}

/// Reads the file of that name, with one byte more than a source may have where it is longer.
pub(crate) fn read_source<F: Files>(
    alloc: Global,
    name: &Text,
    files: &mut F,
) -> Result<SourceFile, IoFault>
    ensures source { IfOk result (IsSource (F.contents files.old) name.now) }
    ensures cause { HasCause (F.read_faults files.old) (F.read_faults files.new) result }
    ensures named { IsErrOf result IoFault.Failed → F.latest_fault files.new ≡ Some name.now }
    ensures same { F.contents files.new ≡ F.contents files.old }
    ensures writes { F.write_faults files.new ≡ F.write_faults files.old }
{
    let bytes = files.read(alloc, name, FILE_LIMIT)?;
    match name.copy() {
        Ok(name) => Ok(SourceFile {
            name,
            bytes: List::from_vec(bytes),
        }),
        Err(_) => Err(IoFault::Memory),
    }
}
