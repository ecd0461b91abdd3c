//! Reads a project and a file: their lines, the refusals in order, and the trees where none has a place.
ghost use Rattle.std.specs.Prelude.{◌≡◌, map, None, true, IfOk};
ghost use Rattle.yarn_tree.specs.Reading.{IsProjectRead, IsFileRead, reading_of, file_reading_of, splits_read, split_read, read_of};
ghost use Rattle.yarn_tree.specs.Size.{too_much, big_alone};

use crate::grow::{grow_file, grow_files};
use crate::order::{check_lines, check_project, refused};
use crate::size::{too_much_alone, too_much_in};
use crate::split::{split_all, split_alone};
use crate::stages::SplitFile;
use crate::{File, Project, ProjectFault, RefusalKind};
use std::alloc::Global;
use std::slice;
use yarn_base::{List, Memory, SourceFile};
use yarn_nodes::{FileRead, read_lines};
use yarn_value::{Signature, Signatures};

/// The trees of the files, or the first fault of the project (docs/language.md, Refusals of a project). Functions are the
/// builtins and those of the signatures. The files are given away: the texts of the trees are parts of their bytes.
pub fn read_project(
    alloc: Global,
    files: List<SourceFile>,
    signatures: &Signatures,
) -> Result<Project, ProjectFault>
    ensures { IsProjectRead (reading_of signatures.now files) result }
{
    match too_much_in(files.as_slice()) {
        Some(place) => Err(refused(RefusalKind::TooMuch, place)),
        None => read_sources(alloc, files.into_vec(), signatures.as_slice()),
    }
}

fn read_sources(
    alloc: Global,
    sources: Vec<SourceFile>,
    signatures: &[Signature],
) -> Result<Project, ProjectFault>
    requires { too_much 0 0 sources.items ≡ None }
    ensures { IsProjectRead (reading_of signatures.now sources.items) result }
{
    match split_all(alloc, sources) {
        Ok(splits) => finish_project(alloc, splits, signatures),
        Err(fault) => Err(fault),
    }
}

fn finish_project(
    alloc: Global,
    splits: List<SplitFile>,
    signatures: &[Signature],
) -> Result<Project, ProjectFault>
    ensures { IsProjectRead (splits_read signatures.now splits) result }
{
    let reads = read_all(alloc, splits)?;
    check_project(alloc, reads.as_slice(), signatures)?;
    let files = grow_files(alloc, reads)?;
    Ok(Project { files })
}

fn read_all(alloc: Global, splits: List<SplitFile>) -> Result<List<FileRead>, Memory>
    ensures { IfOk result (λ reads. reads ≡ map (read_of true) splits) }
{
    let mut reads = Vec::new(alloc);
    for split in splits.into_vec() {
        reads.push(read_split(alloc, true, split)?)?;
    }
    Ok(List::from_vec(reads))
}

fn read_split(alloc: Global, ids: bool, split: SplitFile) -> Result<FileRead, Memory>
    ensures { IfOk result (λ read. read ≡ read_of ids split) }
{
    let SplitFile {
        number,
        name,
        lines,
    } = split;
    read_lines(alloc, ids, number, name, lines)
}

/// The tree of one file, or the first of its own faults: those before BadTitle. Its lines have no ids.
pub fn read_file(alloc: Global, file: &SourceFile) -> Result<File, ProjectFault>
    ensures { IsFileRead (file_reading_of file.now) result }
{
    match too_much_alone(file) {
        Some(place) => Err(refused(RefusalKind::TooMuch, place)),
        None => read_source(alloc, file),
    }
}

fn read_source(alloc: Global, source: &SourceFile) -> Result<File, ProjectFault>
    requires { big_alone source.now ≡ None }
    ensures { IsFileRead (file_reading_of source.now) result }
{
    match split_alone(alloc, source) {
        Ok(split) => finish_file(alloc, split),
        Err(fault) => Err(fault),
    }
}

fn finish_file(alloc: Global, split: SplitFile) -> Result<File, ProjectFault>
    ensures { IsFileRead (split_read split) result }
{
    let read = read_split(alloc, false, split)?;
    check_lines(alloc, slice::from_ref(&read))?;
    Ok(grow_file(alloc, read.file)?)
}
