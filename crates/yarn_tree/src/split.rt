//! Cuts the files into lines. A line that is no UTF-8 is told before one that is too long, also in a later file.
ghost use Rattle.std.specs.Prelude.{◌≡◌, ◌∷◌, ◌+◌, ◌<◌, [], List, length, OnOk, IfOk, IfErr, MatchResult};
ghost use Rattle.yarn_base.specs.declared.SourceFile.{SourceFile as SourceOf};
ghost use Rattle.yarn_tree.specs.Reading.{Answers, IsFault, sources_split, source_split};
ghost use Rattle.yarn_tree.specs.Splits.{AreFine, IsSmall};

use crate::order::refused;
use crate::stages::SplitFile;
use crate::{ProjectFault, RefusalKind};
use std::alloc::Global;
use yarn_base::{List as Items, Place, SourceFile, Text};
use yarn_lines::{LineFault, Lines, split, split_own};

#[derive(Drop)]
pub(crate) struct Splitter {
    number: u32,
    splits: Items<SplitFile>,
    long: Option<Place>,
}

impl Splitter {
    ghost use Rattle.yarn_tree.specs.Splitter.{no_files, splits_on, split_put, long_noted};

    fn new(alloc: Global) -> Splitter
        ensures { result ≡ no_files }
    {
        Splitter {
            number: 0,
            splits: Items::new(alloc),
            long: None,
        }
    }

    fn take(&mut self, alloc: Global, source: SourceFile) -> Result<(), ProjectFault>
        requires few { self.old.number < 256 }
        requires small { IsSmall source }
        ensures on { MatchResult result
            (λ _. (sources : List SourceOf) → splits_on self.old (source ∷ sources) ≡ splits_on self.new sources)
            (λ fault. (sources : List SourceOf) → IsFault (splits_on self.old (source ∷ sources)) fault) }
        ensures number { OnOk result (self.new.number ≡ self.old.number + 1) }
    {
        let SourceFile { name, bytes } = source;
        match split_own(alloc, bytes) {
            Ok(lines) => self.put(name, lines),
            Err(LineFault::BadUtf8(line)) => Err(refused(
                RefusalKind::BadUtf8,
                Place {
                    file: self.number,
                    line,
                },
            )),
            Err(LineFault::LineTooLong(line)) => {
                self.note_long(line);
                Ok(())
            }
            Err(LineFault::Memory) => Err(ProjectFault::Memory),
        }
    }

    fn put(&mut self, name: Text, lines: Lines) -> Result<(), ProjectFault>
        requires { self.old.number < 256 }
        ensures ok { OnOk result (self.new ≡ split_put self.old name lines) }
        ensures err { IfErr result (λ fault. fault ≡ ProjectFault.Memory) }
    {
        let split = SplitFile {
            number: self.number,
            name,
            lines,
        };
        self.splits.push(split).map_err(|_| ProjectFault::Memory)?;
        self.number += 1;
        Ok(())
    }

    fn note_long(&mut self, line: u32)
        requires { self.old.number < 256 }
        ensures { self.new ≡ long_noted self.old line }
    {
        if self.long.is_none() {
            self.long = Some(Place {
                file: self.number,
                line,
            });
        }
        self.number += 1;
    }

    fn finish(self) -> Result<Items<SplitFile>, ProjectFault>
        ensures { Answers (splits_on self []) result }
    {
        match self.long {
            None => Ok(self.splits),
            Some(place) => Err(refused(RefusalKind::LineTooLong, place)),
        }
    }
}

/// The files of a project, cut into lines.
pub(crate) fn split_all(
    alloc: Global,
    sources: Vec<SourceFile>,
) -> Result<Items<SplitFile>, ProjectFault>
    requires { AreFine sources.items }
    ensures { Answers (sources_split sources.items) result }
{
    let mut splitter = Splitter::new(alloc);
    for source in sources {
        if let Err(fault) = splitter.take(alloc, source) {
            return Err(fault);
        }
    }
    splitter.finish()
}

/// A file that is read alone, cut into lines.
pub(crate) fn split_alone(alloc: Global, source: &SourceFile) -> Result<SplitFile, ProjectFault>
    requires { IsSmall source.now }
    ensures { Answers (source_split source.now) result }
{
    match split(alloc, &source.bytes) {
        Ok(lines) => named(source, lines),
        Err(LineFault::BadUtf8(line)) => Err(refused(
            RefusalKind::BadUtf8,
            Place { file: 0, line },
        )),
        Err(LineFault::LineTooLong(line)) => Err(refused(
            RefusalKind::LineTooLong,
            Place { file: 0, line },
        )),
        Err(LineFault::Memory) => Err(ProjectFault::Memory),
    }
}

fn named(source: &SourceFile, lines: Lines) -> Result<SplitFile, ProjectFault>
    ensures ok { IfOk result (λ split. split ≡ record { number = 0; name = source.now.name; lines = lines }) }
    ensures err { IfErr result (λ fault. fault ≡ ProjectFault.Memory) }
{
    match source.name.copy() {
        Ok(name) => Ok(SplitFile {
            number: 0,
            name,
            lines,
        }),
        Err(_) => Err(ProjectFault::Memory),
    }
}
