//! Named files in memory, some of whose reads and writes fail. What files mean stands in docs/outside.md.
ghost use Rattle.std.specs.Prelude.{◌≡◌, ◌≤◌, ◌+◌, ◌++◌, [], ◌∷◌, ◌⊎◌, ℕ, length, take, Some, None, MatchOption, OnOk, OnErr, IfOk, IfErr, IsErrOf};
ghost use Rattle.std.specs.Option.{option_copied};
ghost use Rattle.std.specs.Result.{IsErr};
ghost use Rattle.yarn_base.specs.Calls.{one_more, IsToFail};
ghost use Rattle.yarn_base.specs.Causes.{HasCause};
ghost use Rattle.yarn_base.specs.Outside.{put, GivesFile, HoldsAfter, ChangesOnly};
ghost use Rattle.yarn_base.specs.StoredFiles.{file_of, place_of};

use crate::calls::Calls;
use crate::{Files, IoFault, List, Memory, Text};
use std::alloc::Global;

#[derive(Debug, Drop)]
pub(crate) struct StoredFile {
    pub name: Text,
    pub bytes: List<u8>,
}

/// Files in memory, which tell all that they hold.
///
/// Reads and writes are counted from 1, each kind by itself, whatever they answer. Those whose numbers were
/// given to [`fail_read`](MemoryFiles::fail_read) and [`fail_write`](MemoryFiles::fail_write) fail; besides,
/// a read of a missing file fails. The rule is docs/outside.md, "The things in memory".
#[derive(Debug, Drop)]
pub struct MemoryFiles {
    files: Vec<StoredFile>,
    reads: Calls,
    writes: Calls,
    read_faults: u64,
    write_faults: u64,
    latest_fault: Option<Text>,
}

impl MemoryFiles {
    ghost use Rattle.yarn_base.specs.MemoryFiles.{stored_in, read_faults_in, latest_fault_in, write_faults_in, reads_made, failing_reads, writes_made, failing_writes, IsNew, SameFiles, SameReads, SameWrites};

    /// No files. No call was made and none is to fail. It takes no memory.
    pub fn new(alloc: Global) -> MemoryFiles
        ensures { IsNew result }
    {
        MemoryFiles {
            files: Vec::new(alloc),
            reads: Calls::new(alloc),
            writes: Calls::new(alloc),
            read_faults: 0,
            write_faults: 0,
            latest_fault: None,
        }
    }

    /// Puts a file there, in place of the one of that name. It counts as no write. An `Err`, which is want of
    /// memory, hands both back.
    pub fn put(&mut self, name: Text, bytes: List<u8>) -> Result<(), (Text, List<u8>)>
        ensures ok { OnOk result (stored_in self.new ≡ put (stored_in self.old) name bytes) }
        ensures err { OnErr result (stored_in self.new ≡ stored_in self.old) }
        ensures back { IfErr result (λ b. b ≡ (name, bytes)) }
        ensures reads { SameReads self.old self.new }
        ensures writes { SameWrites self.old self.new }
        ensures read_faults { read_faults_in self.new ≡ read_faults_in self.old }
        ensures write_faults { write_faults_in self.new ≡ write_faults_in self.old }
        ensures latest_fault { latest_fault_in self.new ≡ latest_fault_in self.old }
    {
        put_in(&mut self.files, name, bytes)
    }

    /// The bytes of the file of that name, and `None` where there is none. It counts as no read.
    pub fn contents(&self, name: &Text) -> Option<&List<u8>>
        ensures { option_copied result ≡ stored_in self.now name.now }
    {
        find(&self.files, name)
    }

    /// Lets the read of that number fail. Reads count from 1, since the files were made.
    pub fn fail_read(&mut self, nth: u64) -> Result<(), Memory>
        ensures files { SameFiles self.old self.new }
        ensures ok { OnOk result (failing_reads self.new ≡ failing_reads self.old ++ nth ∷ []) }
        ensures err { OnErr result (failing_reads self.new ≡ failing_reads self.old) }
        ensures made { reads_made self.new ≡ reads_made self.old }
        ensures writes { SameWrites self.old self.new }
    {
        self.reads.fail(nth)
    }

    /// Lets the write of that number fail. Writes count from 1, since the files were made.
    pub fn fail_write(&mut self, nth: u64) -> Result<(), Memory>
        ensures files { SameFiles self.old self.new }
        ensures ok { OnOk result (failing_writes self.new ≡ failing_writes self.old ++ nth ∷ []) }
        ensures err { OnErr result (failing_writes self.new ≡ failing_writes self.old) }
        ensures made { writes_made self.new ≡ writes_made self.old }
        ensures reads { SameReads self.old self.new }
    {
        self.writes.fail(nth)
    }
}

// The bytes of the first file of that name.
fn find<'a>(files: &'a [StoredFile], name: &Text) -> Option<&'a List<u8>>
    ensures { option_copied result ≡ file_of files.now name.now }
{
    for file in files {
        if *name == file.name {
            return Some(&file.bytes);
        }
    }
    None
}

// Where the first file of that name stands.
fn place(files: &[StoredFile], name: &Text) -> Option<usize>
    ensures { result ≡ place_of files.now name.now }
{
    for (at, file) in files.iter().enumerate() {
        if *name == file.name {
            return Some(at);
        }
    }
    None
}

// Puts a file in place of the one of that name, or last.
fn put_in(files: &mut Vec<StoredFile>, name: Text, bytes: List<u8>) -> Result<(), (Text, List<u8>)>
    ensures ok { OnOk result (file_of files.new.items ≡ put (file_of files.old.items) name bytes) }
    ensures err { OnErr result (files.new.items ≡ files.old.items) }
    ensures back { IfErr result (λ b. b ≡ (name, bytes)) }
{
    match place(files, &name) {
        Some(at) => {
            files[at] = StoredFile { name, bytes };
            Ok(())
        }
        None => match files.push(StoredFile { name, bytes }) {
            Ok(()) => Ok(()),
            Err(failed) => {
                let StoredFile { name, bytes } = failed.value;
                Err((name, bytes))
            }
        },
    }
}

impl Files for MemoryFiles {
    ghost use Rattle.yarn_base.specs.MemoryFiles.{stored_in, read_faults_in, latest_fault_in, write_faults_in, reads_made, failing_reads, writes_made, failing_writes, SameReads, SameWrites};

    ghost contents = { λ m. Some (stored_in m) };

    ghost read_faults = { read_faults_in };

    ghost latest_fault = { latest_fault_in };

    ghost write_faults = { write_faults_in };

    /// Fails where its number was given to `fail_read`, or where there is no such file. A failing read may
    /// also answer `Memory`: its name is kept as that of the latest fault, and the copy takes memory.
    fn read(&mut self, alloc: Global, name: &Text, max: usize) -> Result<Vec<u8>, IoFault>
        requires { max ≤ 1073741824 }
        ensures bytes { IfOk result (λ v. GivesFile (Some (stored_in self.old)) name.now max v.items) }
        ensures bound { IfOk result (λ v. length v.items ≤ max + 1) }
        ensures same { Some (stored_in self.new) ≡ Some (stored_in self.old) }
        ensures cause { HasCause (read_faults_in self.old) (read_faults_in self.new) result }
        ensures named { IsErrOf result IoFault.Failed → latest_fault_in self.new ≡ Some name.now }
        ensures no_other { (IsErrOf result IoFault.Failed → ⊥) → latest_fault_in self.new ≡ latest_fault_in self.old }
        ensures memory_count { IsErrOf result IoFault.Memory → read_faults_in self.new ≡ read_faults_in self.old }
        ensures writes { write_faults_in self.new ≡ write_faults_in self.old }

        ensures counted { reads_made self.new ≡ one_more (reads_made self.old) }
        ensures failing { failing_reads self.new ≡ failing_reads self.old }
        ensures fails { IsToFail (failing_reads self.old) (reads_made self.old) → IsErr result }
        ensures why { IsErrOf result IoFault.Failed → IsToFail (failing_reads self.old) (reads_made self.old) ⊎ (stored_in self.old name.now ≡ None) }
        ensures fault { IsErrOf result IoFault.Failed → read_faults_in self.new ≡ one_more (read_faults_in self.old) }
        ensures no_fault { (IsErrOf result IoFault.Failed → ⊥) → read_faults_in self.new ≡ read_faults_in self.old }
        ensures same_writes { SameWrites self.old self.new }
    {
        let fails = self.reads.next_fails();
        let Ok(copy) = name.copy() else {
            return Err(IoFault::Memory);
        };
        match find(&self.files, name) {
            Some(bytes) if !fails => first_bytes(alloc, bytes.as_slice(), max + 1).map_err(
                |_| IoFault::Memory,
            ),
            _ => {
                self.read_faults = self.read_faults.saturating_add(1);
                self.latest_fault = Some(copy);
                Err(IoFault::Failed)
            }
        }
    }

    /// Fails exactly where its number was given to `fail_write`, and leaves the files then.
    fn write(&mut self, name: &Text, bytes: &List<u8>) -> Result<(), IoFault>
        ensures ok { OnOk result (HoldsAfter (Some (stored_in self.old)) (Some (stored_in self.new)) name.now bytes.now) }
        ensures memory { IsErrOf result IoFault.Memory → Some (stored_in self.new) ≡ Some (stored_in self.old) }
        ensures failed { IsErrOf result IoFault.Failed → ChangesOnly (Some (stored_in self.old)) (Some (stored_in self.new)) name.now }
        ensures cause { HasCause (write_faults_in self.old) (write_faults_in self.new) result }
        ensures latest { latest_fault_in self.new ≡ latest_fault_in self.old }
        ensures memory_count { IsErrOf result IoFault.Memory → write_faults_in self.new ≡ write_faults_in self.old }
        ensures reads { read_faults_in self.new ≡ read_faults_in self.old }

        ensures counted { writes_made self.new ≡ one_more (writes_made self.old) }
        ensures failing { failing_writes self.new ≡ failing_writes self.old }
        ensures fails { IsToFail (failing_writes self.old) (writes_made self.old) → IsErrOf result IoFault.Failed }
        ensures why { IsErrOf result IoFault.Failed → IsToFail (failing_writes self.old) (writes_made self.old) }
        ensures fault { IsErrOf result IoFault.Failed → write_faults_in self.new ≡ one_more (write_faults_in self.old) }
        ensures no_fault { (IsErrOf result IoFault.Failed → ⊥) → write_faults_in self.new ≡ write_faults_in self.old }
        ensures stays { IsErrOf result IoFault.Failed → stored_in self.new ≡ stored_in self.old }
        ensures same_reads { SameReads self.old self.new }
    {
        if self.writes.next_fails() {
            self.write_faults = self.write_faults.saturating_add(1);
            return Err(IoFault::Failed);
        }
        let (Ok(name), Ok(bytes)) = (name.copy(), bytes.copy()) else {
            return Err(IoFault::Memory);
        };
        put_in(&mut self.files, name, bytes).map_err(|_| IoFault::Memory)
    }
}

// The first bytes, at most `most` of them.
fn first_bytes(alloc: Global, bytes: &[u8], most: usize) -> Result<Vec<u8>, Memory>
    ensures { IfOk result (λ v. v.items ≡ take most bytes.now) }
{
    let most = most.min(bytes.len());
    Ok(Vec::from_slice(alloc, &bytes[..most])?)
}
