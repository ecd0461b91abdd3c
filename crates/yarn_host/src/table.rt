//! The table of host functions, and the tape of their replies. The rules are docs/guide-hosts.md, "The table" and
//! "Asking".
ghost use Rattle.std.specs.Prelude.{◌≡◌, ◌≤◌, ◌↔◌, length, [], true, IsTrue, IfErr, OnOk, OnErr, Some, None};
ghost use Rattle.yarn_value.specs.Signatures.{signature_named};
ghost use Rattle.yarn_host.specs.Asks.{Asked};
ghost use Rattle.yarn_host.specs.Names.{takes, place_of, IsCallable, are_proper};
ghost use Rattle.yarn_host.specs.Adds.{refusal_of, with_function, IsAnswer};
ghost use Rattle.yarn_host.specs.Tape.{TapeTells, added_by, course_by};

use crate::calls::call_in;
use crate::names::{has, has_params, is_free, place};
use crate::replies::{judged, note, reply_kind};
use crate::values::copy_values;
use crate::{HostFault, HostFunction};
use std::alloc::Global;
use yarn_base::{List, Text};
use yarn_value::{Reply, Signature, Signatures, Value};

/// Why a table gave no reply.
#[derive(Debug, Drop, PartialEq, Eq)]
pub enum AskFault {
    /// The function failed.
    Failed,
    /// Its reply has another kind than its signature says, or is a text over 65,536 bytes.
    WrongType(Value),
    Memory,
}

/// Why a table took no function.
#[derive(Clone, Copy, Debug, PartialEq, Eq)]
pub enum AddFault {
    /// The name is no name, or a word of expressions or a builtin has it.
    ReservedFunction,
    /// A function of the table has it.
    DuplicateFunction,
    /// The table has 256 functions.
    TooManyFunctions,
    Memory,
}

/// Host functions under their signatures, in the order in which they were added, and the tape of their replies. The rule
/// is docs/guide-hosts.md, "The table".
#[derive(Drop)]
pub struct Table<B> {
    signatures: Signatures,
    functions: Vec<B>,
    tape: List<Reply>,
    ghost paired: { length signatures ≡ length functions.items },
    ghost proper: { are_proper signatures ≡ true },
}

impl<B: HostFunction> Table<B> {
    ghost use Rattle.yarn_host.specs.Table.{hosts_of};

    /// No functions, and an empty tape. It takes no memory.
    pub fn new(alloc: Global) -> Table<B>
        ensures { hosts_of B.meaning result ≡ record { signatures = []; meanings = []; tape = [] } }
    {
        Table {
            signatures: List::new(alloc),
            functions: Vec::new(alloc),
            tape: List::new(alloc),
        }
    }

    /// The signatures, in the order in which the functions were added. They are proper.
    pub fn signatures(&self) -> &Signatures
        ensures value { result.now ≡ (hosts_of B.meaning self.now).signatures }
        ensures proper { are_proper result.now ≡ true }
    {
        &self.signatures
    }

    /// The replies since the table was made, in their order.
    pub fn tape(&self) -> &List<Reply>
        ensures { result.now ≡ (hosts_of B.meaning self.now).tape }
    {
        &self.tape
    }

    /// Whether no reply is on the tape.
    pub fn is_fresh(&self) -> bool
        ensures { IsTrue result ↔ ((hosts_of B.meaning self.now).tape ≡ []) }
    {
        self.tape.is_empty()
    }

    /// Puts a function last. Condition: it has at most 16 parameters. An `Err` hands both back and leaves the table; it is
    /// the first that applies of `ReservedFunction`, `DuplicateFunction` and `TooManyFunctions`, or `Memory`. The rule is
    /// docs/guide-hosts.md, "Adding a function".
    pub fn add(&mut self, signature: Signature, function: B) -> Result<(), (Signature, B, AddFault)>
        requires { length signature.params ≤ 16 }
        ensures ok { OnOk result (hosts_of B.meaning self.new ≡ with_function (hosts_of B.meaning self.old) signature (B.meaning function)) }
        ensures err { OnErr result (hosts_of B.meaning self.new ≡ hosts_of B.meaning self.old) }
        ensures handed_back { IfErr result (λ back. (back.0 ≡ signature) × (back.1 ≡ function)) }
        ensures refused { IsAnswer (refusal_of (hosts_of B.meaning self.old).signatures signature.name) result }
    {
        match refusal(&self.signatures, &signature.name) {
            Some(fault) => Err((signature, function, fault)),
            None => self.put(signature, function),
        }
    }

    // Puts a function last that isn't refused.
    fn put(&mut self, signature: Signature, function: B) -> Result<(), (Signature, B, AddFault)>
        requires few { length signature.params ≤ 16 }
        requires allowed { refusal_of (hosts_of B.meaning self.old).signatures signature.name ≡ None }
        ensures ok { OnOk result (hosts_of B.meaning self.new ≡ with_function (hosts_of B.meaning self.old) signature (B.meaning function)) }
        ensures err { OnErr result (hosts_of B.meaning self.new ≡ hosts_of B.meaning self.old) }
        ensures handed_back { IfErr result (λ back. (back.0 ≡ signature) × (back.1 ≡ function) × (back.2 ≡ AddFault.Memory)) }
    {
        if let Err(failed) = self.functions.push(function) {
            return Err((signature, failed.value, AddFault::Memory));
        }
        if let Err(signature) = self.signatures.push(signature) {
            let function = self.functions.pop().unwrap();
            return Err((signature, function, AddFault::Memory));
        }
        Ok(())
    }

    /// Whether the table has a function with that name that takes these arguments: what `ask` wants to be so.
    pub fn takes(&self, name: &Text, args: &List<Value>) -> bool
        ensures { result ≡ takes (signature_named (hosts_of B.meaning self.now).signatures name.now) args.now }
    {
        has_params(&self.signatures, name, args.as_slice())
    }

    /// Asks the function with that name, and no other, once, with these arguments. The name, the arguments and its reply
    /// come last on the tape. Condition: the table has the function, and it takes these arguments, as `takes` says.
    ///
    /// `Failed` comes only where the function's count of faults rose and it doesn't accept the arguments; the tape stays.
    /// `WrongType` comes exactly where the reply isn't one that its signature allows; the reply is on the tape. At
    /// `Memory` the function was asked at most once, a reply that it gave is lost, and the tape stays. The rule is
    /// docs/guide-hosts.md, "Asking".
    pub fn ask(&mut self, alloc: Global, name: &Text, args: &List<Value>) -> Result<Value, AskFault>
        requires { IsCallable (hosts_of B.meaning self.old).signatures name.now args.now }
        ensures asked { Asked (hosts_of B.meaning self.old) (hosts_of B.meaning self.new) name.now args.now result }
        ensures tells { TapeTells (hosts_of B.meaning self.old) (hosts_of B.meaning self.new) (added_by name.now args.now result) (course_by name.now args.now result) }
    {
        let at = place(&self.signatures, name);
        self.ask_at(alloc, at, name, args)
    }

    // Asks the function at the place of that name.
    fn ask_at(
        &mut self,
        alloc: Global,
        at: usize,
        name: &Text,
        args: &List<Value>,
    ) -> Result<Value, AskFault>
        requires { place_of (hosts_of B.meaning self.old).signatures name.now ≡ Some at }
        ensures { Asked (hosts_of B.meaning self.old) (hosts_of B.meaning self.new) name.now args.now result }
    {
        let Ok(kept_name) = name.copy() else {
            return Err(AskFault::Memory);
        };
        let Ok(kept_args) = copy_values(alloc, args) else {
            return Err(AskFault::Memory);
        };
        let kind = reply_kind(&self.signatures, at);
        match call_in(&mut self.functions, at, alloc, args) {
            Ok(value) => match note(&mut self.tape, kept_name, kept_args, value) {
                Ok(value) => judged(value, kind),
                Err(_) => Err(AskFault::Memory),
            },
            Err(HostFault::Failed) => Err(AskFault::Failed),
            Err(HostFault::Memory) => Err(AskFault::Memory),
        }
    }
}

// Why a table with these signatures refuses a function with that name.
fn refusal(signatures: &Signatures, name: &Text) -> Option<AddFault>
    ensures { result ≡ refusal_of signatures.now name.now }
{
    if !is_free(name) {
        Some(AddFault::ReservedFunction)
    } else if has(signatures, name) {
        Some(AddFault::DuplicateFunction)
    } else if signatures.len() >= 256 {
        Some(AddFault::TooManyFunctions)
    } else {
        None
    }
}
