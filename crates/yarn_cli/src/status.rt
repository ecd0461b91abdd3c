//! How a command ends.
ghost use Rattle.std.specs.Prelude.{◌≡◌};
ghost use Rattle.yarn_cli.specs.Status.{code_of};

/// How a command ended (docs/commands.md, Statuses).
#[derive(Clone, Copy, Debug, PartialEq, Eq)]
pub enum Status {
    /// All went well.
    Done,
    /// The conversation faulted.
    RunFault,
    /// The project is refused.
    RefusedProject,
    /// The input ended at options that wait for a choice.
    WaitsChoice,
    /// The limit of events was reached.
    EventLimit,
    /// The words are no command.
    Usage,
    /// A read failed.
    ReadFault,
    /// A write failed.
    WriteFault,
    /// Want of memory.
    OutOfMemory,
    /// The variables file is refused.
    RefusedVars,
    /// The program file is refused.
    RefusedProgram,
    /// No node has the title to start from.
    UnknownStart,
}

impl Status {
    /// The number with which the program ends.
    pub fn code(&self) -> u8
        ensures { result ≡ code_of self.now }
    {
        match self {
            Status::Done => 0,
            Status::RunFault => 1,
            Status::RefusedProject => 2,
            Status::WaitsChoice => 3,
            Status::EventLimit => 4,
            Status::Usage => 5,
            Status::ReadFault => 6,
            Status::WriteFault => 7,
            Status::OutOfMemory => 8,
            Status::RefusedVars => 9,
            Status::RefusedProgram => 10,
            Status::UnknownStart => 12,
        }
    }
}
