//! One byte of a source.
ghost use Rattle.std.specs.Prelude.{◌≡◌, ◌≤◌};
ghost use Rattle.yarn_base.specs.Causes.{Rose};
ghost use Rattle.yarn_code.specs.Next.{IsNext};

use yarn_base::{Failed, Source};

/// What a source gives next.
#[derive(Clone, Copy, Debug, PartialEq, Eq)]
pub(crate) enum Next {
    Byte(u8),
    End,
    Failed,
}

/// Takes one byte, and nothing behind it.
pub(crate) fn next_byte<I: Source>(input: &mut I) -> Next
    ensures bytes { IsNext (I.left input.old) (I.left input.new) result }
    ensures count { I.faults input.old ≤ I.faults input.new }
    ensures failed { result ≡ Next.Failed → Rose (I.faults input.old) (I.faults input.new) }
{
    let mut byte = [0u8];
    match input.read(&mut byte) {
        Ok(0) => Next::End,
        Ok(_) => Next::Byte(byte[0]),
        Err(Failed) => Next::Failed,
    }
}
