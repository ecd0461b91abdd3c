//! What is shown, collected into pages.
ghost use Rattle.std.specs.Prelude.{◌≡◌, ◌++◌, ◌≤◌, [], codes, map, All, OnOk};
ghost use Rattle.std.specs.Io.KnownBytes.{append_known};
ghost use Rattle.yarn_base.specs.Causes.{HasCause};
ghost use Rattle.yarn_base.specs.Outside.{WritesPart};
ghost use Rattle.yarn_base.proofs.Written.{IsWritten};
ghost use Rattle.yarn_meaning.specs.Filled.{filled};
ghost use Rattle.yarn_player.specs.Shown.{offers_text};
ghost use Rattle.yarn_player.specs.Transcript.{ended, option_text};

use crate::filled::push_filled;
use std::alloc::Global;
use yarn_base::{IoFault, List, Memory, Sink, Text, write_all};
use yarn_tree::LineText;
use yarn_value::Value;
use yarn_walker::Offer;

const PAGE_BYTES: usize = 65536;

/// Bytes that are collected before they are handed over.
#[derive(Drop)]
pub(crate) struct Page {
    bytes: Vec<u8>,
}

impl Page {
    pub fn new(alloc: Global) -> Page
        ensures { result.bytes.items ≡ [] }
    {
        Page {
            bytes: Vec::new(alloc),
        }
    }

    /// Takes a line with its values put in.
    pub fn line(&mut self, alloc: Global, text: &Text, values: &List<Value>) -> Result<(), Memory>
        ensures { OnOk result (self.new.bytes.items ≡ self.old.bytes.items ++ ended (filled text.now values.now)) }
    {
        push_filled(alloc, &mut self.bytes, text, values)?;
        self.bytes.push(b'\n')?;
        Ok(())
    }

    /// Takes a command.
    pub fn command(
        &mut self,
        alloc: Global,
        text: &Text,
        values: &List<Value>,
    ) -> Result<(), Memory>
        ensures { OnOk result (self.new.bytes.items ≡ self.old.bytes.items ++ ended (codes "<<" ++ (filled text.now values.now ++ codes ">>"))) }
    {
        self.bytes.extend_from_slice(b"<<")?;
        push_filled(alloc, &mut self.bytes, text, values)?;
        self.bytes.extend_from_slice(b">>\n")?;
        Ok(())
    }

    /// Takes the options of a group, which count from 1.
    pub fn options(&mut self, alloc: Global, offers: &[Offer]) -> Result<(), Memory>
        ensures { OnOk result (self.new.bytes.items ≡ self.old.bytes.items ++ offers_text 1 offers.now) }
    {
        let mut number = 1u32;
        for offer in offers {
            self.option(alloc, number, offer)?;
            number = number.checked_add(1).ok_or(Memory)?;
        }
        Ok(())
    }

    fn option(&mut self, alloc: Global, number: u32, offer: &Offer) -> Result<(), Memory>
        ensures { OnOk result (self.new.bytes.items
            ≡ self.old.bytes.items ++ option_text number offer.now.available (filled offer.now.text.now.text offer.now.values)) }
    {
        let start = format!(in alloc; "{number}) ")?;
        self.bytes.extend_from_slice(start.as_bytes())?;
        if !offer.available {
            self.bytes.extend_from_slice(b"[closed] ")?;
        }
        self.line(alloc, &offer.text.text, &offer.values)
    }

    /// Takes the answer to a number that chooses no option.
    pub fn rejected(&mut self) -> Result<(), Memory>
        ensures { OnOk result (self.new.bytes.items ≡ self.old.bytes.items ++ ended (codes "(no such choice)")) }
    {
        self.bytes.extend_from_slice(b"(no such choice)\n")?;
        Ok(())
    }

    /// Hands the page over where it is full.
    pub fn turn_full<O: Sink>(&mut self, out: &mut O) -> Result<(), IoFault>
        ensures ok { OnOk result (IsWritten (O.written out.old) (O.written out.new) (O.faults out.old) (O.faults out.new) self.old.bytes.items self.new.bytes.items) }
        ensures part { WritesPart (O.written out.old) (O.written out.new) self.old.bytes.items }
        ensures cause { HasCause (O.faults out.old) (O.faults out.new) result }
    {
        if self.bytes.len() >= PAGE_BYTES {
            self.turn(out)?;
        }
        Ok(())
    }

    /// Hands the page over; it is empty then.
    pub fn turn<O: Sink>(&mut self, out: &mut O) -> Result<(), IoFault>
        ensures ok { OnOk result (O.written out.new ≡ append_known (O.written out.old) self.old.bytes.items) }
        ensures empty { OnOk result (self.new.bytes.items ≡ []) }
        ensures part { WritesPart (O.written out.old) (O.written out.new) self.old.bytes.items }
        ensures cause { HasCause (O.faults out.old) (O.faults out.new) result }
    {
        write_all(out, self.bytes.as_slice())?;
        self.bytes.clear();
        Ok(())
    }
}
