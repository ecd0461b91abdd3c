//! Plays a walk.
ghost use Rattle.std.specs.Prelude.{◌≡◌, ◌≤◌, true, false, IfOk, IfSome, OnOk, IsErrOf};
ghost use Rattle.std.specs.Io.KnownBytes.{append_known};
ghost use Rattle.yarn_base.specs.Causes.{Rose, HasCause};
ghost use Rattle.yarn_base.specs.Outside.{WritesPart};
ghost use Rattle.yarn_player.specs.Played.{first_from, IsPlayed, Writes, WritesSome, TakesFront};
ghost use Rattle.yarn_player.specs.Steps.{spot, Steps, Shows, NoAnswer, Answer, IsCause};
ghost use Rattle.yarn_walker.specs.Walk.{is_asking, IsSound, StaysSound};

use crate::ends::{PlayEnd, PlayFault, Played};
use crate::page::Page;
use std::alloc::Global;
use yarn_base::{Failed, IoFault, List, Memory, Sink, Source};
use yarn_code::take_answer;
use yarn_walker::{Turn, Walk};

impl From<Memory> for PlayFault {
    ghost use Rattle.yarn_player.specs.declared.ends.PlayFault.TheVariants as fault;

    ghost from_gives = { λ _ e. e ≡ fault.Memory };

    fn from(_: Memory) -> PlayFault {
        PlayFault::Memory
    }
}

// The fault of a write.
impl From<IoFault> for PlayFault {
    ghost use Rattle.yarn_player.specs.Steps.{fault_of_write};

    ghost from_gives = { λ fault e. e ≡ fault_of_write fault };

    fn from(fault: IoFault) -> PlayFault {
        match fault {
            IoFault::Failed => PlayFault::OutputFailed,
            IoFault::Memory => PlayFault::Memory,
        }
    }
}

/// Plays a walk, and writes the transcript of its first `limit` events (docs/language.md, The meaning, The transcript).
/// Answers are taken from the input where a group of options waits; what was shown is handed over before that. The
/// result says where the run stands then, and has the variables.
///
/// After a fault a front of the transcript is written, and a front of the input is taken.
pub fn play<'p, I: Source, O: Sink>(
    alloc: Global,
    walk: Walk<'p>,
    limit: u64,
    input: &mut I,
    out: &mut O,
) -> Result<Played<'p>, PlayFault>
    requires sound { IsSound walk }
    requires limit { 1 ≤ limit }
    ensures played { IfSome (I.left input.old) (λ bytes. IfOk result (λ played. IsPlayed (first_from walk.entry bytes limit) played (I.left input.new))) }
    ensures written { IfSome (I.left input.old) (λ bytes. OnOk result (Writes walk.entry (first_from walk.entry bytes limit) (O.written out.old) (O.written out.new))) }
    ensures part { IfSome (I.left input.old) (λ bytes. WritesSome walk.entry (first_from walk.entry bytes limit) (O.written out.old) (O.written out.new)) }
    ensures taken { TakesFront (I.left input.old) (I.left input.new) }
    ensures input_failed { IsErrOf result PlayFault.InputFailed → Rose (I.faults input.old) (I.faults input.new) }
    ensures output_failed { IsErrOf result PlayFault.OutputFailed → Rose (O.faults out.old) (O.faults out.new) }
    ensures input_count { I.faults input.old ≤ I.faults input.new }
    ensures output_count { O.faults out.old ≤ O.faults out.new }
{
    let mut walk = walk;
    let mut page = Page::new(alloc);
    for _ in 0..limit {
        let end = step(alloc, &mut walk, &mut page, input, out)?;
        if let Some(end) = end {
            return Ok(finish(walk, page, end, out)?);
        }
        page.turn_full(out)?;
    }
    Ok(finish(walk, page, PlayEnd::Limit, out)?)
}

// Hands over what is kept, and says where the run stands.
fn finish<'p, O: Sink>(
    walk: Walk<'p>,
    page: Page,
    end: PlayEnd<'p>,
    out: &mut O,
) -> Result<Played<'p>, IoFault>
    ensures end { IfOk result (λ played. played.end ≡ end.entry) }
    ensures store { IfOk result (λ played. played.store ≡ walk.entry.store) }
    ensures ok { OnOk result (O.written out.new ≡ append_known (O.written out.old) page.bytes.items) }
    ensures part { WritesPart (O.written out.old) (O.written out.new) page.bytes.items }
    ensures cause { HasCause (O.faults out.old) (O.faults out.new) result }
{
    let mut last = page;
    last.turn(out)?;
    let store = walk.into_store();
    Ok(Played { end, store })
}

// Gives one event, or says where the run stands. What is kept is handed over before an answer is taken.
fn step<'p, I: Source, O: Sink>(
    alloc: Global,
    walk: &mut Walk<'p>,
    page: &mut Page,
    input: &mut I,
    out: &mut O,
) -> Result<Option<PlayEnd<'p>>, PlayFault>
    requires { IsSound walk.old }
    ensures steps { IfOk result (λ end. Steps
        (spot walk.old (I.left input.old) (O.written out.old) (O.faults out.old) page.old.bytes.items)
        (spot walk.new (I.left input.new) (O.written out.new) (O.faults out.new) page.new.bytes.items) end) }
    ensures sound { OnOk result (StaysSound walk.old walk.new) }
    ensures handed { is_asking walk.old.seat ≡ true → OnOk result (O.written out.new ≡ append_known (O.written out.old) page.old.bytes.items) }
    ensures part { WritesPart (O.written out.old) (O.written out.new) page.old.bytes.items }
    ensures taken { TakesFront (I.left input.old) (I.left input.new) }
    ensures input { IsCause PlayFault.InputFailed (I.faults input.old) (I.faults input.new) result }
    ensures output { IsCause PlayFault.OutputFailed (O.faults out.old) (O.faults out.new) result }
{
    if !walk.asks() {
        return Ok(show(alloc, walk, page)?);
    }
    page.turn(out)?;
    match take_answer(input) {
        Ok(None) => Ok(Some(PlayEnd::Waits)),
        Ok(Some(number)) => Ok(answer(alloc, walk, page, number)?),
        Err(Failed) => Err(PlayFault::InputFailed),
    }
}

// Gives the event that comes where that number is answered.
#[inline(never)]
fn answer<'p>(
    alloc: Global,
    walk: &mut Walk<'p>,
    page: &mut Page,
    number: u32,
) -> Result<Option<PlayEnd<'p>>, Memory>
    requires sound { IsSound walk.old }
    requires asks { is_asking walk.old.seat ≡ true }
    ensures shows { IfOk result (λ end. Shows (Answer number) walk.old page.old.bytes.items end walk.new page.new.bytes.items) }
    ensures sound { OnOk result (StaysSound walk.old walk.new) }
{
    if !walk.choose(number)? {
        page.rejected()?;
        return Ok(None);
    }
    show(alloc, walk, page)
}

// Gives one event of a walk that doesn't ask. Most are lines without substitutions, which take a short way.
fn show<'p>(
    alloc: Global,
    walk: &mut Walk<'p>,
    page: &mut Page,
) -> Result<Option<PlayEnd<'p>>, Memory>
    requires sound { IsSound walk.old }
    requires goes_on { is_asking walk.old.seat ≡ false }
    ensures shows { IfOk result (λ end. Shows NoAnswer walk.old page.old.bytes.items end walk.new page.new.bytes.items) }
    ensures sound { OnOk result (StaysSound walk.old walk.new) }
{
    match walk.next_plain() {
        Some(text) => {
            page.line(alloc, &text.text, &List::new(alloc))?;
            Ok(None)
        }
        None => show_turn(alloc, walk, page),
    }
}

// The same, whatever the event is.
#[inline(never)]
fn show_turn<'p>(
    alloc: Global,
    walk: &mut Walk<'p>,
    page: &mut Page,
) -> Result<Option<PlayEnd<'p>>, Memory>
    requires sound { IsSound walk.old }
    requires goes_on { is_asking walk.old.seat ≡ false }
    ensures shows { IfOk result (λ end. Shows NoAnswer walk.old page.old.bytes.items end walk.new page.new.bytes.items) }
    ensures sound { OnOk result (StaysSound walk.old walk.new) }
{
    match walk.next(alloc)? {
        Turn::NodeStart(_) | Turn::NodeEnd(_) => {}
        Turn::Line(text, values) => page.line(alloc, &text.text, &values)?,
        Turn::Command(text, values) => page.command(alloc, &text.text, &values)?,
        Turn::Options => page.options(alloc, walk.offers())?,
        Turn::End => return Ok(Some(PlayEnd::Ended)),
        Turn::Faults(fault) => return Ok(Some(PlayEnd::Faults(fault))),
    }
    Ok(None)
}
