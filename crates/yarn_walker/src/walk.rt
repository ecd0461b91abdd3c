//! The walk: one event after the other.
ghost use Rattle.std.specs.Prelude.{◌≡◌, [], Some, None, true, false, map, IfOk, IfSome, OnOk};
ghost use Rattle.yarn_tree.specs.Trees.{file_tree};
ghost use Rattle.yarn_blocks.specs.View.{options_of};
ghost use Rattle.yarn_meaning.specs.First.{find};
ghost use Rattle.yarn_walker.specs.Offers.{all_shown, AreOf};
ghost use Rattle.yarn_walker.specs.Frames.{rest_of};
ghost use Rattle.yarn_walker.specs.Titles.{placed, HasAll};
ghost use Rattle.yarn_meaning.specs.Does.{group_line};
ghost use Rattle.yarn_meaning.specs.Texts.{TellsAll, said_in, said_in_options};
ghost use Rattle.yarn_walker.specs.Walk.{files_of, is_asking, is_arrival, IsSound, StaysSound, Turns, Turned, TellsTurn, ToldSeat, WithTexts, IsChosen, Waits, Opens, within_node, with_group, jumping, leaving};

use crate::deed::{Deed, next_deed};
use crate::ends::FaultAt;
use crate::frames::Frames;
use crate::halt::Halt;
use crate::offer::{Offer, any_open};
use crate::stored::{count_name, count_under, store_value};
use crate::titles::{NodeAt, Titles};
use std::alloc::Global;
use std::mem;
use yarn_base::{List, Memory, Text};
use yarn_store::Store;
use yarn_tree::{LineText, OptionItem, Stmt};
use yarn_value::{RunFault, Value};

/// Where a walk stands.
#[derive(Drop)]
pub enum Seat<'p> {
    /// Before the node.
    Enters(NodeAt<'p>),
    /// In the node, before these statements.
    Within(NodeAt<'p>, Frames<'p>),
    /// In the node, at a group of options that is shown, with the statements behind it.
    Chooses(NodeAt<'p>, &'p [OptionItem], Frames<'p>),
    /// Behind the last node.
    Finishes,
    /// At a fault.
    Fails(FaultAt<'p>),
}

/// What a walk gives.
#[derive(Debug, Drop)]
pub enum Turn<'p> {
    /// The node of that title is entered.
    NodeStart(&'p Text),
    /// A line is said, with the values of its substitutions.
    Line(&'p LineText, List<Value>),
    /// A command is given out.
    Command(&'p LineText, List<Value>),
    /// The options of the walk are shown.
    Options,
    /// The node of that title is left.
    NodeEnd(&'p Text),
    /// The conversation is over.
    End,
    /// No event: the run faults.
    Faults(FaultAt<'p>),
}

/// A walk through the nodes of a project.
#[derive(Drop)]
pub struct Walk<'p> {
    pub(crate) titles: Titles<'p>,
    pub(crate) store: Store,
    pub(crate) seat: Seat<'p>,
    // the options that were shown last
    pub(crate) offers: Vec<Offer<'p>>,
}

impl<'p> Walk<'p> {
    /// A walk that begins with this node, which is one of the project's. The store has the variables of the project.
    pub fn new(
        alloc: Global,
        titles: Titles<'p>,
        start: &Text,
        node: NodeAt<'p>,
        store: Store,
    ) -> Walk<'p>
        requires titles { HasAll titles }
        requires there { find start.now (map file_tree titles.files.now) ≡ Some (placed node) }
        ensures seat { result.seat ≡ Seat.Enters node.entry }
        ensures store { result.store ≡ store }
        ensures titles { result.titles ≡ titles.entry }
        ensures sound { IsSound result }
    {
        let _ = start;
        Walk {
            titles,
            store,
            seat: Seat::Enters(node),
            offers: Vec::new(alloc),
        }
    }

    /// Whether an answer is needed before the walk goes on.
    pub fn asks(&self) -> bool
        requires { IsSound self.now }
        ensures asks { result ≡ is_asking self.now.seat }
        ensures waits { result ≡ true → Waits self.now }
    {
        match &self.seat {
            Seat::Chooses(..) => true,
            _ => false,
        }
    }

    /// The options that were shown last.
    pub fn offers(&self) -> &[Offer<'p>]
        ensures { result.now ≡ self.now.offers.items }
    {
        self.offers.as_slice()
    }

    /// Takes the number of an answer, and says whether it chooses an option. Where it doesn't, that is an event, and
    /// the walk asks again.
    pub fn choose(&mut self, number: u32) -> Result<bool, Memory>
        requires sound { IsSound self.old }
        requires asks { is_asking self.old.seat ≡ true }
        ensures meaning { IfOk result (λ chosen. IsChosen chosen number self.old self.new) }
        ensures goes_on { IfOk result (λ chosen. chosen ≡ true → is_asking self.new.seat ≡ false) }
        ensures sound { OnOk result (StaysSound self.old self.new) }
    {
        match mem::replace(&mut self.seat, Seat::Finishes) {
            Seat::Chooses(node, options, mut rest) => {
                match chosen_body(self.offers.as_slice(), options, number) {
                    Some(body) => {
                        rest.push(body)?;
                        self.seat = Seat::Within(node, rest);
                        Ok(true)
                    }
                    None => {
                        self.seat = Seat::Chooses(node, options, rest);
                        Ok(false)
                    }
                }
            }
            _ => unreachable!(),
        }
    }

    /// Gives exactly one event, or the fault that comes in its place.
    pub fn next(&mut self, alloc: Global) -> Result<Turn<'p>, Memory>
        requires sound { IsSound self.old }
        requires goes_on { is_asking self.old.seat ≡ false }
        ensures meaning { IfOk result (λ turn. Turns self.old turn self.new) }
        ensures texts { IfOk result (λ turn. TellsTurn self.old turn self.new) }
        ensures sound { OnOk result (StaysSound self.old self.new) }
    {
        match mem::replace(&mut self.seat, Seat::Finishes) {
            Seat::Enters(node) => {
                let body = node.node.body.as_slice();
                self.seat = Seat::Within(node, Frames::new(alloc, body));
                Ok(Turn::NodeStart(&node.node.title))
            }
            Seat::Within(node, rest) => self.statements(alloc, node, rest),
            Seat::Chooses(..) => unreachable!(),
            Seat::Finishes => Ok(Turn::End),
            Seat::Fails(fault) => Ok(Turn::Faults(fault)),
        }
    }

    /// Gives a line without substitutions, where one is the next event and its statement is at hand. Where none is
    /// given, the walk stays as it is, and `next` gives the event.
    pub fn next_plain(&mut self) -> Option<&'p LineText>
        requires { IsSound self.old }
        ensures meaning { IfSome result (λ text. Turns self.old (Turn.Line text []) self.new) }
        ensures texts { IfSome result (λ text. TellsTurn self.old (Turn.Line text []) self.new) }
        ensures sound { StaysSound self.old self.new }
        ensures none { result ≡ None → self.new ≡ self.old }
    {
        match &mut self.seat {
            Seat::Within(_, rest) => rest.take_plain(),
            _ => None,
        }
    }

    // Does the statements of a node up to the next event.
    fn statements(
        &mut self,
        alloc: Global,
        node: NodeAt<'p>,
        mut rest: Frames<'p>,
    ) -> Result<Turn<'p>, Memory>
        requires sound { IsSound self.old }
        requires told { WithTexts (files_of self.old) (λ table. TellsAll table (said_in (rest_of rest))) }
        ensures meaning { IfOk result (λ turn. Turned (within_node (files_of self.old) node.entry (rest_of rest.entry) self.old.store) turn self.new) }
        ensures texts { IfOk result (λ turn. TellsTurn self.old turn self.new) }
        ensures sound { OnOk result (StaysSound self.old self.new) }
    {
        match next_deed(alloc, &mut rest, &mut self.store) {
            Ok(Deed::Line(text, values)) => {
                self.seat = Seat::Within(node, rest);
                Ok(Turn::Line(text, values))
            }
            Ok(Deed::Command(text, values)) => {
                self.seat = Seat::Within(node, rest);
                Ok(Turn::Command(text, values))
            }
            Ok(Deed::Options(options, offers)) => Ok(self.show(node, options, offers, rest)),
            Ok(Deed::Through) => self.leave(alloc, node, node.node.end_line, Seat::Finishes),
            Ok(Deed::Stop(line)) => self.leave(alloc, node, line, Seat::Finishes),
            Ok(Deed::Jump(line, title)) => self.leave_to(alloc, node, line, title),
            Ok(Deed::JumpTo(line, title)) => self.leave_to(alloc, node, line, &title),
            Err(Halt::Fault(line, fault)) => Ok(Turn::Faults(node.fault(line, fault))),
            Err(Halt::Memory) => Err(Memory),
        }
    }

    // Shows a group; where none of its options can be chosen, the run faults behind that.
    fn show(
        &mut self,
        node: NodeAt<'p>,
        options: &'p [OptionItem],
        offers: Vec<Offer<'p>>,
        rest: Frames<'p>,
    ) -> Turn<'p>
        requires sound { IsSound self.old }
        requires group { AreOf (options_of options.now) offers.items }
        requires options_told { WithTexts (files_of self.old) (λ table. TellsAll table (said_in_options (options_of options.now))) }
        requires rest_told { WithTexts (files_of self.old) (λ table. TellsAll table (said_in (rest_of rest))) }
        ensures meaning { Turned (with_group (files_of self.old) node.entry options.now offers.entry.items (rest_of rest.entry) self.old.store) result self.new }
        ensures options { result ≡ Turn.Options }
        ensures offers { self.new.offers ≡ offers.entry }
        ensures sound { StaysSound self.old self.new }
    {
        let seat = if any_open(offers.as_slice()) {
            Seat::Chooses(node, options, rest)
        } else {
            Seat::Fails(node.fault(first_line(options), RunFault::NoOpenOption))
        };
        self.seat = seat;
        self.offers = offers;
        Turn::Options
    }

    // Leaves the node by a jump on that line to that title.
    fn leave_to(
        &mut self,
        alloc: Global,
        node: NodeAt<'p>,
        line: u32,
        title: &Text,
    ) -> Result<Turn<'p>, Memory>
        requires sound { IsSound self.old }
        ensures meaning { IfOk result (λ turn. Turned (jumping (files_of self.old) node.entry line title.now self.old.store) turn self.new) }
        ensures texts { IfOk result (λ turn. TellsTurn self.old turn self.new) }
        ensures sound { OnOk result (StaysSound self.old self.new) }
    {
        let next = match self.titles.find(title) {
            Some(next) => Seat::Enters(next),
            None => Seat::Fails(node.fault(line, RunFault::UnknownNode(title.copy()?))),
        };
        self.leave(alloc, node, line, next)
    }

    // Leaves the node on that line: its count rises, and the walk stands there.
    fn leave(
        &mut self,
        alloc: Global,
        node: NodeAt<'p>,
        line: u32,
        next: Seat<'p>,
    ) -> Result<Turn<'p>, Memory>
        requires sound { IsSound self.old }
        requires arrival { is_arrival next ≡ true }
        requires told { WithTexts (files_of self.old) (λ table. ToldSeat table next) }
        ensures meaning { IfOk result (λ turn. Turned (leaving (files_of self.old) node.entry line next.entry self.old.store) turn self.new) }
        ensures texts { IfOk result (λ turn. TellsTurn self.old turn self.new) }
        ensures sound { OnOk result (StaysSound self.old self.new) }
    {
        let title = &node.node.title;
        let name = count_name(alloc, title)?;
        let Some(count) = count_under(&self.store, &name).checked_add(1) else {
            return Ok(Turn::Faults(node.fault(line, RunFault::Overflow)));
        };
        store_value(&mut self.store, &name, Value::Number(count))?;
        self.seat = next;
        Ok(Turn::NodeEnd(title))
    }

    /// The variables, as they are now.
    pub fn into_store(self) -> Store
        ensures { result ≡ self.entry.store }
    {
        self.store
    }
}

// The line of a group's first option.
fn first_line(options: &[OptionItem]) -> u32
    ensures { result ≡ group_line (options_of options.now) }
{
    match options {
        [first, ..] => first.text.line,
        [] => 0,
    }
}

// The body of the option that an answer chooses, where it can be chosen. Options count from 1.
fn chosen_body<'p>(offers: &[Offer], options: &'p [OptionItem], number: u32) -> Option<&'p [Stmt]>
    requires { AreOf (options_of options.now) offers.now }
    ensures { Opens (all_shown offers.now) (options_of options.now) number result }
{
    let at = number.checked_sub(1)? as usize;
    if !offers.get(at)?.available {
        return None;
    }
    Some(options.get(at)?.body.as_slice())
}
