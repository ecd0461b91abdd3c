//! The worked cases: what a table refuses, its tape, and the words of the dice.
ghost use Rattle.std.specs.Prelude.{◌≡◌, ◌≤◌, length, IfOk};

use crate::{AddFault, AskFault, Dice, HostFunction, HostTable, RandomRange, Scripted, Table};
use std::alloc::Global;
use std::process::Abort;
use std::test::Fail;
use yarn_base::{List, Memory, Text};
use yarn_value::{Kind, Signature, Value};

// A function of that name that takes nothing and replies a number.
fn function_named(name: Text, alloc: Global) -> Signature
    ensures { length result.params ≤ 16 }
{
    Signature {
        name,
        params: List::new(alloc),
        result: Kind::Number,
    }
}

fn roll(alloc: Global) -> Result<Signature, Memory>
    ensures { IfOk result (λ signature. length signature.params ≤ 16) }
{
    let name = Text::from_str(alloc, "roll")?;
    Ok(function_named(name, alloc))
}

fn numbered(alloc: Global, number: u32) -> Result<Signature, Memory>
    ensures { IfOk result (λ signature. length signature.params ≤ 16) }
{
    let name = format!(in alloc; "f{number}")?;
    let name = Text::from_str(alloc, name.as_str())?;
    Ok(function_named(name, alloc))
}

// How a run of asks of `roll` ended, and how many replies are on the tape.
fn ask_roll<B: HostFunction>(
    alloc: Global,
    hosts: &mut Table<B>,
) -> Result<Result<Value, AskFault>, Memory> {
    let name = Text::from_str(alloc, "roll")?;
    let args = List::new(alloc);
    if !hosts.takes(&name, &args) {
        return Err(Memory);
    }
    Ok(hosts.ask(alloc, &name, &args))
}

#[test]
fn a_second_roll_is_handed_back(rt: HostRuntime) -> Result<(), Fail> {
    let alloc = rt.alloc();
    let mut hosts = HostTable::new(alloc);
    let first = hosts.add(roll(alloc)?, Box::new(alloc, Dice::new(7))?);
    assert!(rt; first.is_ok());
    match hosts.add(roll(alloc)?, Box::new(alloc, RandomRange::new(7))?) {
        Err((signature, _, fault)) => {
            assert_eq!(rt; signature.name.as_str(), "roll");
            assert_eq!(rt; fault, AddFault::DuplicateFunction);
        }
        Ok(()) => panic!(rt; "a second roll was taken"),
    }
    assert_eq!(rt; hosts.signatures().len(), 1);
    Ok(())
}

#[test]
fn reserved_names_are_refused(rt: HostRuntime) -> Result<(), Fail> {
    let alloc = rt.alloc();
    let mut hosts = Table::new(alloc);
    for name in ["", "1st", "two words", "and", "true", "visited", "string"] {
        let signature = function_named(Text::from_str(alloc, name)?, alloc);
        match hosts.add(signature, Dice::new(1)) {
            Err((_, _, fault)) => { assert_eq!(rt; fault, AddFault::ReservedFunction, "at {name}") }
            Ok(()) => panic!(rt; "{name} was taken"),
        }
    }
    Ok(())
}

#[test]
fn a_table_has_room_for_256_functions(rt: HostRuntime) -> Result<(), Fail> {
    let alloc = rt.alloc();
    let mut hosts = Table::new(alloc);
    for number in 0..256u32 {
        let added = hosts.add(numbered(alloc, number)?, Dice::new(1));
        assert!(rt; added.is_ok(), "at {number}");
    }
    match hosts.add(numbered(alloc, 256)?, Dice::new(1)) {
        Err((_, _, fault)) => assert_eq!(rt; fault, AddFault::TooManyFunctions),
        Ok(()) => panic!(rt; "one more was taken"),
    }
    Ok(())
}

#[test]
fn a_script_replies_in_order_and_ends(rt: HostRuntime) -> Result<(), Fail> {
    let alloc = rt.alloc();
    let word = Value::Str(Text::from_str(alloc, "x")?);
    let replies = List::from_vec(vec![in alloc; Value::Number(4), word]?);
    let mut script = Scripted::new(alloc, replies);
    script.fail(2)?;
    let mut hosts = Table::new(alloc);
    assert!(rt; hosts.add(roll(alloc)?, script).is_ok());
    assert!(rt; hosts.is_fresh());
    assert_eq!(rt; ask_roll(alloc, &mut hosts)?, Ok(Value::Number(4)));
    assert_eq!(rt; ask_roll(alloc, &mut hosts)?, Err(AskFault::Failed));
    assert_eq!(rt; hosts.tape().len(), 1);
    let wrong = AskFault::WrongType(Value::Str(Text::from_str(alloc, "x")?));
    assert_eq!(rt; ask_roll(alloc, &mut hosts)?, Err(wrong));
    assert_eq!(rt; ask_roll(alloc, &mut hosts)?, Err(AskFault::Failed));
    assert_eq!(rt; hosts.tape().len(), 2);
    Ok(())
}

// The first six words of PCG64 (XSL RR 128/64) for seed 1, whose 32 bytes of seed are words of PCG32 (XSH RR) from 1:
// 0xd701f5c824062d47, 0x046daf9b8abaaf57, 0x1d28a998490db5a0, 0xfba6edc5ac33e7d3, 0xe36ddf87ec7c20f0,
// 0x79d1509c1daf7308. They were computed apart, in Python, from the algorithm that O'Neill published; that program gives
// the generator's published words for its state 42 and stream 54.
#[test]
fn dice_roll_the_words_of_their_generator(rt: HostRuntime) -> Result<(), Fail> {
    let mut dice = Dice::new(1);
    assert_eq!(rt; dice.roll(0), None);
    for want in [4, 4, 5, 2, 1, 3] {
        assert_eq!(rt; dice.roll(6), Some(want));
    }
    let mut short = RandomRange::new(1);
    assert_eq!(rt; short.pick(1, 0), None);
    for want in [-3, 4, -5, 5, -4, 0] {
        assert_eq!(rt; short.pick(-5, 5), Some(want));
    }
    let mut whole = RandomRange::new(1);
    for want in [
        6269562396223089991,
        -8904267805659320489,
        -7122256339160681056,
        8910070346052528083,
    ] {
        assert_eq!(rt; whole.pick(i64::MIN, i64::MAX), Some(want));
    }
    Ok(())
}
