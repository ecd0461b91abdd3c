//! The example of docs/guide-hosts.md.
ghost use Rattle.std.specs.Prelude.{true};

use crate::{Dice, HostFault, HostFunction, HostTable};
use std::alloc::Global;
use std::process::Abort;
use std::test::Fail;
use yarn_base::{List, Text};
use yarn_value::{Kind, Signature, Value};

/// `coins()`: how many coins the player has.
#[derive(Drop)]
struct Coins {
    gold: i64,
    asked: u64,
}

impl HostFunction for Coins {
    ghost use Rattle.yarn_host.specs.Meaning.{untold};

    ghost meaning = { λ coins. untold (λ args. true) 0 coins.asked };

    fn call(&mut self, _alloc: Global, _args: &List<Value>) -> Result<Value, HostFault> {
        self.asked = self.asked.saturating_add(1);
        Ok(Value::Number(self.gold))
    }
}

#[test]
fn a_game_adds_its_functions(rt: HostRuntime) -> Result<(), Fail> {
    let alloc = rt.alloc();
    let mut hosts = HostTable::new(alloc);

    let coins = Signature {
        name: Text::from_str(alloc, "coins")?,
        params: List::new(alloc),
        result: Kind::Number,
    };
    let purse = Coins { gold: 12, asked: 0 };
    assert!(rt; hosts.add(coins, Box::new(alloc, purse)?).is_ok());

    let dice = Signature {
        name: Text::from_str(alloc, "dice")?,
        params: List::from_vec(vec![in alloc; Kind::Number]?),
        result: Kind::Number,
    };
    assert!(rt; hosts.add(dice, Box::new(alloc, Dice::new(1))?).is_ok());

    let name = Text::from_str(alloc, "dice")?;
    let args = List::from_vec(vec![in alloc; Value::Number(1)]?);
    assert!(rt; hosts.takes(&name, &args));
    assert_eq!(rt; hosts.ask(alloc, &name, &args), Ok(Value::Number(1)));

    let name = Text::from_str(alloc, "coins")?;
    let args = List::new(alloc);
    assert!(rt; hosts.takes(&name, &args));
    assert_eq!(rt; hosts.ask(alloc, &name, &args), Ok(Value::Number(12)));

    assert_eq!(rt; hosts.tape().len(), 2);
    Ok(())
}
