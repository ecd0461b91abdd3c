//! A die.
ghost use Rattle.std.specs.Prelude.{◌≡◌, ◌≤◌, ◌∷◌, ◌⊎◌, [], false, IfOk, OnErr, IsErrOf};
ghost use Rattle.yarn_base.specs.Calls.{one_more};
ghost use Rattle.yarn_base.specs.Causes.{Rose};
ghost use Rattle.rand_core.specs.Pcg32Seed.{pcg32_seed};
ghost use Rattle.rand_pcg.specs.Pcg.{pcg64_of_seed};
ghost use Rattle.yarn_host.specs.Known.{append_known, prepend_known};
ghost use Rattle.yarn_host.specs.Meaning.{untold};

use crate::{HostFault, HostFunction};
use rand_core::SeedableRng;
use rand_core::utils::NextWord;
use rand_pcg::Pcg64;
use std::alloc::Global;
use yarn_base::List;
use yarn_value::Value;

/// A die of any number of sides, which is asked with that number. It tells neither its replies nor the arguments that
/// came. The rule is docs/guide-hosts.md, "The functions of this crate".
#[derive(Debug, Drop)]
pub struct Dice {
    generator: Pcg64,
    faults: u64,
    asked: u64,
}

impl Dice {
    ghost use Rattle.yarn_host.specs.Dice.{die, generator_of, rolled, is_number_of_sides};

    /// A die whose generator is made of the seed, by `seed_from_u64` of `Pcg64`.
    pub fn new(seed: u64) -> Dice
        ensures generator { generator_of result ≡ pcg64_of_seed (pcg32_seed 32 seed) }
        ensures meaning { die result ≡ untold is_number_of_sides 0 0 }
    {
        Dice {
            generator: Pcg64::seed_from_u64(seed),
            faults: 0,
            asked: 0,
        }
    }

    /// A number from 1 to `n`: one more than what is left of the generator's next word over `n`. `None` exactly where `n`
    /// is below 1, and then no word is taken.
    pub fn roll(&mut self, n: i64) -> Option<i64>
        ensures value { result ≡ (rolled n (generator_of self.old)).0 }
        ensures generator { generator_of self.new ≡ (rolled n (generator_of self.old)).1 }
        ensures meaning { die self.new ≡ die self.old }
    {
        if n < 1 {
            return None;
        }
        let word = self.generator.next_word();
        Some(1 + (word % n as u64) as i64)
    }
}

impl HostFunction for Dice {
    ghost use Rattle.yarn_host.specs.Dice.{die};

    ghost meaning = { die };

    fn call(&mut self, _alloc: Global, args: &List<Value>) -> Result<Value, HostFault> {
        self.asked = self.asked.saturating_add(1);
        if let [Value::Number(n)] = args.as_slice() {
            if let Some(number) = self.roll(*n) {
                return Ok(Value::Number(number));
            }
        }
        self.faults = self.faults.saturating_add(1);
        Err(HostFault::Failed)
    }
}
