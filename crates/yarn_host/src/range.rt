//! A number of a range.
ghost use Rattle.std.specs.Prelude.{◌≡◌, ◌≤◌, ◌+◌, ◌%◌, ◌+ℤ◌, ◌≤ℤ◌, pos};
ghost use Rattle.rand_core.specs.Pcg32Seed.{pcg32_seed};
ghost use Rattle.rand_pcg.specs.Pcg.{pcg64_of_seed};
ghost use Rattle.yarn_host.specs.Meaning.{untold};
ghost use Rattle.yarn_host.specs.Ranges.{width_of};

use crate::{HostFault, HostFunction};
use rand_core::SeedableRng;
use rand_core::utils::NextWord;
use rand_pcg::Pcg64;
use std::alloc::Global;
use yarn_base::List;
use yarn_value::Value;

/// Gives a number of a range, and is asked with the first and the last. It tells neither its replies nor the arguments
/// that came. The rule is docs/guide-hosts.md, "The functions of this crate".
#[derive(Debug, Drop)]
pub struct RandomRange {
    generator: Pcg64,
    faults: u64,
    asked: u64,
}

impl RandomRange {
    ghost use Rattle.yarn_host.specs.RandomRange.{random_range, range_generator, picked, is_range};

    /// One whose generator is made of the seed, by `seed_from_u64` of `Pcg64`.
    pub fn new(seed: u64) -> RandomRange
        ensures meaning { random_range result ≡ untold is_range 0 0 }
        ensures generator { range_generator result ≡ pcg64_of_seed (pcg32_seed 32 seed) }
    {
        RandomRange {
            generator: Pcg64::seed_from_u64(seed),
            faults: 0,
            asked: 0,
        }
    }

    /// A number from `a` to `b`: `a` and what is left of the generator's next word over `b - a + 1`. `None` exactly where
    /// `a` is above `b`, and then no word is taken.
    pub fn pick(&mut self, a: i64, b: i64) -> Option<i64>
        ensures value { result ≡ (picked a b (range_generator self.old)).0 }
        ensures generator { range_generator self.new ≡ (picked a b (range_generator self.old)).1 }
        ensures meaning { random_range self.new ≡ random_range self.old }
    {
        if a > b {
            return None;
        }
        let word = self.generator.next_word();
        Some(above(a, b, word))
    }
}

impl HostFunction for RandomRange {
    ghost use Rattle.yarn_host.specs.RandomRange.{random_range};

    ghost meaning = { random_range };

    fn call(&mut self, _alloc: Global, args: &List<Value>) -> Result<Value, HostFault> {
        self.asked = self.asked.saturating_add(1);
        if let [Value::Number(a), Value::Number(b)] = args.as_slice() {
            if let Some(number) = self.pick(*a, *b) {
                return Ok(Value::Number(number));
            }
        }
        self.faults = self.faults.saturating_add(1);
        Err(HostFault::Failed)
    }
}

// What is left of a word over the number of numbers from 0 to `last`.
fn within(word: u64, last: u64) -> u64
    ensures value { result ≡ word % (last + 1) }
    ensures bound { result ≤ last }
{
    if last == u64::MAX {
        word
    } else {
        word % (last + 1)
    }
}

// The number from `a` to `b` that a word stands for.
fn above(a: i64, b: i64, word: u64) -> i64
    requires { a ≤ℤ b }
    ensures { result ≡ a +ℤ pos (word % width_of a b) }
{
    let rest = within(word, b.abs_diff(a));
    (a as i128 + rest as i128) as i64
}
