//! The store: pairs of a variable and its value, in the order in which the variables came.
ghost use Rattle.std.specs.Prelude.{◌≡◌, ◌<◌, [], length, take, slice_get, map, Some, None, IsSome, IfOk, IfErr, OnOk, OnErr};
ghost use Rattle.std.specs.Option.{option_copied, option_map};
ghost use Rattle.yarn_store.specs.Pairs.{IsPair, IsStore};
ghost use Rattle.yarn_value.specs.Pairs.{value_under, put};
ghost use Rattle.yarn_value.specs.Values.{IsShort};

use indexmap::IndexMap;
use std::alloc::Global;
use std::marker::Model;
use std::mem;
use yarn_base::{Memory, Text};
use yarn_value::Value;

/// Variables with their values, in the order in which the variables came.
///
/// Contracts see the list of pairs. No two pairs have one name, each name is a variable of fewer than
/// 4,294,967,296 bytes, and a text has at most 65,536 bytes. A look-up takes the same time however many
/// pairs there are.
#[derive(Debug, Drop)]
pub struct Store {
    pairs: IndexMap<Text, Value>,
}

impl Model for Store {
    ghost use Rattle.std.specs.Prelude.{List, All};
    ghost use Rattle.yarn_value.specs.Pairs.{Pair};
    ghost use Rattle.yarn_store.specs.Pairs.{IsPair};

    ghost Value = { List Pair };

    ghost view = { λ s. s.pairs.entries };

    ghost invariant = { λ s. All (λ p. IsPair p.0 p.1) s.pairs.entries };
}

impl Store {
    /// No pairs. It takes no memory.
    pub fn new(alloc: Global) -> Store
        ensures { result ≡ [] }
    {
        Store {
            pairs: IndexMap::new(alloc),
        }
    }

    /// The value of a variable, and `None` exactly where the store doesn't have it.
    pub fn get(&self, name: &Text) -> Option<&Value>
        ensures { option_copied result ≡ value_under self.now name.now }
    {
        self.pairs.get(name)
    }

    /// Gives the variable this value. One that is there keeps its place, and a new one stands last. An `Err`
    /// is want of memory, which only a new variable can meet: it hands both back and leaves the store.
    pub fn set(&mut self, name: Text, value: Value) -> Result<(), (Text, Value)>
        requires { IsPair name value }
        ensures ok { OnOk result (self.new ≡ put self.old name value) }
        ensures err { OnErr result (self.new ≡ self.old) }
        ensures back { IfErr result (λ back. back ≡ (name, value)) }
        ensures only_of_a_new_name { OnErr result (value_under self.old name ≡ None) }
        ensures store { IsStore self.new }
    {
        let _before = match self.pairs.insert(name, value) {
            Ok(before) => before,
            Err(failed) => return Err(failed.value),
        };
        Ok(())
    }

    /// Gives a variable that is there this value, and hands out the one that it had. It takes no memory.
    pub fn replace(&mut self, name: &Text, value: Value) -> Value
        requires there { IsSome (value_under self.old name.now) }
        requires short { IsShort value }
        ensures old { Some result ≡ value_under self.old name.now }
        ensures new { self.new ≡ put self.old name.now value }
        ensures store { IsStore self.new }
    {
        match self.pairs.get_index_of(name) {
            Some(at) => mem::replace(&mut self.pairs[at], value),
            None => unreachable!(),
        }
    }

    /// Keeps the first pairs, so many.
    pub fn cut(&mut self, count: usize)
        ensures kept { self.new ≡ take count self.old }
        ensures store { IsStore self.new }
    {
        self.pairs.truncate(count);
    }

    /// How many pairs there are.
    pub fn len(&self) -> usize
        ensures len { result ≡ length self.now }
        ensures store { IsStore self.now }
    {
        self.pairs.len()
    }

    /// The name of the pair at this place, from 0, and `None` where there are no more than so many.
    pub fn name_at(&self, at: usize) -> Option<&Text>
        ensures { option_copied result ≡ slice_get (map (λ p. p.0) self.now) at }
    {
        let (name, _) = self.pairs.get_index(at)?;
        Some(name)
    }

    /// The value of the pair at this place, from 0, and `None` where there are no more than so many.
    pub fn value_at(&self, at: usize) -> Option<&Value>
        ensures { option_copied result ≡ slice_get (map (λ p. p.1) self.now) at }
    {
        let (_, value) = self.pairs.get_index(at)?;
        Some(value)
    }

    /// An equal store.
    pub fn copy(&self) -> Result<Store, Memory>
        ensures { IfOk result (λ copy. copy ≡ self.now) }
    {
        let mut copy = Store::new(*self.pairs.allocator());
        for at in 0..self.len() {
            let (name, value) = self.pair_at(at);
            copy.set(name.copy()?, value.copy()?).map_err(|_| Memory)?;
        }
        Ok(copy)
    }

    /// The pair at this place, from 0.
    pub(crate) fn pair_at(&self, at: usize) -> (&Text, &Value)
        requires { at < length self.now }
        ensures { slice_get self.now at ≡ Some (result.0.now, result.1.now) }
    {
        match self.pairs.get_index(at) {
            Some(pair) => pair,
            None => unreachable!(),
        }
    }
}
