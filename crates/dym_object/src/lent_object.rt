//! An object that lends its records.
ghost use Rattle.std.specs.Prelude.{◌≡◌, None};
ghost use Rattle.dym_heap.specs.Meaning.{IsSound};
ghost use Rattle.dym_object.specs.Meaning.{IsWhole};

use crate::object::Object;
use dym_chain::{Chain, Entry, KeptLogs, LogKeep};
use dym_heap::Heap;
use dym_pack::Record;
use dym_quota::Supply;
use std::marker::Model;

/// An object while one of its records may be out: its kept logs are read, and it has no command. `Object::lend` gives it, and
/// `take_back` gives the object again.
pub struct LentObject<S: Supply, K: LogKeep> {
    pub(crate) heap: Heap<S>,
    pub(crate) chain: Chain<K>,
    pub(crate) ran: u64,
}

impl<S: Supply, K: LogKeep> Model for LentObject<S, K> {
    ghost use Rattle.std.specs.Coded.{codes};
    ghost use Rattle.dym_heap.specs.Meaning.{live_code, touched_code};
    ghost use Rattle.dym_object.specs.Meaning.{ObjectMeaning, IsLent};

    ghost Value = { ObjectMeaning };

    ghost coded = { Prim.hlevel (codes, live_code, touched_code) };

    ghost view = { λ o. record { heap = o.heap; chain = o.chain; ran = o.ran } };

    ghost invariant = { λ o. IsLent (record { heap = o.heap; chain = o.chain; ran = o.ran }) };
}

impl<S: Supply, K: LogKeep> LentObject<S, K> {
    /// The heap.
    pub fn heap(&self) -> &Heap<S>
        ensures heap { result.now ≡ self.now.heap }
        ensures sound { IsSound self.now.heap }
    {
        &self.heap
    }

    /// The object, once no record is out.
    pub fn take_back(self) -> Object<S, K>
        requires { self.chain.lifted ≡ None }
        ensures same { result ≡ self }
        ensures whole { IsWhole result }
    {
        let LentObject { heap, chain, ran } = self;
        Object { heap, chain, ran }
    }
}

impl<S: Supply, K: LogKeep> KeptLogs for LentObject<S, K> {
    ghost meaning = { λ o. o.chain };

    fn kept(&self) -> u32 {
        self.chain.kept()
    }

    fn slots(&self) -> u32 {
        self.chain.slots()
    }

    fn entry(&self, k: u32) -> Entry {
        self.chain.entry(k)
    }

    fn lift(&mut self, place: u32) -> Record {
        self.chain.lift(place)
    }

    fn lower(&mut self, place: u32, rec: Record) {
        self.chain.lower(place, rec);
    }
}
