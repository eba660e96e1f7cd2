//! A simulation object.
ghost use Rattle.std.specs.Prelude.{◌≡◌, ◌≤◌, None, [], length, IfOk, IfErr};
ghost use Rattle.dym_base.specs.Objects as Objects;
ghost use Rattle.dym_base.specs.declared.command.Version.TheVariants.{One};
ghost use Rattle.dym_base.specs.declared.limits.TheConstants.{MOST_QUOTA};
ghost use Rattle.dym_heap.specs.Meaning.{IsSound};
ghost use Rattle.dym_object.specs.Meaning.{ObjectMeaning, IsWhole, opened_object};

use crate::lent_object::LentObject;
use dym_base::Version;
use dym_base::limits::MOST_QUOTA;
use dym_chain::{Chain, LogKeep};
use dym_heap::Heap;
use dym_quota::Supply;
use std::alloc::{AllocError, Global};
use std::marker::Model;

/// A simulation object: a heap, the chain of its logs, and how many commands it ran.
///
/// Only opening, and a log or a read that isn't refused, take memory. A refusal changes nothing of the heap and its logs.
pub struct Object<S: Supply, K: LogKeep> {
    pub(crate) heap: Heap<S>,
    pub(crate) chain: Chain<K>,
    pub(crate) ran: u64,
}

impl<S: Supply, K: LogKeep> Model for Object<S, K> {
    ghost use Rattle.std.specs.Coded.{codes};
    ghost use Rattle.dym_heap.specs.Meaning.{live_code, touched_code};
    ghost use Rattle.dym_object.specs.Meaning.{ObjectMeaning, IsWhole};

    ghost Value = { ObjectMeaning };

    ghost coded = { Prim.hlevel (codes, live_code, touched_code) };

    ghost view = { λ o. record { heap = o.heap; chain = o.chain; ran = o.ran } };

    ghost invariant = { λ o. IsWhole (record { heap = o.heap; chain = o.chain; ran = o.ran }) };
}

impl<S: Supply, K: LogKeep> Object<S, K> {
    /// An object of version 1 with an empty heap and no log. All memory of the heap and room for all logs are taken here.
    pub fn open(alloc: Global, supply: S, keep: K) -> Result<Object<S, K>, (AllocError, S, K)>
        requires nothing_held { S.held_ids supply ≡ [] }
        requires least { 1 ≤ S.quota_of supply }
        requires most { S.quota_of supply ≤ MOST_QUOTA }
        requires empty { (K.meaning keep).records ≡ [] }
        requires made { (K.meaning keep).made ≡ 0 }
        requires idle { (K.meaning keep).lifted ≡ None }
        ensures opened { IfOk result (λ o. o ≡ opened_object One (S.quota_of supply)
            (S.origin supply) (K.meaning keep).origin) }
        ensures whole { IfOk result IsWhole }
        ensures supply { IfErr result (λ e. e.1 ≡ supply) }
        ensures keep { IfErr result (λ e. K.meaning e.2 ≡ K.meaning keep) }
    {
        Object::open_as(alloc, supply, keep, Version::One)
    }

    /// An object of a version with an empty heap and no log. All memory of the heap and room for all logs are taken here.
    pub fn open_as(
        alloc: Global,
        supply: S,
        keep: K,
        version: Version,
    ) -> Result<Object<S, K>, (AllocError, S, K)>
        requires nothing_held { S.held_ids supply ≡ [] }
        requires least { 1 ≤ S.quota_of supply }
        requires most { S.quota_of supply ≤ MOST_QUOTA }
        requires empty { (K.meaning keep).records ≡ [] }
        requires made { (K.meaning keep).made ≡ 0 }
        requires idle { (K.meaning keep).lifted ≡ None }
        ensures opened { IfOk result (λ o. o ≡ opened_object version (S.quota_of supply)
            (S.origin supply) (K.meaning keep).origin) }
        ensures whole { IfOk result IsWhole }
        ensures supply { IfErr result (λ e. e.1 ≡ supply) }
        ensures keep { IfErr result (λ e. K.meaning e.2 ≡ K.meaning keep) }
    {
        let chain = match Chain::open(alloc, keep) {
            Ok(chain) => chain,
            Err((error, keep)) => return Err((error, supply, keep)),
        };
        match Heap::open_as(alloc, supply, version) {
            Ok(heap) => Ok(Object {
                heap,
                chain,
                ran: 0,
            }),
            Err((error, supply)) => Err((error, supply, chain.into_keep())),
        }
    }

    /// The object of a heap and of the chain of its logs, after so many commands.
    pub fn of_parts(heap: Heap<S>, chain: Chain<K>, ran: u64) -> Object<S, K>
        requires { IsWhole (record { heap = heap; chain = chain; ran = ran }) }
        ensures { result ≡ record { heap = heap; chain = chain; ran = ran } }
    {
        Object { heap, chain, ran }
    }

    /// Takes the object apart into its heap, the chain of its logs, and how many commands it ran, for `of_parts`.
    pub fn into_parts(self) -> (Heap<S>, Chain<K>, u64)
        ensures parts { self ≡ record { heap = result.0; chain = result.1; ran = result.2 } }
        ensures whole { IsWhole self }
    {
        let Object { heap, chain, ran } = self;
        (heap, chain, ran)
    }

    /// How many commands were run.
    pub fn ran(&self) -> u64
        ensures { result ≡ self.now.ran }
    {
        self.ran
    }

    /// The heap.
    pub fn heap(&self) -> &Heap<S>
        ensures heap { result.now ≡ self.now.heap }
        ensures sound { IsSound self.now.heap }
    {
        &self.heap
    }

    /// How many logs are kept.
    pub fn kept(&self) -> u32
        ensures { result ≡ length self.now.chain.logs }
    {
        self.chain.kept()
    }

    /// How many records they take.
    pub fn slots(&self) -> u32
        ensures slots { result ≡ Objects.slots self.now.chain.logs }
        ensures records { result ≡ length self.now.chain.records }
    {
        self.chain.slots()
    }

    /// The object, as one whose records are lent: it has no command until it is taken back. Nothing is copied.
    pub fn lend(self) -> LentObject<S, K>
        ensures lent { result ≡ self }
        ensures whole { IsWhole self }
    {
        let Object { heap, chain, ran } = self;
        LentObject { heap, chain, ran }
    }

    /// Gives up the object, and answers its heap as it stands and the keep of its records.
    pub fn split(self) -> (Heap<S>, K)
        ensures heap { result.0 ≡ self.heap }
        ensures keep { K.meaning result.1 ≡ record {
          records = self.chain.records;
          made = self.chain.made;
          lifted = None;
          origin = self.chain.origin;
        } }
        ensures slots { length self.chain.records ≡ Objects.slots self.chain.logs }
        ensures whole { IsWhole self }
    {
        let Object {
            heap,
            chain,
            ran: _,
        } = self;
        (heap, chain.into_keep())
    }

    /// Gives all segments back, and answers the supply and the keep of the records.
    pub fn end(self, way: &S::Way) -> (S, K)
        ensures nothing_held { S.held_ids result.0 ≡ [] }
        ensures quota { S.quota_of result.0 ≡ self.heap.quota }
        ensures supply_origin { S.origin result.0 ≡ self.heap.origin }
        ensures keep { K.meaning result.1 ≡ record {
          records = self.chain.records;
          made = self.chain.made;
          lifted = None;
          origin = self.chain.origin;
        } }
        ensures slots { length self.chain.records ≡ Objects.slots self.chain.logs }
        ensures whole { IsWhole self }
    {
        let (heap, keep) = self.split();
        (heap.end(way), keep)
    }
}
