//! A beginning of a history, with the last commit of it.
ghost use Rattle.std.specs.Prelude.{◌≡◌, ◌+◌, ◌<◌, ◌≤◌, ◌⊎◌, [], ◌∷◌, ◌++◌, length, Option, Some, option_map, IfOk, OnErr, MatchOption};
ghost use mathlib.Core.List.{IsPrefix};
ghost use Rattle.std.specs.Arc.{arc_value};
ghost use Rattle.std.specs.Option.{option_copied};
ghost use Rattle.dym_base.specs.declared.limits.TheConstants.{COUNT_LIMIT};
ghost use Rattle.dym_view.specs.Answers.{glance_of};
ghost use Rattle.dym_view.specs.Histories.{Beginning, IsHistory, last_commit, last_time, MayFollow};
ghost use Rattle.dym_view.specs.Rules.{commits_of};

use crate::commit::Commit;
use crate::glance::Glance;
use crate::history_rule::{Head, Reached, Shared};
use std::alloc::{AllocError, Global};
use std::marker::Model;
use std::sync::Arc;

/// A beginning of a history: how many commits it has, and the last of them.
#[derive(Drop)]
pub(crate) struct KnownHistory {
    number: u64,
    last: Option<Shared>,
    reached: Reached,
}

impl Model for KnownHistory {
    ghost use Rattle.std.specs.Prelude.{◌≡◌, length, option_map};
    ghost use Rattle.std.specs.Coded.{codes};
    ghost use Rattle.std.specs.Arc.{arc_value};
    ghost use Rattle.logbook.specs.Pages.{book_coded};
    ghost use Rattle.dym_heap.specs.Meaning.{live_code};
    ghost use Rattle.dym_view.specs.Histories.{Beginning, IsHistory, last_commit};
    ghost use Rattle.dym_view.specs.Rules.{commits_of};

    ghost Value = { Beginning };

    ghost coded = { Prim.hlevel (codes, live_code, book_coded) };

    ghost view = { λ f. record { history = f.reached.book; commits = commits_of f.reached.log } };

    ghost invariant = { λ f. (f.number ≡ length (commits_of f.reached.log))
        × (option_map arc_value f.last ≡ last_commit (commits_of f.reached.log))
        × IsHistory (commits_of f.reached.log) };
}

impl KnownHistory {
    /// The beginning with no commit.
    pub(crate) fn start(reached: Reached) -> KnownHistory
        requires { commits_of reached.log ≡ [] }
        ensures { result ≡ record { history = reached.book; commits = [] } }
    {
        KnownHistory {
            number: 0,
            last: None,
            reached,
        }
    }

    /// How many commits it has.
    pub(crate) fn number(&self) -> u64
        ensures number { result ≡ length self.now.commits }
        ensures history { IsHistory self.now.commits }
    {
        self.number
    }

    /// The last commit.
    pub(crate) fn last(&self) -> Option<&Commit>
        ensures { option_copied result ≡ last_commit self.now.commits }
    {
        match &self.last {
            Some(commit) => Some(&**commit),
            None => None,
        }
    }

    /// The last commit at a glance.
    pub(crate) fn glance(&self) -> Option<Glance>
        ensures glance { result ≡ glance_of self.now.commits }
        ensures history { IsHistory self.now.commits }
    {
        let number = self.number();
        match self.last() {
            Some(commit) => Some(Glance {
                number,
                time: commit.time(),
                chunks: commit.chunks(),
                total: commit.total(),
            }),
            None => None,
        }
    }

    /// The time of the last commit.
    pub(crate) fn last_time(&self) -> Option<u64>
        ensures { result ≡ last_time self.now.commits }
    {
        match self.last() {
            Some(commit) => Some(commit.time()),
            None => None,
        }
    }

    /// This beginning, as a value of its own. An `AllocError` comes where the last commit can't be shared.
    pub(crate) fn again(&self) -> Result<KnownHistory, AllocError>
        ensures { IfOk result (λ known. known ≡ self.now) }
    {
        let last = match &self.last {
            Some(commit) => Some(Arc::try_clone(commit)?),
            None => None,
        };
        Ok(self.sharing(last))
    }

    /// This beginning, as a value of its own, made with its last commit, which was shared before.
    pub(crate) fn sharing(&self, last: Option<Shared>) -> KnownHistory
        requires { option_map arc_value last ≡ last_commit self.now.commits }
        ensures { result ≡ self.now }
    {
        KnownHistory {
            number: self.number,
            last,
            reached: self.reached.again(),
        }
    }

    /// Where another beginning of the same history is no shorter, this one is its front.
    fn begins(&self, other: &KnownHistory)
        requires history { other.now.history ≡ self.now.history }
        requires shorter { length self.now.commits ≤ length other.now.commits }
        ensures { IsPrefix self.now.commits other.now.commits }
    {
        let mut both = self.reached.again();
        both.learn(&other.reached);
    }

    /// A second value of another beginning of the same history, where that is longer than this one, and else None. An
    /// `AllocError` comes where that is longer and its last commit can't be shared.
    pub(crate) fn longer(&self, other: &KnownHistory) -> Result<Option<KnownHistory>, AllocError>
        requires { other.now.history ≡ self.now.history }
        ensures { IfOk result (λ longer. MatchOption longer
            (IsPrefix other.now.commits self.now.commits)
            (λ known. (known ≡ other.now) × IsPrefix self.now.commits known.commits)) }
    {
        if other.number <= self.number {
            other.begins(self);
            return Ok(None);
        }
        self.begins(other);
        Ok(Some(other.again()?))
    }

    /// Becomes another beginning of the same history where that is longer, and else stays as it is.
    pub(crate) fn learn(&mut self, other: KnownHistory)
        requires { other.history ≡ self.old.history }
        ensures history { self.new.history ≡ self.old.history }
        ensures one { (self.new.commits ≡ self.old.commits) ⊎ (self.new.commits ≡ other.commits) }
        ensures this { IsPrefix self.old.commits self.new.commits }
        ensures that { IsPrefix other.commits self.new.commits }
        ensures rising { IsHistory self.new.commits }
    {
        if self.number < other.number {
            self.begins(&other);
            *self = other;
        } else {
            other.begins(self);
        }
    }

    /// The beginning with one commit more, which the history has from then on, and the same once more.
    ///
    /// All memory is taken before the history has the commit. The history had nothing more than this beginning.
    pub(crate) fn follow(
        &self,
        head: &mut Head,
        alloc: Global,
        commit: Commit,
    ) -> Result<(KnownHistory, KnownHistory), AllocError>
        requires whole { head.old ≡ self.now }
        requires room { length self.now.commits < COUNT_LIMIT }
        requires later { MayFollow self.now.commits commit.time }
        ensures one { IfOk result (λ both.
            both.0
            ≡ record { history = self.now.history; commits = self.now.commits ++ commit ∷ [] }) }
        ensures other { IfOk result (λ both. both.1 ≡ both.0) }
        ensures whole { IfOk result (λ both. head.new ≡ both.0) }
        ensures refused { OnErr result (head.new ≡ head.old) }
        ensures history { IfOk result (λ both. IsHistory both.0.commits) }
    {
        let commit = Arc::new(alloc, commit)?;
        let again = Arc::try_clone(&commit)?;
        let commit = head.add(self.number, commit);
        let known = KnownHistory::of_head(head, self.number + 1, commit);
        let shown = known.sharing(Some(again));
        Ok((known, shown))
    }

    /// The whole history, which has so many commits, of which this is the last.
    fn of_head(head: &Head, number: u64, last: Shared) -> KnownHistory
        requires number { number ≡ length head.now.commits }
        requires last { Some (arc_value last) ≡ last_commit head.now.commits }
        requires history { IsHistory head.now.commits }
        ensures { result ≡ head.now }
    {
        KnownHistory {
            number,
            last: Some(last),
            reached: head.reached(),
        }
    }
}
