//! The book that keeps a history for good: what was once seen of it stays its beginning, and only the end that has its head adds to it.
ghost use Rattle.std.specs.Prelude.{◌≡◌, ◌+◌, ◌<◌, [], ◌∷◌, ◌++◌, length, IfSome};
ghost use Rattle.std.specs.Arc.{arc_value};
ghost use Rattle.logbook.specs.Pages.{may_write};
ghost use Rattle.dym_base.specs.declared.limits.TheConstants.{COUNT_LIMIT};
ghost use Rattle.dym_view.specs.Histories.{IsHistory, MayFollow};
ghost use Rattle.dym_view.specs.Rules.{commits_of, head_of};

use crate::commit::Commit;
use logbook::{Gain, Offer, Pen, Plain, Play, Rule, Seen, Start, Word};
use std::alloc::Global;
use std::marker::Model;
use std::sync::{Arc, Wait};

/// A commit that is shared and not copied.
pub(crate) type Shared = Arc<Commit, Global>;

/// An entry of the book. Contracts alone see it: a commit, and the key of the cell that the next entry brings home.
pub type Entry = (Commit, u64);

/// The rule of the book.
pub struct HistoryRule;

impl Rule<Entry, u64> for HistoryRule {
    ghost use Rattle.std.specs.Prelude.{[]};
    ghost use base.Fml.{ftrue};
    ghost use Rattle.dym_view.specs.Rules.{IsBookOf};

    ghost holds = { λ cells log. IsBookOf cells log };

    ghost first = { [] };

    ghost hinted = { λ n log. Unit {0} };

    ghost shows = { λ log. [] };

    ghost keeps = { λ names log. ftrue };

    ghost moves = { λ ask before after answer. Unit {0} };
}

/// Whoever adds an entry trades nothing for it.
pub struct Nothing;

impl Gain<Entry, u64> for Nothing {
    ghost use base.Fml.{ftrue};

    ghost after = { λ names about answer. ftrue };
}

/// A step that adds a cell.
struct Claim;

impl Play<Entry, u64> for Claim {
    ghost use Rattle.dym_view.specs.Rules.{Claims};

    ghost then = { Claims };
}

impl Plain<(), Entry, u64> for Claim {
    ghost use Rattle.std.specs.Prelude.{None};
    ghost use Rattle.dym_view.specs.Rules.{no_commit};

    ghost ask = { λ _. (no_commit, 0) };

    ghost state = { λ _. None };
}

/// A step that adds the first entry.
struct Begin;

impl Play<Entry, u64> for Begin {
    ghost use Rattle.dym_view.specs.Rules.{Begins};

    ghost then = { Begins };
}

impl Plain<Pen, Entry, u64> for Begin {
    ghost use Rattle.std.specs.Prelude.{None};
    ghost use Rattle.dym_view.specs.Rules.{no_commit};

    ghost ask = { λ next. (no_commit, next.nib.key) };

    ghost state = { λ _. None };
}

/// A commit to be added, and the right to bring home the cell that its entry names.
#[derive(Drop)]
struct Addition {
    commit: Shared,
    next: Pen,
}

/// A step that adds a commit.
struct Add;

impl Play<Entry, u64> for Add {
    ghost use Rattle.dym_view.specs.Rules.{Adds};

    ghost then = { Adds };
}

impl Plain<Addition, Entry, u64> for Add {
    ghost use Rattle.std.specs.Prelude.{None};
    ghost use Rattle.std.specs.Arc.{arc_value};

    ghost ask = { λ addition. (arc_value addition.commit, addition.next.nib.key) };

    ghost state = { λ _. None };
}

/// That a history has reached some length. It has no bytes.
pub type Reached = Seen<Entry, u64, HistoryRule>;

/// The word that has the length of a history.
pub(crate) type Length = Word<Entry, u64, HistoryRule>;

/// The head of a history: the right to add to it. Contracts see the history, which is all that was ever added.
#[derive(Drop)]
pub struct Head {
    length: Length,
    reached: Reached,
    turn: Pen,
}

impl Model for Head {
    ghost use Rattle.std.specs.Prelude.{◌≡◌};
    ghost use Rattle.std.specs.Coded.{codes};
    ghost use Rattle.logbook.specs.Pages.{book_coded};
    ghost use Rattle.dym_heap.specs.Meaning.{live_code};
    ghost use Rattle.dym_view.specs.Histories.{Beginning};
    ghost use Rattle.dym_view.specs.Rules.{commits_of, head_of, CanAdd};

    ghost Value = { Beginning };

    ghost coded = { Prim.hlevel (codes, live_code, book_coded) };

    ghost view = { λ h. record { history = h.reached.book; commits = commits_of h.reached.log } };

    ghost invariant = { λ h. (h.length ≡ head_of h.reached.book)
        × CanAdd h.reached.book h.reached.log h.turn.book h.turn.nib };
}

/// A history with no commit yet. It ends once a book was begun by no one else, as the first one always is.
pub(crate) fn open_history<R: Wait>(rt: &R) -> Head
    ensures { result.commits ≡ [] }
{
    for _ in rt.forever() {
        let (reached, mut first, _second) = Seen::open(Start::alone(), 0, 0);
        let length = Word::tracked(0, &mut first);
        if let Some(head) = begin_book(length, reached) {
            return head;
        }
    }
    unreachable!()
}

/// The head of a book that has no entry yet, and None where another one has begun it.
fn begin_book(length: Length, reached: Reached) -> Option<Head>
    requires length { length ≡ head_of reached.book }
    requires empty { reached.log ≡ [] }
    ensures { IfSome result (λ head. head.commits ≡ []) }
{
    let mut reached = reached;
    let mut turn = claim_cell(&length, &reached);
    let mut offer: Offer<Entry, u64, HistoryRule, Nothing> = reached.plain::<Nothing, Pen, Begin>(
        &turn,
    );
    let found = length.compare_exchange::<Begin, Nothing>(
        0,
        1,
        &mut reached,
        &mut offer,
        &mut turn,
    );
    if found != 0 {
        return None;
    }
    Some(Head {
        length,
        reached,
        turn,
    })
}

/// The right to bring a new cell of the book home.
fn claim_cell(length: &Length, reached: &Reached) -> Pen
    requires length { length.now ≡ head_of reached.now.book }
    ensures book { result.book ≡ reached.now.book }
    ensures right { result.nib.right ≡ may_write }
{
    let mut seen = reached.again();
    let mut pen = seen.no_pen();
    let mut offer: Offer<Entry, u64, HistoryRule, Nothing> = seen.plain::<Nothing, (), Claim>(&());
    length.compare_exchange::<Claim, Nothing>(0, 0, &mut seen, &mut offer, &mut pen);
    let word: Length = Word::tracked(0, &mut pen);
    drop(word);
    pen
}

impl Head {
    /// Of the history, all that was added.
    pub(crate) fn reached(&self) -> Reached
        ensures book { result.book ≡ self.now.history }
        ensures commits { commits_of result.log ≡ self.now.commits }
    {
        self.reached.again()
    }

    /// Adds a commit to the history, which has so many. No one else adds to it, so that this can't fail.
    pub(crate) fn add(&mut self, number: u64, commit: Shared) -> Shared
        requires number { number ≡ length self.old.commits }
        requires room { number < COUNT_LIMIT }
        requires later { MayFollow self.old.commits (arc_value commit).time }
        ensures same { result ≡ commit }
        ensures history { self.new.history ≡ self.old.history }
        ensures added { self.new.commits ≡ self.old.commits ++ arc_value commit ∷ [] }
        ensures rising { IsHistory self.new.commits }
    {
        let next = claim_cell(&self.length, &self.reached);
        let addition = Addition { commit, next };
        let mut offer: Offer<Entry, u64, HistoryRule, Nothing> = self
            .reached
            .plain::<Nothing, Addition, Add>(&addition);
        self.length.compare_exchange::<Add, Nothing>(
            number + 1,
            number + 2,
            &mut self.reached,
            &mut offer,
            &mut self.turn,
        );
        let Addition { commit, next } = addition;
        self.turn = next;
        commit
    }
}
