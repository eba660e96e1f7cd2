//! What an event carries.
ghost use Rattle.std.specs.Prelude.{◌≡◌, ℕ, ◌↔◌, IsTrue, List, [], ◌∷◌};
ghost use Rattle.std.proofs.Common.{rules};
ghost use Rattle.warp_base.specs.Words.{lexically};

/// What an event carries beside its kind. A list of numbers stands for it in the order of events.
pub trait Payload: Copy {
    /// The numbers that stand for a payload, the most important first.
    ghost words: { Self → List ℕ };

    /// Whether the words of this payload are at or before those of another.
    fn is_at_or_before(&self, other: &Self) -> bool
        ensures { result ≡ lexically (words self.now) (words other.now) };

    /// Whether two payloads are one.
    fn is_same(&self, other: &Self) -> bool
        ensures { IsTrue result ↔ (self.now ≡ other.now) };

    /// Payloads with the same words are the same.
    ghost tells_apart: { (a b : Self) → words a ≡ words b → a ≡ b };
}

/// No payload.
impl Payload for () {
    ghost words = { λ _. [] };

    ghost tells_apart = { λ a b same. Prim.search rules };

    #[tactic(auto, unfolding(crate::specs::Words::lexically))]
    fn is_at_or_before(&self, _other: &()) -> bool {
        true
    }

    fn is_same(&self, _other: &()) -> bool {
        true
    }
}

/// One number.
impl Payload for u64 {
    ghost words = { λ n. n ∷ [] };

    ghost tells_apart = { λ a b same. Prim.cc };

    #[tactic(auto, unfolding(crate::specs::Words::lexically))]
    fn is_at_or_before(&self, other: &u64) -> bool {
        *self <= *other
    }

    fn is_same(&self, other: &u64) -> bool {
        *self == *other
    }
}
