ghost use Rattle.std.specs.Prelude.{ℕ, ◌≡◌, ◌≢◌, ◌∷◌, ◌↔◌, ◌^◌, ◌≤◌, List, [], ◌++◌, ◌<◌, Some, IfOk, IfSome, IsBitSet, IsTrue, slice_get};
ghost use Rattle.jm_model.specs.Meanings.{Meaning, IsHit, IsCutWord};
ghost use Rattle.jm_model.specs.Numbers.{no_number, at_rest, IsPlainMove, IsAtRest, AreEnds};

use crate::step::{Letter, NoMemory};

/// In place of the number of the state that a letter leads to: nothing is said.
pub const NO_NUMBER: u16 = 65535;

/// In place of the number of the state that a letter leads to: the letter leaves the state as it is.
pub const AT_REST: u16 = 65534;

/// A specification's properties, run a letter at a time.
///
/// A state stands for the words that lead to it, by the relation `StandsFor`; one state may stand for many words, and
/// what is said of a state and its word holds of each. What the specification means is told apart from any state:
/// `meaning` reads it off plain data, `definition`, so that a value that keeps this data keeps the meaning.
///
/// A state that no call of the monitor answered may be passed to it too. Where such a state stands for no word, nothing
/// is said of what is answered.
///
/// Some states have a number. What is asked at an event of many of these can be looked up by their numbers.
pub trait Monitor: Drop {
    type State: Drop;

    /// The plain data by which the meaning is defined. No value of it need be made.
    type Definition;

    ghost definition: { Self → Self.Definition };

    ghost meaning: { Self.Definition → Meaning };

    ghost StandsFor: { Self → Self.State → List ℕ → Type 0 };

    ghost HasNumber: { Self → Self.State → ℕ → Type 0 };

    /// How many letters there are, at most 32. They are numbered from 0.
    fn letters(&self) -> u8
        ensures value { result ≡ (meaning (definition self.now)).letters }
        ensures bounded { result ≤ 32 };

    /// The parameters that an event of the letter binds: bit p stands for parameter p.
    fn params(&self, letter: Letter) -> u8
        requires { letter.0 < (meaning (definition self.now)).letters }
        ensures { result ≡ (meaning (definition self.now)).params letter.0 };

    /// The parameters that an instance has to bind to be reported: all of them or none.
    fn must_bind(&self) -> u8
        ensures { result ≡ (meaning (definition self.now)).must_bind };

    /// A state that stands for the empty word.
    fn begin(&self) -> Result<Self::State, NoMemory>
        ensures { IfOk result (λ s. StandsFor self.now s []) };

    /// A state that stands for the same words.
    fn copy(&self, state: &Self::State) -> Result<Self::State, NoMemory>
        ensures { IfOk result (λ s. (w : List ℕ) → StandsFor self.now state.now w → StandsFor self.now s w) };

    /// A state that stands for the same words with the letter at their end.
    fn next(&self, state: &Self::State, letter: Letter) -> Result<Self::State, NoMemory>
        requires { letter.0 < (meaning (definition self.now)).letters }
        ensures { IfOk result (λ s.
            (w : List ℕ) → StandsFor self.now state.now w → StandsFor self.now s (w ++ letter.0 ∷ [])) };

    /// The handlers that the word hits: bit k is set exactly where handler k is hit by the word, whose category then
    /// holds of what is left of the word since the last reset of the handler's property. None is hit by the empty word.
    fn hits(&self, state: &Self::State) -> u16
        ensures { (w : List ℕ) → StandsFor self.now state.now w →
            (k : ℕ) → (IsBitSet result k ↔ IsHit (meaning (definition self.now)) w k) };

    /// Whether an instance with this slice can never fire again, where `dead` are the parameters that it binds to dead
    /// objects.
    fn cut(&self, state: &Self::State, dead: u8) -> bool
        ensures { (w : List ℕ) → StandsFor self.now state.now w →
            IsTrue result ↔ IsCutWord (meaning (definition self.now)) w dead };

    /// The letters at which an instance rests: bit e is set only where the state also stands for its words with letter
    /// e at their end, and these hit no handler. Such an event needn't look at the instance.
    fn idle(&self, state: &Self::State) -> u32
        ensures stays { (w : List ℕ) → StandsFor self.now state.now w → (e : ℕ) → IsBitSet result e →
            StandsFor self.now state.now (w ++ e ∷ []) }
        ensures quiet { (w : List ℕ) → StandsFor self.now state.now w → (e k : ℕ) → IsBitSet result e →
            IsHit (meaning (definition self.now)) (w ++ e ∷ []) k → ⊥ }
    {
        let _state = state;
        0
    }

    /// The letters that end an instance: bit e is set only where the words with letter e at their end hit no handler,
    /// and an instance of theirs is cut even while nothing of it is dead. Such an event needn't make an instance.
    fn ending(&self, state: &Self::State) -> u32
        ensures quiet { (w : List ℕ) → StandsFor self.now state.now w → (e k : ℕ) → IsBitSet result e →
            IsHit (meaning (definition self.now)) (w ++ e ∷ []) k → ⊥ }
        ensures cut { (w : List ℕ) → StandsFor self.now state.now w → (e : ℕ) → IsBitSet result e →
            IsCutWord (meaning (definition self.now)) (w ++ e ∷ []) 0 }
    {
        let _state = state;
        0
    }

    /// The number of a state, where it has one.
    fn number(&self, state: &Self::State) -> Option<u16>
        ensures { IfSome result (λ k. HasNumber self.now state.now k) }
    {
        let _state = state;
        None
    }

    /// Makes a state that has a number one with another number.
    fn renumber(&self, state: &mut Self::State, number: u16)
        ensures { (k : ℕ) → HasNumber self.now state.old k → HasNumber self.now state.new number };

    /// By the number of a state that of the state to which the letter leads, where that hits no handler, and an
    /// instance of it isn't cut while nothing of it is dead. `AT_REST` stands where this is the state itself, which the
    /// letter leaves as it is. `NO_NUMBER` says nothing.
    fn plain(&self, letter: Letter) -> &[u16]
        requires { letter.0 < (meaning (definition self.now)).letters }
        ensures moves { (k n : ℕ) → slice_get result.now k ≡ Some n → n ≢ no_number → n ≢ at_rest
            → (before after : Self.State) → HasNumber self.now before k → HasNumber self.now after n
            → IsPlainMove Self.State (meaning (definition self.now)) (StandsFor self.now) letter.0 before after }
        ensures rests { (k : ℕ) → slice_get result.now k ≡ Some at_rest → (state : Self.State)
            → HasNumber self.now state k
            → IsAtRest Self.State (meaning (definition self.now)) (StandsFor self.now) letter.0 state }
    {
        let _letter = letter;
        &[]
    }

    /// By the number of a state letters that end an instance, as `ending` answers them.
    fn endings(&self) -> &[u32]
        ensures { (k mask : ℕ) → slice_get result.now k ≡ Some mask → (state : Self.State)
            → HasNumber self.now state k
            → AreEnds Self.State (meaning (definition self.now)) (StandsFor self.now) mask state }
    {
        &[]
    }
}
