//! What the lists keep of a slot.
ghost use Rattle.std.specs.Prelude.{ℕ, ◌≡◌, ◌+◌, ◌*◌, ◌/◌, ◌%◌, ◌<◌, ◌≤◌, ◌==◌, ◌&&◌, nat_lt, IsTrue, true, false};
ghost use Rattle.std.specs.Int.{bit_at};
ghost use Rattle.jm_awake.specs.Awake.{fresh, entry_of};
ghost use Rattle.jm_awake.specs.Steps.{IsUnlisted};

/// A slot in a list, and the age that its card had when it was listed.
#[derive(Clone, Copy)]
pub struct Listed {
    pub(crate) slot: u32,
    pub(crate) age: u32,
}

/// The card of a slot.
#[derive(Clone, Copy)]
pub struct Card {
    /// Twice as often as the slot was left, and one more from when an object of its monitor died.
    pub(crate) age: u32,
    /// The letters in whose lists the slot is, wherever there are lists: bit e stands for letter e.
    pub(crate) letters: u32,
}

impl Listed {
    /// The slot.
    #[inline(always)]
    pub fn slot(&self) -> usize
        ensures { result ≡ self.now.slot }
    {
        self.slot as usize
    }

    /// The slot, as it is kept.
    #[inline(always)]
    pub fn slot_number(&self) -> u32
        ensures { result ≡ self.now.slot }
    {
        self.slot
    }
}

impl Card {
    /// The card of a slot that no list has.
    pub(crate) fn new() -> Card
        ensures { result ≡ fresh }
    {
        Card { age: 0, letters: 0 }
    }

    /// Whether a listed slot still has the monitor that was listed, and no object of it is dead.
    #[inline(always)]
    pub fn is_whole(&self, listed: &Listed) -> bool
        ensures { result ≡ (self.now.age == listed.now.age) }
    {
        self.age == listed.age
    }

    /// Whether a listed slot still has the monitor that was listed.
    #[inline(always)]
    pub fn is_there(&self, listed: &Listed) -> bool
        ensures { result ≡ (self.now.age / 2 == listed.now.age / 2) }
    {
        self.age / 2 == listed.age / 2
    }

    /// Whether the slot is in the lists of a letter.
    pub(crate) fn is_on(&self, letter: u32) -> bool
        ensures { result ≡ (nat_lt letter 32 && (bit_at self.now.letters letter == 1)) }
    {
        letter < 32 && contains(self.letters, letter)
    }

    /// Which of some letters have no list with the slot.
    #[inline(always)]
    pub fn missing(&self, letters: u32) -> u32
        ensures each { (e : ℕ) → bit_at result e ≡ 1
            → (bit_at letters e ≡ 1) × (bit_at self.now.letters e ≡ 0) }
        ensures all { (e : ℕ) → bit_at letters e ≡ 1 → bit_at result e ≡ 0 → bit_at self.now.letters e ≡ 1 }
    {
        letters & !self.letters
    }

    /// What a list has of the slot.
    pub(crate) fn listed(&self, slot: u32) -> Listed
        ensures { result ≡ entry_of slot self.now }
    {
        Listed {
            slot,
            age: self.age / 2 * 2,
        }
    }

    /// Notes that the lists of a letter have the slot, wherever there are lists.
    pub(crate) fn list(&mut self, letter: u32)
        requires { letter < 32 }
        ensures age { self.new.age ≡ self.old.age }
        ensures on { bit_at self.new.letters letter ≡ 1 }
        ensures others { (e : ℕ) → (e ≡ letter → ⊥) → bit_at self.new.letters e ≡ bit_at self.old.letters e }
    {
        self.letters |= 1 << letter;
    }

    /// Notes that the list of a letter hasn't got the slot any more.
    pub(crate) fn unlist(&mut self, letter: u32)
        requires { letter < 32 }
        ensures { IsUnlisted letter self.old self.new }
    {
        self.letters = without(self.letters, letter);
    }

    /// Notes that an object of the slot's monitor is dead.
    pub(crate) fn mourn(&mut self)
        ensures age { self.new.age ≡ self.old.age / 2 * 2 + 1 }
        ensures letters { self.new.letters ≡ self.old.letters }
    {
        self.age = self.age / 2 * 2 + 1;
    }

    /// Notes that the slot is left, and says whether there is an age left for the next monitor.
    pub(crate) fn leave(&mut self) -> bool
        ensures letters { self.new.letters ≡ 0 }
        ensures age { result ≡ true → self.new.age ≡ self.old.age / 2 * 2 + 2 }
    {
        self.letters = 0;
        let count = self.age / 2;
        if count >= u32::MAX / 2 {
            return false;
        }
        self.age = count * 2 + 2;
        true
    }
}

/// The letters of a set at which a monitor doesn't rest.
#[inline(always)]
pub(crate) fn awake_at(letters: u32, resting: u32) -> u32
    ensures each { (e : ℕ) → bit_at result e ≡ 1 → (bit_at letters e ≡ 1) × (bit_at resting e ≡ 0) }
    ensures all { (e : ℕ) → bit_at letters e ≡ 1 → (bit_at resting e ≡ 1 → ⊥) → bit_at result e ≡ 1 }
{
    letters & !resting
}

/// Whether a set of letters has this one.
#[inline(always)]
pub(crate) fn contains(letters: u32, letter: u32) -> bool
    requires { letter < 32 }
    ensures { result ≡ (bit_at letters letter == 1) }
{
    (letters >> letter) % 2 == 1
}

/// A set of letters without one.
#[inline(always)]
pub(crate) fn without(letters: u32, letter: u32) -> u32
    requires { letter < 32 }
    ensures off { bit_at result letter ≡ 0 }
    ensures back { (e : ℕ) → bit_at result e ≡ 1 → (bit_at letters e ≡ 1) × (e ≡ letter → ⊥) }
    ensures kept { (e : ℕ) → (e ≡ letter → ⊥) → bit_at letters e ≡ 1 → bit_at result e ≡ 1 }
    ensures others { (e : ℕ) → e < 32 → (e ≡ letter → ⊥) → bit_at result e ≡ bit_at letters e }
    ensures fewer { bit_at letters letter ≡ 1 → result < letters }
{
    letters & !(1 << letter)
}
