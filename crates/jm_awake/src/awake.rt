ghost use Rattle.std.specs.Prelude.{ℕ, ◌≡◌, ◌≢◌, ◌+◌, ◌*◌, ◌/◌, ◌<◌, ◌≤◌, ◌⊎◌, ◌^◌, Option, Some, None, List, Contains, IfSome, OnOk, IfOk, true, false, length, map, slice_index, slice_index_or, slice_set};
ghost use Rattle.std.specs.Int.{bit_at};
ghost use Rattle.jm_model.specs.Bindings.{is_below, mask_of};
ghost use Rattle.jm_awake.specs.Awake.{Lists, fresh, list_at, card_at, number_at, path_in, is_there, IsOn, IsMourned, IsKept, IsListOf, HasNone, Occupant, Occupants, with_slot, AreFound, AreSoundBut, AreSound, AreStill, IsAwake, IsWakable, AreAllAbove};
ghost use Rattle.jm_awake.specs.declared.card.Listed.{Listed as Entry};
ghost use Rattle.jm_awake.specs.Steps.{IsCarded, IsCovered, IsAged, IsUnlisted, HasRoom, IsFewer, Takes, IsWokenAt, IsWoken, IsListedAt, AreListedIn, IsPlaceMade, IsMade};

use crate::card::{Card, Listed, awake_at, contains, without};
use crate::list::AwakeList;
use crate::path::path_within;
use jm_model::{Binding, Letter, NoMemory};
use std::alloc::Global;
use std::marker::Model;

/// The lists. They are found by letter and path.
#[derive(Drop)]
pub struct Awake {
    lists: Vec<AwakeList>,
    /// By letter and path one more than the number of a list, or 0. A list may be another's.
    rows: Vec<Vec<u32>>,
    /// By slot. A slot that has none is in no list.
    cards: Vec<Card>,
    /// The letters that have a list.
    letters: u32,
    /// By letter the parameters that the bindings of its lists bind.
    masks: [u8; 32],
}

impl Model for Awake {
    ghost use Rattle.std.specs.Prelude.{map};
    ghost use Rattle.jm_awake.specs.Awake.{Lists};

    ghost Value = { Lists };

    ghost view = { λ a. record {
      lists = a.lists.items;
      rows = map (λ r. r.items) a.rows.items;
      cards = a.cards.items;
      letters = a.letters;
      masks = a.masks;
    } };
}

impl Awake {
    /// No list.
    pub fn new(alloc: Global) -> Awake
        ensures { HasNone result }
    {
        Awake {
            lists: Vec::new(alloc),
            rows: Vec::new(alloc),
            cards: Vec::new(alloc),
            letters: 0,
            masks: [0; 32],
        }
    }

    /// Lets all lists go.
    #[inline(never)]
    pub fn forget(&mut self)
        ensures { HasNone self.new }
    {
        self.lists.clear();
        self.cards.clear();
        self.letters = 0;
    }

    /// The letters that have lists.
    #[inline(always)]
    pub fn letters(&self) -> u32
        ensures { result ≡ self.now.letters }
    {
        self.letters
    }

    /// The letters that have lists, but one.
    #[inline(always)]
    pub fn letters_but(&self, letter: Letter) -> u32
        requires { letter.0 < 32 }
        ensures { (e : ℕ) → bit_at self.now.letters e ≡ 1 → (e ≡ letter.0 → ⊥) → bit_at result e ≡ 1 }
    {
        without(self.letters, letter.0 as u32)
    }

    /// The place of the list of a letter and a binding, if there is one.
    #[inline(always)]
    pub fn find(&self, letter: Letter, binding: &Binding) -> Option<usize>
        requires { letter.0 < 32 }
        ensures within { IfSome result (λ place. place < length self.now.lists) }
        ensures of { IfSome result (λ place. IsListOf (list_at self.now place) letter.0 binding.now) }
    {
        if !contains(self.letters, letter.0 as u32) {
            return None;
        }
        self.find_listed(letter.0 as u32, binding)
    }

    #[inline(never)]
    fn find_listed(&self, letter: u32, binding: &Binding) -> Option<usize>
        ensures within { IfSome result (λ place. place < length self.now.lists) }
        ensures of { IfSome result (λ place. IsListOf (list_at self.now place) letter binding.now) }
    {
        let path = path_within(binding, binding.mask());
        let place = self.place(letter, path)?;
        if self.lists[place].is_of(letter, binding) {
            Some(place)
        } else {
            None
        }
    }

    /// The place of what is found under a letter and a path.
    fn place(&self, letter: u32, path: usize) -> Option<usize>
        ensures within { IfSome result (λ place. place < length self.now.lists) }
        ensures number { IfSome result (λ place. number_at self.now.rows letter path ≡ place + 1) }
        ensures none { result ≡ None → (place : ℕ) → place < length self.now.lists
            → number_at self.now.rows letter path ≡ place + 1 → ⊥ }
    {
        let number = self.number(letter, path);
        if number == 0 {
            return None;
        }
        let place = number as usize - 1;
        if place < self.lists.len() {
            Some(place)
        } else {
            None
        }
    }

    /// The number under a letter and a path; 0 where there is none.
    fn number(&self, letter: u32, path: usize) -> u32
        ensures { result ≡ number_at self.now.rows letter path }
    {
        match self.rows.get(letter as usize) {
            Some(row) => number_in(row.as_slice(), path),
            None => 0,
        }
    }

    /// What the list at a place has.
    #[inline(always)]
    pub fn entries(&self, place: usize) -> &[Listed]
        requires { place < length self.now.lists }
        ensures { result.now ≡ (list_at self.now place).entries }
    {
        self.lists[place].entries()
    }

    /// The cards, by slot.
    #[inline(always)]
    pub fn cards(&self) -> &[Card]
        ensures { result.now ≡ self.now.cards }
    {
        self.cards.as_slice()
    }

    /// Whether an entry still counts: its slot has the monitor that was listed.
    #[inline(always)]
    pub fn is_there(&self, entry: &Listed) -> bool
        ensures { result ≡ is_there self.now.cards entry.now }
    {
        match self.cards.get(entry.slot()) {
            Some(card) => card.is_there(entry),
            None => false,
        }
    }

    /// Drops from the list at a place what doesn't count any more, and what isn't in the lists of its letter any more.
    pub fn tidy(&mut self, place: usize)
        ensures sound { (q : Option ℕ) (o : Occupants) → (q ≡ None) ⊎ (q ≡ Some place) → AreSoundBut q o self.old
            → AreSound o self.new }
        ensures still { AreStill None self.old self.new }
    {
        if place < self.lists.len() {
            self.lists[place].retain_listed(self.cards.as_slice());
        }
    }

    /// Whether a slot has no card, or is missing in the lists of some letter at which its monitor doesn't rest.
    #[inline(always)]
    pub fn wants(&self, slot: usize, resting: u32) -> bool
        ensures { result ≡ false → (e : ℕ) → bit_at self.now.letters e ≡ 1 → (bit_at resting e ≡ 1 → ⊥)
            → IsOn (card_at self.now slot) e }
    {
        match self.cards.get(slot) {
            Some(card) => card.missing(awake_at(self.letters, resting)) != 0,
            None => true,
        }
    }

    /// Makes cards up to this slot, if it may, unless out of memory, and answers whether they are there.
    pub fn cover(&mut self, slot: usize, grows: bool) -> bool
        ensures covered { IsCovered self.old self.new }
        ensures in_range { result ≡ true → slot < length self.new.cards }
    {
        if slot < self.cards.len() {
            return true;
        }
        grows && add_cards(&mut self.cards, slot)
    }

    /// Lists a slot wherever its monitor, of this instance, may be changed: at all letters but those at which it rests.
    /// `mourns` says that an object of the instance is dead. It takes memory only if it may; out of memory, lists are
    /// let go.
    #[inline(never)]
    pub fn wake(&mut self, slot: usize, instance: &Binding, resting: u32, mourns: bool, grows: bool)
        ensures sound { (q : Option ℕ) (o : Occupants) → IsWakable q o self.old slot instance.now resting
            → AreSoundBut q o self.old
            → AreSoundBut q (with_slot o slot (Some (record { instance = instance.now; has_dead = mourns }))) self.new }
        ensures still { AreStill None self.old self.new }
        ensures awake { AreFound self.old → IsAwake self.new slot instance.now resting }
    {
        let Ok(number) = u32::try_from(slot) else {
            self.forget();
            return;
        };
        if !self.cover(slot, grows) {
            self.forget();
            return;
        }
        if mourns {
            self.mourn_card(slot);
        }
        self.wake_all(number, instance, resting, grows);
    }

    /// Lists a slot that has a card at all letters but those at which its monitor rests.
    fn wake_all(&mut self, slot: u32, instance: &Binding, resting: u32, grows: bool)
        requires { slot < length self.old.cards }
        ensures { IsWoken slot instance.now resting self.old self.new }
    {
        let wanted = awake_at(self.letters, resting);
        let mut left = self.cards[slot as usize].missing(wanted);
        while left > 0 {
            let letter = left.trailing_zeros();
            self.wake_at(letter, slot, instance, grows);
            left = without(left, letter);
        }
    }

    /// Lists it for a letter.
    fn wake_at(&mut self, letter: u32, slot: u32, instance: &Binding, grows: bool)
        requires letter { letter < 32 }
        requires card { slot < length self.old.cards }
        ensures { IsWokenAt letter slot instance.now self.old self.new }
    {
        self.cards[slot as usize].list(letter);
        if let Some(place) = self.taking(letter, instance) {
            let listed = self.cards[slot as usize].listed(slot);
            self.lists[place].add(listed, self.cards.as_slice(), grows);
        }
    }

    /// The place of the list of a letter whose binding lies below an instance, if there is one.
    #[inline(always)]
    fn taking(&self, letter: u32, instance: &Binding) -> Option<usize>
        requires { letter < 32 }
        ensures within { IfSome result (λ place. place < length self.now.lists) }
        ensures takes { IfSome result (λ place. Takes self.now letter instance.now place) }
        ensures only { AreFound self.now → (place : ℕ) → IsKept self.now place
            → Takes self.now letter instance.now place → result ≡ Some place }
    {
        let place = self.place(letter, path_within(instance, self.masks[letter as usize]))?;
        if self.lists[place].takes(letter, instance) {
            Some(place)
        } else {
            None
        }
    }

    /// Takes a slot out of the lists of a letter: its monitor rests there.
    #[inline(always)]
    pub fn unlist(&mut self, slot: usize, letter: Letter)
        requires { letter.0 < 32 }
        ensures sound { (place : ℕ) (o : Occupants) (x : Occupant) → (list_at self.old place).letter ≡ letter.0
            → IsKept self.old place → o slot ≡ Some x → is_below (list_at self.old place).binding x.instance ≡ true
            → AreSoundBut (Some place) o self.old → AreSoundBut (Some place) o self.new }
        ensures lists { self.new.lists ≡ self.old.lists }
        ensures unchanged { (x : Entry) → is_there self.new.cards x ≡ is_there self.old.cards x }
        ensures on { (k e : ℕ) → (k ≡ slot → e ≡ letter.0 → ⊥) → IsOn (card_at self.old k) e
            → IsOn (card_at self.new k) e }
    {
        if slot < self.cards.len() {
            self.unlist_card(slot, letter.0 as u32);
        }
    }

    #[inline(always)]
    fn unlist_card(&mut self, slot: usize, letter: u32)
        requires card { slot < length self.old.cards }
        requires letter { letter < 32 }
        ensures carded { IsCarded self.old self.new }
        ensures others { (k : ℕ) → (k ≡ slot → ⊥) → card_at self.new k ≡ card_at self.old k }
        ensures card { IsUnlisted letter (card_at self.old slot) (card_at self.new slot) }
        ensures size { length self.new.cards ≡ length self.old.cards }
    {
        self.cards[slot].unlist(letter);
    }

    /// Takes in that a slot is left.
    #[inline(always)]
    pub fn leave(&mut self, slot: usize)
        ensures sound { (q : Option ℕ) (o : Occupants) → AreSoundBut q o self.old
            → AreSoundBut q (with_slot o slot None) self.new }
        ensures still { AreStill (Some slot) self.old self.new }
    {
        if slot < self.cards.len() && !self.leave_card(slot) {
            self.forget();
        }
    }

    #[inline(never)]
    fn leave_card(&mut self, slot: usize) -> bool
        requires { slot < length self.old.cards }
        ensures carded { IsCarded self.old self.new }
        ensures others { (k : ℕ) → (k ≡ slot → ⊥) → card_at self.new k ≡ card_at self.old k }
        ensures letters { (card_at self.new slot).letters ≡ 0 }
        ensures age { result ≡ true → (card_at self.new slot).age ≡ (card_at self.old slot).age / 2 * 2 + 2 }
    {
        self.cards[slot].leave()
    }

    /// Makes a list of a letter and a binding, of these slots; out of memory, lists are let go.
    pub fn list_all(&mut self, letter: Letter, binding: &Binding, slots: &[usize])
        requires { letter.0 < 32 }
        ensures sound { (o : Occupants) → AreAllAbove o self.old binding.now slots.now → AreSound o self.old
            → AreSound o self.new }
        ensures on { (k e : ℕ) (place : ℕ) → IsKept self.new place → IsOn (card_at self.old k) e
            → IsOn (card_at self.new k) e }
        ensures present { (k place : ℕ) → IsKept self.new place → Contains slots.now k
            → IsOn (card_at self.new k) letter.0 }
        ensures lists { (place : ℕ) → IsKept self.new place
            → (list_at self.new place ≡ list_at self.old place)
            ⊎ IsListOf (list_at self.new place) letter.0 binding.now }
    {
        let letter = letter.0 as u32;
        if contains(self.letters, letter) && self.masks[letter as usize] != binding.mask() {
            self.forget();
            return;
        }
        if self.add_list(letter, binding, slots).is_err() {
            self.forget();
        }
    }

    /// Adds such a list, and may run out of memory in the middle.
    fn add_list(&mut self, letter: u32, binding: &Binding, slots: &[usize]) -> Result<(), NoMemory>
        requires low { letter < 32 }
        requires mask { bit_at self.old.letters letter ≡ 1 → slice_index self.old.masks letter ≡ mask_of binding.now }
        ensures { OnOk result (IsMade letter binding.now slots.now self.old self.new) }
    {
        let alloc = *self.lists.allocator();
        let entries = self.list_slots(alloc, letter, slots)?;
        let path = path_within(binding, binding.mask());
        let place = self.make_place(alloc, letter, path)?;
        self.lists[place].keep(letter, binding, entries);
        self.letters |= 1 << letter;
        self.masks[letter as usize] = binding.mask();
        Ok(())
    }

    /// Puts slots into the lists of a letter, and makes what a list has of them.
    fn list_slots(
        &mut self,
        alloc: Global,
        letter: u32,
        slots: &[usize],
    ) -> Result<Vec<Listed>, NoMemory>
        requires { letter < 32 }
        ensures { IfOk result (λ entries. AreListedIn letter slots.now entries.items self.old self.new) }
    {
        let mut entries = Vec::with_capacity(alloc, slots.len())?;
        for slot in slots {
            let Some(entry) = self.list_slot(letter, *slot) else {
                return Err(NoMemory);
            };
            entries.push(entry)?;
        }
        Ok(entries)
    }

    /// Puts a slot into the lists of a letter, and makes what a list has of it, unless out of memory.
    fn list_slot(&mut self, letter: u32, slot: usize) -> Option<Listed>
        requires { letter < 32 }
        ensures { IfSome result (λ entry. IsListedAt letter slot entry self.old self.new) }
    {
        let Ok(number) = u32::try_from(slot) else {
            return None;
        };
        if !self.cover(slot, true) {
            return None;
        }
        self.cards[slot].list(letter);
        Some(self.cards[slot].listed(number))
    }

    /// The place of a list for a letter and a path: that of the one that is found under them, or a new one.
    fn make_place(&mut self, alloc: Global, letter: u32, path: usize) -> Result<usize, NoMemory>
        ensures { IfOk result (λ place. IsPlaceMade letter path self.old self.new place) }
    {
        if let Some(place) = self.place(letter, path) {
            return Ok(place);
        }
        make_room(&mut self.rows, alloc, letter as usize, path)?;
        let place = self.lists.len();
        let Ok(number) = u32::try_from(place + 1) else {
            return Err(NoMemory);
        };
        self.lists.push(AwakeList::new(alloc))?;
        write(&mut self.rows, letter as usize, path, number);
        Ok(place)
    }

    /// Notes that an object of a slot's monitor is dead, if the slot has a card.
    pub fn mourn(&mut self, slot: usize)
        ensures sound { (q : Option ℕ) (o : Occupants) → AreSoundBut q o self.old → AreSoundBut q o self.new }
        ensures still { AreStill None self.old self.new }
        ensures mourned { slot < length self.old.cards → IsMourned (card_at self.new slot) }
        ensures others { (k : ℕ) → IsMourned (card_at self.old k) → IsMourned (card_at self.new k) }
        ensures size { length self.new.cards ≡ length self.old.cards }
    {
        if slot < self.cards.len() {
            self.mourn_card(slot);
        }
    }

    fn mourn_card(&mut self, slot: usize)
        requires { slot < length self.old.cards }
        ensures carded { IsCarded self.old self.new }
        ensures others { (k : ℕ) → (k ≡ slot → ⊥) → card_at self.new k ≡ card_at self.old k }
        ensures aged { IsAged (card_at self.old slot) (card_at self.new slot) }
        ensures mourned { IsMourned (card_at self.new slot) }
        ensures size { length self.new.cards ≡ length self.old.cards }
    {
        self.cards[slot].mourn();
    }

    /// Lets the lists of an object go that is dead: there is no event at it any more.
    pub fn bury(&mut self, object: u32)
        ensures { IsFewer self.old self.new }
    {
        let path = object as usize + 1;
        for letter in 0..32 {
            self.bury_at(letter, path);
        }
    }

    /// Lets the list of a letter go that is found under a path, if its binding has that path.
    fn bury_at(&mut self, letter: u32, path: usize)
        ensures { IsFewer self.old self.new }
    {
        if let Some(place) = self.place(letter, path)
            && self.lists[place].is_under(letter, path)
        {
            self.lists[place].let_go();
        }
    }
}

/// Makes cards up to that of a slot, unless out of memory, and answers whether they are there.
fn add_cards(cards: &mut Vec<Card>, slot: usize) -> bool
    ensures unchanged { (k : ℕ) → slice_index_or cards.new.items k fresh ≡ slice_index_or cards.old.items k fresh }
    ensures size { length cards.old.items ≤ length cards.new.items }
    ensures in_range { result ≡ true → slot < length cards.new.items }
{
    while cards.len() <= slot {
        if cards.push(Card::new()).is_err() {
            return false;
        }
    }
    true
}

/// The number at a place of a row; 0 where there is none.
fn number_in(row: &[u32], path: usize) -> u32
    ensures { result ≡ slice_index row.now path }
{
    match row.get(path) {
        Some(number) => *number,
        None => 0,
    }
}

/// Makes room for a number under a letter and a path.
fn make_room(
    rows: &mut Vec<Vec<u32>>,
    alloc: Global,
    letter: usize,
    path: usize,
) -> Result<(), NoMemory>
    ensures unchanged { (e p : ℕ) → number_at (map (λ r. r.items) rows.new.items) e p
        ≡ number_at (map (λ r. r.items) rows.old.items) e p }
    ensures in_range { OnOk result (HasRoom (map (λ r. r.items) rows.new.items) letter path) }
{
    add_rows(rows, alloc, letter)?;
    lengthen(&mut rows[letter], path)
}

/// Makes a row for a letter, where there is none.
fn add_rows(rows: &mut Vec<Vec<u32>>, alloc: Global, letter: usize) -> Result<(), NoMemory>
    ensures unchanged { (e p : ℕ) → number_at (map (λ r. r.items) rows.new.items) e p
        ≡ number_at (map (λ r. r.items) rows.old.items) e p }
    ensures in_range { OnOk result (letter < length rows.new.items) }
{
    while rows.len() <= letter {
        rows.push(Vec::new(alloc))?;
    }
    Ok(())
}

/// Makes a row as long as to have a path.
fn lengthen(row: &mut Vec<u32>, path: usize) -> Result<(), NoMemory>
    ensures unchanged { (p : ℕ) → slice_index row.new.items p ≡ slice_index row.old.items p }
    ensures in_range { OnOk result (path < length row.new.items) }
{
    while row.len() <= path {
        row.push(0)?;
    }
    Ok(())
}

/// Writes a number under a letter and a path, where there is room for it.
fn write(rows: &mut Vec<Vec<u32>>, letter: usize, path: usize, number: u32)
    requires { HasRoom (map (λ r. r.items) rows.old.items) letter path }
    ensures at_key { number_at (map (λ r. r.items) rows.new.items) letter path ≡ number }
    ensures others { (e p : ℕ) → (e ≡ letter → p ≡ path → ⊥)
        → number_at (map (λ r. r.items) rows.new.items) e p ≡ number_at (map (λ r. r.items) rows.old.items) e p }
{
    write_in(&mut rows[letter], path, number);
}

/// Writes a number in a row.
fn write_in(row: &mut Vec<u32>, path: usize, number: u32)
    requires { path < length row.old.items }
    ensures { row.new.items ≡ slice_set row.old.items path number }
{
    row[path] = number;
}
