//! The objects of a line.
ghost use Rattle.std.specs.Prelude.{◌≡◌, ◌<◌, ◌≤◌, nat_le, ◌++◌, ◌+◌, ◌-◌, ◌^◌, length, map, take, IfOk, OnOk, OnErr, IsSome, IsTrue};
ghost use Rattle.std.specs.List.{list_all};
ghost use Rattle.jm_events.specs.Names.{with_name};
ghost use Rattle.jm_lines.specs.Objects.{is_object};
ghost use Rattle.jm_script.specs.Objects.{most_objects, mentioned, number_at_mention, numbers_of, IsExtension};

use jm_events::Names;
use jm_lines::{is_object, text};
use jm_model::NoMemory;
use std::alloc::Global;

const MOST_OBJECTS: usize = 65_536;

/// Whether each of the words may name an object.
pub fn are_objects(words: &[&[u8]]) -> bool
    ensures { result ≡ list_all is_object (map (λ w. w.now) words.now) }
{
    for word in words {
        if !is_object(word) {
            return false;
        }
    }
    true
}

/// Writes the numbers of the objects, at most eight, if all of them are known.
pub fn known_numbers(objects: &[&[u8]], names: &Names, numbers: &mut [u32; 8]) -> Option<()>
    requires objects { IsTrue (list_all is_object (map (λ w. w.now) objects.now)) }
    requires bounded { length objects.now ≤ 8 }
    ensures names { IsSome result → mentioned names.now (map (λ w. w.now) objects.now) ≡ names.now }
    ensures numbers { IsSome result → take (length objects.now) numbers.new
        ≡ numbers_of names.now (map (λ w. w.now) objects.now) }
{
    for (i, object) in objects.iter().enumerate() {
        numbers[i] = names.find(text(object))?;
    }
    Some(())
}

/// Whether there are not too many objects even if all of these are new.
pub fn are_few(objects: &[&[u8]], names: &Names) -> bool
    requires { length objects.now ≤ 8 }
    ensures { result ≡ nat_le (length names.now + length objects.now) most_objects }
{
    names.len() as usize + objects.len() <= MOST_OBJECTS
}

/// Whether there are not too many objects once these are mentioned.
#[inline(always)]
pub fn have_room(alloc: Global, objects: &[&[u8]], names: &Names) -> Result<bool, NoMemory>
    requires objects { IsTrue (list_all is_object (map (λ w. w.now) objects.now)) }
    requires bounded { length objects.now ≤ 8 }
    requires room { length names.now ≤ most_objects }
    ensures { IfOk result (λ b. b
        ≡ nat_le (length (mentioned names.now (map (λ w. w.now) objects.now))) most_objects) }
{
    if are_few(objects, names) {
        return Ok(true);
    }
    have_room_for_new(alloc, objects, names)
}

/// Whether there is room for the names of these objects, by counting those that are new.
#[inline(never)]
fn have_room_for_new(alloc: Global, objects: &[&[u8]], names: &Names) -> Result<bool, NoMemory>
    requires objects { IsTrue (list_all is_object (map (λ w. w.now) objects.now)) }
    requires bounded { length objects.now ≤ 8 }
    requires room { length names.now ≤ most_objects }
    ensures { IfOk result (λ b. b
        ≡ nat_le (length (mentioned names.now (map (λ w. w.now) objects.now))) most_objects) }
{
    let new = new_names(alloc, objects, names)?;
    Ok(names.len() as usize + new.len() as usize <= MOST_OBJECTS)
}

/// The names of the objects that are new.
fn new_names(alloc: Global, objects: &[&[u8]], names: &Names) -> Result<Names, NoMemory>
    requires objects { IsTrue (list_all is_object (map (λ w. w.now) objects.now)) }
    requires bounded { length objects.now ≤ 8 }
    ensures bounded { IfOk result (λ new. length new ≤ 8) }
    ensures value { IfOk result (λ new. mentioned names.now (map (λ w. w.now) objects.now) ≡ names.now ++ new) }
{
    let mut new = Names::new(alloc);
    for object in objects {
        let name = text(object);
        if names.find(name).is_none() {
            new.add(name)?;
        }
    }
    Ok(new)
}

/// Mentions the objects in order, and writes their numbers, at most eight.
pub fn mention(objects: &[&[u8]], names: &mut Names, numbers: &mut [u32; 8]) -> Result<(), NoMemory>
    requires objects { IsTrue (list_all is_object (map (λ w. w.now) objects.now)) }
    requires bounded { length objects.now ≤ 8 }
    requires room { length names.old ≤ most_objects }
    ensures ok { OnOk result (names.new ≡ mentioned names.old (map (λ w. w.now) objects.now)) }
    ensures numbers { OnOk result (take (length objects.now) numbers.new
        ≡ numbers_of names.old (map (λ w. w.now) objects.now)) }
    ensures err { OnErr result (IsExtension names.old names.new) }
{
    for (i, object) in objects.iter().enumerate() {
        numbers[i] = mention_one(object, names)?;
    }
    Ok(())
}

/// Mentions an object, and gives its number.
fn mention_one(object: &[u8], names: &mut Names) -> Result<u32, NoMemory>
    requires object { IsTrue (is_object object.now) }
    requires room { length names.old < 2 ^ 32 - 1 }
    ensures ok { OnOk result (names.new ≡ with_name names.old object.now) }
    ensures number { IfOk result (λ number. number ≡ number_at_mention names.old object.now) }
    ensures err { OnErr result (names.new ≡ names.old) }
{
    names.add(text(object))
}
