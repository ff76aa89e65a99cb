//! The parameters of a specification, and the instance and the place that a handler runs for: `m=m1,i=i1 0:4`.
ghost use Rattle.std.specs.Prelude.{ℕ, ◌≡◌, ◌<◌, Some, IsTrue, length};
ghost use Rattle.jm_handler.specs.Renderings.{AreNamed};

use jm_events::{EventTable, Names};
use jm_model::{Binding, NoMemory, SpecError};
use std::alloc::Global;

/// What a handler runs for.
#[derive(Drop)]
pub(crate) struct Scene {
    pub instance: Binding,
    pub objects: Names,
    pub caller: u32,
    pub line: u32,
}

/// The table of parameters of these names.
pub(crate) fn table_of(alloc: Global, words: &str) -> Result<EventTable, SpecError> {
    let mut table = EventTable::new(alloc);
    for word in words.split_whitespace() {
        table.add_param(word, 1)?;
    }
    Ok(table)
}

/// What the words say.
pub(crate) fn scene_of(alloc: Global, table: &EventTable, words: &str) -> Result<Scene, NoMemory> {
    let (pairs, place) = words.split_once(' ').unwrap_or((words, ""));
    let (caller, line) = place.split_once(':').unwrap_or((place, ""));
    let mut scene = Scene {
        instance: Binding::empty(),
        objects: Names::new(alloc),
        caller: number(caller),
        line: number(line),
    };
    for pair in pairs.split(',') {
        if let Some((name, object)) = pair.split_once('=') {
            bind(&mut scene, table.param(name), object)?;
        }
    }
    Ok(scene)
}

/// Binds a parameter, if it is there and free.
fn bind(scene: &mut Scene, parameter: Option<u8>, object: &str) -> Result<(), NoMemory> {
    let Some(p) = parameter else { return Ok(()) };
    if p < 8 && scene.objects.len() < 100 && scene.instance.get(p).is_none() {
        let number = scene.objects.add(object)?;
        scene.instance = scene.instance.bind(p, number);
    }
    Ok(())
}

fn number(word: &str) -> u32 {
    word.parse::<u32>().unwrap_or(0)
}

/// Whether each object that is bound has a name.
pub(crate) fn are_named(objects: &Names, instance: &Binding) -> bool
    ensures { IsTrue result → AreNamed objects.now instance.now }
{
    if instance.mask() == 0 {
        return true;
    }
    for p in 0..8 {
        if !is_named(objects, instance.get(p)) {
            return false;
        }
    }
    true
}

fn is_named(objects: &Names, object: Option<u32>) -> bool
    ensures { IsTrue result → (o : ℕ) → object ≡ Some o → o < length objects.now }
{
    match object {
        Some(object) => object < objects.len(),
        None => true,
    }
}
