//! Reading a whole script.
ghost use Rattle.std.specs.Prelude.{◌≡◌, ◌<◌, ◌≤◌, ◌^◌, ◌-◌, length, IfOk, IfErr, OnOk};
ghost use Rattle.jm_script.specs.Meanings.{most_steps, RisesFrom, script_meaning};
ghost use Rattle.jm_script.specs.Answers.{IsReadWhole, IsLeft, count_left};
ghost use Rattle.jm_script.specs.Fitting.{FitsCatalog};
ghost use Rattle.jm_script.specs.Objects.{most_objects, IsExtension};

use crate::catalog::Catalog;
use crate::compact::CompactScript;
use crate::known::{KnownWords, Scratch};
use crate::line::read_line;
use crate::script::Script;
use crate::statement::{Position, Reader};
use jm_events::Names;
use jm_lines::{behind_line, first_words};
use jm_model::ScriptError;
use std::alloc::Global;

/// Reads a script: adds the names of its new objects, and its number of steps to the count of all scripts.
///
/// The fault is the first of the first line that has one, in this order: `BadLine` where the line has none of the three
/// shapes, `TooManyLines` at the 200,001st step of all scripts, `UnknownSpec`, `UnknownEvent`, `WrongCount` where the
/// event has another number of parameters than the line has objects, and `TooManyObjects` at a 65,537th name.
pub fn read_script(
    alloc: Global,
    bytes: &[u8],
    catalog: &Catalog,
    objects: &mut Names,
    count: &mut u32,
) -> Result<Script, ScriptError>
    requires small { length bytes.now < 2 ^ 32 - 1 }
    requires bounded { (count.old ≤ most_steps) × (length objects.old ≤ most_objects) }
    ensures ok { IfOk result (λ script. IsReadWhole
        (script_meaning catalog.now count.old bytes.now objects.old) count.old script objects.new count.new) }
    ensures fitting { IfOk result (λ script. FitsCatalog catalog.now (length objects.new) script) }
    ensures bounded { OnOk result ((count.new ≤ most_steps) × (length objects.new ≤ most_objects)) }
    ensures grown { OnOk result (length objects.old ≤ length objects.new) }
    ensures rising { IfOk result (λ script. RisesFrom 1 script) }
    ensures err { IfErr result (λ error. IsLeft (script_meaning catalog.now count.old bytes.now objects.old)
        count.old objects.old error objects.new count.new) }
{
    let before = *count;
    let compact = read_compact(alloc, bytes, catalog, objects, count)?;
    let script = Script::whole(alloc, &compact);
    if script.is_err() {
        *count = before;
    }
    Ok(script?)
}

/// Reads a script as `read_script` does, with lines that take less memory.
pub fn read_compact(
    alloc: Global,
    bytes: &[u8],
    catalog: &Catalog,
    objects: &mut Names,
    count: &mut u32,
) -> Result<CompactScript, ScriptError>
    requires small { length bytes.now < 2 ^ 32 - 1 }
    requires bounded { (count.old ≤ most_steps) × (length objects.old ≤ most_objects) }
    ensures ok { IfOk result (λ script. IsReadWhole
        (script_meaning catalog.now count.old bytes.now objects.old) count.old script objects.new count.new) }
    ensures fitting { IfOk result (λ script. FitsCatalog catalog.now (length objects.new) script) }
    ensures bounded { OnOk result ((count.new ≤ most_steps) × (length objects.new ≤ most_objects)) }
    ensures extended { OnOk result (IsExtension objects.old objects.new) }
    ensures rising { IfOk result (λ script. RisesFrom 1 script) }
    ensures err { IfErr result (λ error. IsLeft (script_meaning catalog.now count.old bytes.now objects.old)
        count.old objects.old error objects.new count.new) }
{
    let mut script = CompactScript::new(alloc)?;
    let mut words = Vec::new(alloc);
    let known = KnownWords::new();
    let mut scratch = Scratch {
        known,
        numbers: [0; 8],
    };
    let mut line = 0;
    let mut rest = Some(bytes);
    while let Some(text) = rest {
        line += 1;
        let position = Position {
            line,
            count: *count + script.len() as u32,
        };
        let reader = Reader {
            alloc,
            catalog,
            position,
        };
        let end = first_words(text, &mut words)?;
        rest = behind_line(text, end);
        let action = match read_line(&reader, &words, objects, &mut scratch) {
            Ok(action) => action,
            Err(error) => {
                *count = count_left(error, position.count, *count);
                return Err(error);
            }
        };
        let Some(action) = action else {
            continue;
        };
        script.push(alloc, line, action, &scratch.numbers)?;
    }
    *count += script.len() as u32;
    Ok(script)
}

/// How many steps count after an error: a fault leaves those of the lines before it.
fn count_left(error: ScriptError, steps: u32, before: u32) -> u32
    ensures { result ≡ count_left error steps before }
{
    match error {
        ScriptError::Bad(_) => steps,
        ScriptError::NoMemory => before,
    }
}
