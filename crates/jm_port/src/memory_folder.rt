//! Folders whose files are in memory.
ghost use Rattle.std.specs.Prelude.{◌≡◌, ◌<◌, ◌≤◌, ◌↔◌, ◌⊎◌, ◌≢◌, [], true, false, length, Contains, IfOk, IfSome, IsNone, IsErrOf, unwrap_or, IsSomeAnd, Some};
ghost use Rattle.jm_port.specs.Files.{held_by, after_load};

use crate::folder::{Folder, LoadFault};
use std::marker::Model;

/// Files in memory by their names, seen as a list. The first of a name counts.
#[derive(Drop)]
struct Files {
    list: Vec<(String, Vec<u8>)>,
}

impl Model for Files {
    ghost use Rattle.std.specs.Prelude.{List, map, string_bytes};
    ghost use Rattle.jm_port.specs.Files.{MemoryFile};

    ghost Value = { List MemoryFile };

    ghost view = { λ f. map (λ file. record { name = string_bytes file.0; bytes = file.1.items }) f.list.items };
}

impl Files {
    /// A copy of the bytes of the first file of a name, unless there are more than `limit`. It fails where there is none.
    fn load(&self, name: &str, limit: usize) -> Result<Vec<u8>, LoadFault>
        ensures whole { IfOk result (λ bytes. held_by self.now name.now ≡ Some bytes.items) }
        ensures within { IfOk result (λ bytes. length bytes.items ≤ limit) }
        ensures too_long { result ≡ Err LoadFault.TooLong
            → IsSomeAnd (held_by self.now name.now) (λ held. limit < length held) }
        ensures failed { result ≡ Err LoadFault.Failed → IsNone (held_by self.now name.now) }
        ensures some { IsNone (held_by self.now name.now) → result ≡ Err LoadFault.Failed }
    {
        for file in &self.list {
            if file.0.as_str() == name {
                if file.1.len() > limit {
                    return Err(LoadFault::TooLong);
                }
                return Ok(file.1.to_vec(*self.list.allocator())?);
            }
        }
        Err(LoadFault::Failed)
    }
}

/// Files in memory, some of whose loads fail, so that a caller's failures can be tried.
#[derive(Drop)]
pub struct MemoryFolder {
    files: Files,
    fail: Vec<u64>,
    calls: u64,
    faults: u64,
}

impl Model for MemoryFolder {
    ghost use Rattle.jm_port.specs.Files.{MemoryFiles};

    ghost Value = { MemoryFiles };

    ghost view = { λ f. record { files = f.files; fail = f.fail.items; calls = f.calls; faults = f.faults } };
}

impl MemoryFolder {
    ghost use Rattle.std.specs.Prelude.{map, string_bytes};

    /// A folder of these files, whose loads fail where their numbers, counted from 0, stand in `fail`. Of two files
    /// of one name the first counts. A load of a name that isn't there fails, too.
    pub fn new(files: Vec<(String, Vec<u8>)>, fail: Vec<u64>) -> MemoryFolder
        ensures files { result.files ≡ map
            (λ file. record { name = string_bytes file.0; bytes = file.1.items }) files.items }
        ensures fail { result.fail ≡ fail.items }
        ensures calls { result.calls ≡ 0 }
        ensures faults { result.faults ≡ 0 }
    {
        MemoryFolder {
            files: Files { list: files },
            fail,
            calls: 0,
            faults: 0,
        }
    }
}

impl Folder for MemoryFolder {
    ghost holds = { λ f name. held_by f.files name };

    ghost faults = { λ f. f.faults };

    fn load(&mut self, name: &str, limit: usize) -> Result<Vec<u8>, LoadFault>
        ensures within { IfOk result (λ bytes. length bytes.items ≤ limit) }
        ensures whole { IfOk result (λ bytes. IfSome (held_by self.old.files name.now) (λ held. bytes.items ≡ held)) }
        ensures too_long { result ≡ Err LoadFault.TooLong
            → IfSome (held_by self.old.files name.now) (λ held. limit < length held) }
        ensures never_falls { self.old.faults ≤ self.new.faults }
        ensures fails_where { IsErrOf result LoadFault.Failed
            ↔ (Contains self.old.fail self.old.calls ⊎ IsNone (held_by self.old.files name.now)) }
        ensures after_failed { result ≡ Err LoadFault.Failed → self.new ≡ after_load self.old true }
        ensures after { result ≢ Err LoadFault.Failed → self.new ≡ after_load self.old false }
    {
        let call = self.calls;
        self.calls = call.saturating_add(1);
        let loaded = if self.fail.contains(&call) {
            Err(LoadFault::Failed)
        } else {
            self.files.load(name, limit)
        };
        if let Err(LoadFault::Failed) = loaded {
            self.faults = self.faults.saturating_add(1);
        }
        loaded
    }
}

/// Files in memory whose loads never fail: a name that isn't there holds no bytes.
#[derive(Drop)]
pub struct SureFolder {
    files: Files,
}

impl Model for SureFolder {
    ghost use Rattle.std.specs.Prelude.{List};
    ghost use Rattle.jm_port.specs.Files.{MemoryFile};

    ghost Value = { List MemoryFile };

    ghost view = { λ f. f.files };
}

impl SureFolder {
    ghost use Rattle.std.specs.Prelude.{map, string_bytes};

    /// A folder of these files. Of two files of one name the first counts.
    pub fn new(files: Vec<(String, Vec<u8>)>) -> SureFolder
        ensures { result ≡ map (λ file. record { name = string_bytes file.0; bytes = file.1.items }) files.items }
    {
        SureFolder {
            files: Files { list: files },
        }
    }
}

impl Folder for SureFolder {
    ghost holds = { λ f name. Some (unwrap_or (held_by f name) []) };

    ghost faults = { λ _. 0 };

    fn load(&mut self, name: &str, limit: usize) -> Result<Vec<u8>, LoadFault> {
        match self.files.load(name, limit) {
            Err(LoadFault::Failed) => Ok(Vec::new(*self.files.list.allocator())),
            loaded => loaded,
        }
    }
}
