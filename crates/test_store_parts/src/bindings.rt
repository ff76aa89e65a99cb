//! What the operations of bindings give.
use jm_model::{Binding, NoMemory};
use std::alloc::{AllocError, Global};
use testkit::{Case, byte_of, number_of, numbers_of, put_line, text_of};
use testkit_steps::{binding_of, binding_shown, with_pair};

/// What each operation of the text's lines gives on the case's binding.
pub(crate) fn binding(alloc: Global, case: &Case) -> Result<String, NoMemory> {
    let binding = binding_of(case.first.as_str());
    let mut out = String::new(alloc);
    for line in text_of(&case.text).lines() {
        let (verb, rest) = line.split_once(' ').unwrap_or((line, ""));
        let given = given(alloc, &binding, verb, rest)?;
        put_line(&mut out, given.as_str())?;
    }
    Ok(out)
}

fn given(alloc: Global, binding: &Binding, verb: &str, rest: &str) -> Result<String, AllocError> {
    match verb {
        "mask" => format!(in alloc; "{}", binding.mask()),
        "get" => format!(in alloc; "{:?}", object_of(binding, byte_of(rest))),
        "le" => format!(in alloc; "{}", binding.le(&binding_of(rest))),
        "compatible" => format!(in alloc; "{}", binding.compatible(&binding_of(rest))),
        "cmp" => format!(in alloc; "{:?}", binding.cmp(&binding_of(rest))),
        _ => binding_shown(alloc, &made(alloc, binding, verb, rest)?),
    }
}

fn object_of(binding: &Binding, p: u8) -> Option<u32> {
    if p < 8 { binding.get(p) } else { None }
}

fn made(alloc: Global, binding: &Binding, verb: &str, rest: &str) -> Result<Binding, AllocError> {
    let (first, others) = rest.split_once(' ').unwrap_or((rest, ""));
    match verb {
        "bind" => Ok(with_pair(*binding, byte_of(first), number_of(others))),
        "join" => Ok(joined(binding, &binding_of(rest))),
        "restrict" => Ok(binding.restrict(byte_of(rest))),
        _ => Ok(of(byte_of(first), &numbers_of(alloc, others)?)),
    }
}

/// The join, or the empty binding where the two are not compatible.
fn joined(binding: &Binding, other: &Binding) -> Binding {
    if binding.compatible(other) {
        binding.join(other)
    } else {
        Binding::empty()
    }
}

/// The binding of a mask's parameters, or the empty one where there are more objects or fewer.
fn of(mask: u8, objects: &[u32]) -> Binding {
    if mask.count_ones() as usize == objects.len() {
        Binding::of(mask, objects)
    } else {
        Binding::empty()
    }
}
