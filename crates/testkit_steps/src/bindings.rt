use jm_model::Binding;
use std::alloc::{AllocError, Global};
use testkit::{byte_of, number_of, put};

/// The binding of a text such as `0=7,1=9`.
pub fn binding_of(text: &str) -> Binding {
    let mut binding = Binding::empty();
    for pair in text.split(',') {
        if let Some((p, object)) = pair.split_once('=') {
            binding = with_pair(binding, byte_of(p), number_of(object));
        }
    }
    binding
}

/// The binding with a pair more, unless its parameter is bound.
pub fn with_pair(binding: Binding, p: u8, object: u32) -> Binding {
    if p < 8 && binding.get(p).is_none() {
        binding.bind(p, object)
    } else {
        binding
    }
}

/// The pairs of a binding, or `-`.
pub fn binding_shown(alloc: Global, binding: &Binding) -> Result<String, AllocError> {
    let mut out = String::new(alloc);
    for p in 0..8 {
        if let Some(object) = binding.get(p) {
            let pair = format!(in alloc; "{p}={object}")?;
            put(&mut out, ',', pair.as_str())?;
        }
    }
    if out.is_empty() {
        out.push('-')?;
    }
    Ok(out)
}
