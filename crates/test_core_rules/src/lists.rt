//! Lists of bindings as words: `[BINDING;..]`.
use jm_model::Binding;
use std::alloc::{AllocError, Global};
use testkit::put;
use testkit_steps::binding_shown;

pub(crate) fn list_shown(alloc: Global, list: &[Binding]) -> Result<String, AllocError> {
    let mut out = String::new(alloc);
    for binding in list {
        let one = binding_shown(alloc, binding)?;
        put(&mut out, ';', one.as_str())?;
    }
    format!(in alloc; "[{out}]")
}
