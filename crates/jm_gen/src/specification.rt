//! The two specifications.
ghost use Rattle.std.specs.Prelude.{◌≡◌, IfOk};
ghost use Rattle.jm_gen.specs.Specifications.{unsafe_iter, has_next};

use std::alloc::{AllocError, Global};

pub(crate) fn unsafe_iter(alloc: Global) -> Result<Vec<u8>, AllocError>
    ensures { IfOk result (λ text. text.items ≡ unsafe_iter) }
{
    let mut text = String::new(alloc);
    text.push_str("UnsafeIter(Collection c, Iterator i) {\n")?;
    text.push_str("  event create after(Collection c) returning(Iterator i) :\n")?;
    text.push_str("    call(Iterator Iterable+.iterator()) && target(c) {}\n")?;
    text.push_str(
        "  event update after(Collection c) : call(* Collection+.add*(..)) && target(c) {}\n",
    )?;
    text.push_str("  event next before(Iterator i) : call(* Iterator.next()) && target(i) {}\n")?;
    text.push_str("  ere : create next* update+ next\n")?;
    text.push_str("  @match { }\n")?;
    text.push_str("}\n")?;
    Ok(text.into_bytes())
}

pub(crate) fn has_next(alloc: Global) -> Result<Vec<u8>, AllocError>
    ensures { IfOk result (λ text. text.items ≡ has_next) }
{
    let mut text = String::new(alloc);
    text.push_str("HasNext(Iterator i) {\n")?;
    text.push_str(
        "  event hasnext after(Iterator i) : call(* Iterator.hasNext()) && target(i) {}\n",
    )?;
    text.push_str("  event next before(Iterator i) : call(* Iterator.next()) && target(i) {}\n")?;
    text.push_str("  fsm :\n")?;
    text.push_str("    start [ next -> unsafe hasnext -> safe ]\n")?;
    text.push_str("    safe [ hasnext -> safe, next -> start ]\n")?;
    text.push_str("    unsafe [ next -> unsafe hasnext -> safe ]\n")?;
    text.push_str("    alias match = unsafe\n")?;
    text.push_str("  @match { }\n")?;
    text.push_str("}\n")?;
    Ok(text.into_bytes())
}
