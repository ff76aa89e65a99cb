//! Catalogs of a few words.
use jm_model::SpecError;
use jm_script::Catalog;
use std::alloc::Global;
use testkit_tokens::table_of;

/// The catalog of a text such as `Iter c i create=3 next=2 ; Lock l take=1`: of each specification its name, its
/// parameters, and its events, each with the mask of what it binds.
pub(crate) fn catalog_of(alloc: Global, text: &str) -> Result<Catalog, SpecError> {
    let mut catalog = Catalog::new(alloc);
    for part in text.split(';') {
        let part = part.trim();
        let (name, rest) = part.split_once(' ').unwrap_or((part, ""));
        let table = table_of(alloc, rest)?;
        if catalog.len() < 16 {
            catalog.add(name, table)?;
        }
    }
    Ok(catalog)
}
