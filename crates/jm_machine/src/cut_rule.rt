//! When an instance of a property is cut.

/// When an instance of a property is cut, since it can never fire again.
#[derive(Clone, Copy)]
pub(crate) enum CutRule {
    /// Where no word that may still follow is hit by a handler.
    Exact,
    /// Only where each letter has a dead parameter: so it is of a grammar with a handler for `fail`.
    Coarse,
}
