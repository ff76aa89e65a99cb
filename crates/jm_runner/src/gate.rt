/// What is told of each line, by many workers at once. A gate may hold a worker up: nothing is promised of when it lets
/// it go.
pub trait Gate: Sync {
    /// The caller is about to do the n-th step line of its script, from 1.
    fn before(&self, caller: u32, n: u32);

    /// The caller has done the n-th step line of its script, from 1.
    fn after(&self, caller: u32, n: u32);
}

/// A gate that does nothing.
pub struct FreeGate;

impl Gate for FreeGate {
    fn before(&self, _caller: u32, _n: u32) {}

    fn after(&self, _caller: u32, _n: u32) {}
}
