use jm_model::Binding;

/// A monitor of one instance.
#[derive(Drop)]
pub struct Stored<S> {
    /// The instance.
    pub instance: Binding,
    /// The state, which stands for the instance's slice.
    pub state: S,
}
