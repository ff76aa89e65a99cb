//! What the handlers of a property are for.
ghost use Rattle.std.specs.Prelude.{◌≡◌};

use jm_events::Names;

/// The categories of a property's formula, those that are handled, handler by handler, and which handlers reset the
/// property: bit k of `resets` says that handler k does.
pub(crate) struct Handling {
    pub(crate) categories: Names,
    pub(crate) handlers: Names,
    pub(crate) resets: u16,
}

// Written out, so that a drop is one call.
impl Drop for Handling {
    fn drop(self) {
        let Handling {
            categories: _,
            handlers: _,
            resets: _,
        } = self;
    }
}

impl Handling {
    /// The names of the categories that are handled.
    pub(crate) fn into_handlers(self) -> Names
        ensures { result ≡ self.handlers }
    {
        let Handling {
            categories: _,
            handlers,
            resets: _,
        } = self;
        handlers
    }
}
