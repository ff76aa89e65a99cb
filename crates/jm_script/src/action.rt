//! What a line does, as its words say it.
use crate::event::NamedEvent;

/// What a line does: an event, the death of an object, or a disposal pass on a specification. The numbers of an event's
/// objects are told beside it.
#[derive(Clone, Copy)]
pub enum Action {
    Event { event: NamedEvent },
    Death { object: u32 },
    Pass { spec: u8 },
}
