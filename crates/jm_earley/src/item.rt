ghost use Rattle.std.specs.Prelude.{◌≡◌, ◌<◌};
ghost use Rattle.jm_earley.specs.Items.{advanced};

/// An item of a place: the number of a production, how many of its symbols are spelled, and the place where it began.
#[derive(Clone, Copy, Debug, PartialEq, Eq, Hash)]
pub(crate) struct Item {
    pub production: u16,
    pub dot: u8,
    pub origin: u32,
}

/// The item with one symbol more before its dot.
pub(crate) fn advanced(item: Item) -> Item
    requires { item.dot < 32 }
    ensures { result ≡ advanced item }
{
    Item {
        production: item.production,
        dot: item.dot + 1,
        origin: item.origin,
    }
}
