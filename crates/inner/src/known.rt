// Numbers that are known to be below the lengths of the arrays.
ghost use Rattle.std.specs.Prelude.{◌<◌};

use plant::Element;
use ranks::Client;
use rules::ClientState;

// An element that has a cell.
#[derive(Clone, Copy)]
pub struct KnownElement {
    pub element: Element,
    ghost known: { element.0 < 256 },
}

// A client and the state to which its call leads.
#[derive(Clone, Copy)]
pub struct Turn {
    pub client: Client,
    pub after: ClientState,
    ghost known: { client.0 < 16 },
}
