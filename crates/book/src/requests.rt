// What a client asks for, and what is known of it.
ghost use Rattle.std.specs.Prelude.{◌<◌};

use plant::Element;
use ranks::Client;
use rules::LockKind;

// A client asks for a lock on an element.
#[derive(Clone, Copy)]
pub struct Request {
    pub client: Client,
    pub kind: LockKind,
    pub element: Element,
}

// A request of a client that there is, for an element that has a cell.
#[derive(Clone, Copy)]
pub struct Admitted {
    pub request: Request,
    ghost client_known: { request.client.0 < 16 },
    ghost element_known: { request.element.0 < 256 },
}
