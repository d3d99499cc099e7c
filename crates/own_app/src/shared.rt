//! What all connections share: the open ports, how many connections were opened, and the newest message of the program.

ghost use Rattle.std.specs.Prelude.{◌≡◌, [], false, true};
ghost use Rattle.own_app.specs.OwnRepresents.{message_of};
ghost use Rattle.own_app.specs.OwnSpec.{no_message};
ghost use Rattle.own_app.specs.Ports.{can_listen, with_port};

use crate::ports::is_open_port;
use crate::{MESSAGE_ROOM, MOST_PORTS};
use arrayvec::ArrayVec;

/// A message of the program to one connection.
#[derive(Drop)]
pub struct Message {
    /// The ticket of its connection.
    pub to: u32,
    /// How many messages its connection captured before, modulo 2^32.
    pub number: u32,
    /// How many of the received bytes it answers, which are then dropped.
    pub taken: u32,
    /// Whether the connection closes after it.
    pub last: bool,
    pub text: ArrayVec<u8, MESSAGE_ROOM>,
}

/// What all connections share.
#[derive(Drop)]
pub struct OwnShared {
    /// The open ports. No call of a connection reads them.
    pub ports: ArrayVec<u16, MOST_PORTS>,
    /// How many connections were opened, modulo 2^32: the ticket of the newest.
    pub opened: u32,
    /// The newest message. A connection captures it if it is its own, and the next.
    pub message: Message,
}

impl OwnShared {
    /// Returns what the connections share at first: no port is open, no connection was opened, and no message was written.
    pub fn first() -> OwnShared
        ensures ports { result.ports.items ≡ [] }
        ensures opened { result.opened ≡ 0 }
        ensures none { message_of result.message ≡ no_message }
    {
        OwnShared {
            ports: ArrayVec::new(),
            opened: 0,
            message: Message {
                to: 0,
                number: 0,
                taken: 0,
                last: false,
                text: ArrayVec::new(),
            },
        }
    }

    /// Opens a port. Returns false and changes nothing if it is not open and four others are.
    pub fn listen(&mut self, port: u16) -> bool
        ensures can { result ≡ can_listen port self.old.ports.items }
        ensures opened { result ≡ true → self.new.ports.items ≡ with_port port self.old.ports.items }
        ensures rest { self.new ≡ record self.old { ports = self.new.ports } }
        ensures refused { result ≡ false → self.new ≡ self.old }
    {
        if is_open_port(self.ports.as_slice(), port) {
            return true;
        }
        self.ports.try_push(port).is_ok()
    }
}
