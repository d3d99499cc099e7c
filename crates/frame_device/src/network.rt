//! The next hop of a datagram (RFC 1122, section 3.3.1.1).

ghost use Rattle.std.specs.Prelude.{◌≡◌};
ghost use Rattle.frame_device.specs.NextHop.{masked, next_hop};

use uip_wire::Addr;

/// The address that no host has.
const NO_ADDRESS: Addr = Addr([0; 4]);

/// Which addresses are on the link of a host, and the router to all others.
#[derive(Clone, Copy, Debug, PartialEq, Eq)]
pub struct Network {
    /// The address mask: an address is on the link if under it, it is the same as that of the host. With 0.0.0.0 every address is.
    pub mask: Addr,
    /// The router, or 0.0.0.0: there is none, and every address is on the link.
    pub router: Addr,
}

impl Network {
    /// Returns the next hop to a target from a host at an address: the target itself if it is on the link, else the router.
    pub fn next_hop(self, own: Addr, target: Addr) -> Addr
        ensures { result.0 ≡ next_hop self own.0 target.0 }
    {
        if self.router == NO_ADDRESS || masked(target, self.mask) == masked(own, self.mask) {
            target
        } else {
            self.router
        }
    }
}

/// Returns an address under a mask.
fn masked(addr: Addr, mask: Addr) -> Addr
    ensures { result.0 ≡ masked addr.0 mask.0 }
{
    let Addr([a, b, c, d]) = addr;
    let Addr([k, l, m, n]) = mask;
    Addr([a & k, b & l, c & m, d & n])
}
