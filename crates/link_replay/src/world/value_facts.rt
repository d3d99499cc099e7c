//! What the types of values state.

ghost use Rattle.std.specs.Prelude.{◌<◌, All};
ghost use Rattle.app_events.specs.Prelude.{IsAddr, IsByte};

use uip_wire::Addr;

/// States that an address is four bytes.
pub(crate) fn is_addr(addr: Addr)
    ensures { IsAddr addr }
{
    let [_first, _second, _third, _fourth] = addr.0;
}

/// States that a text is bytes.
pub(crate) fn is_bytes(text: &[u8])
    ensures { All IsByte text.now }
{}

/// States that a number has 16 bits.
pub(crate) fn is_short(number: u16)
    ensures { number < 65536 }
{}
