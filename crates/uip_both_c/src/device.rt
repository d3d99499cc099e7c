//! The calls of a device, by the definitions of both applications.

ghost use Rattle.std.specs.Prelude.{◌≡◌, ◌<◌, ◌≤◌, false, length, take, true};
ghost use Rattle.app_pair.specs.PairNumbers.{change_own};
ghost use Rattle.frame_device.specs.Prelude.{AnswersFrame, CallsSlot, ChangesNumbers, InputsFrame};
ghost use Rattle.frame_device.specs.contracts.ether.EthernetFrames.TheImpl.{ghosts as ether_link};
ghost use Rattle.own_app.specs.Prelude.{can_listen};
ghost use Rattle.own_node.specs.Prelude.{WritesMessageWith, can_write_at, is_ready_at, pending_at, seen_in_pair};
ghost use Rattle.uip_both_c.specs.Prelude.{OfBoth, OpensPort, InputsOrDrops, both, own_in, own_port_in, ports_of};
ghost use Rattle.uip_device.specs.Prelude.{write_value};

use crate::held::BothEther;
use crate::pages::set_page_value;
use frame_device::LARGEST_OUT;
use own_app::MESSAGE_ROOM;
use own_node::is_for_closed_port_of_pair;

/// Receives the frame of `len` bytes at the start of a buffer, unless it is for a port that is not open. Writes the frame that is sent, if
/// there is one, to the same place. Returns its length.
pub(crate) fn input_or_drop(device: &mut BothEther, frame: &mut [u8], len: usize) -> usize
    requires within { len ≤ length frame.old }
    requires room { LARGEST_OUT ≤ length frame.old }
    ensures long { length frame.new ≡ length frame.old }
    ensures wrote { result ≤ length frame.new }
    ensures inputs { InputsOrDrops (take len frame.old) device.old device.new (take result frame.new) }
{
    if is_for_closed_port_of_pair(device.node.shared.second.ports.as_slice(), &frame[..len]) {
        return 0;
    }
    input_frame(device, frame, len)
}

/// Receives the frame of `len` bytes at the start of a buffer, and writes the frame that is sent, if there is one, to the same place.
/// Returns its length.
fn input_frame(device: &mut BothEther, frame: &mut [u8], len: usize) -> usize
    requires within { len ≤ length frame.old }
    requires room { LARGEST_OUT ≤ length frame.old }
    ensures long { length frame.new ≡ length frame.old }
    ensures wrote { result ≤ length frame.new }
    ensures answers { AnswersFrame both ether_link (InputsFrame (take len frame.old)) device.old device.new (take result frame.new) }
{
    device.input(frame, len)
}

/// Makes the periodic call of a slot, and writes the frame that is sent, if there is one. Returns its length.
pub(crate) fn call_slot(device: &mut BothEther, slot: usize, frame: &mut [u8]) -> usize
    requires slot { slot < 10 }
    requires room { LARGEST_OUT ≤ length frame.old }
    ensures long { length frame.new ≡ length frame.old }
    ensures wrote { result ≤ length frame.new }
    ensures answers { AnswersFrame both ether_link (CallsSlot slot) device.old device.new (take result frame.new) }
{
    device.periodic(slot, frame)
}

/// Opens a port. Returns false and changes nothing if it is not open and four others are.
pub(crate) fn listen(device: &mut BothEther, port: u16) -> bool
    ensures can { result ≡ can_listen port (ports_of device.old) }
    ensures opens { result ≡ true → OpensPort port device.old device.new }
    ensures refused { result ≡ false → device.new ≡ device.old }
{
    device.node.shared.second.listen(port)
}

/// Sets a value of the pages.
pub(crate) fn give(device: &mut BothEther, number: usize, text: &[u8])
    requires number { number < 16 }
    requires short { length text.now ≤ 32 }
    ensures { ChangesNumbers both ether_link (change_own false (write_value number text.now)) device.old device.new }
{
    set_page_value(&mut device.node, number, text);
}

/// Returns whether the connection in a slot captures a message that is written now.
pub(crate) fn is_ready(device: &BothEther, slot: usize) -> bool
    requires { slot < 10 }
    ensures { OfBoth device.now (λ n. result ≡ is_ready_at (own_in slot n)) }
{
    own_node::is_ready(&device.node, slot)
}

/// Returns the port of the connection in a slot; 0 if it is not open, or is open at port 80.
pub(crate) fn own_port(device: &BothEther, slot: usize) -> u16
    requires { slot < 10 }
    ensures { OfBoth device.now (λ n. result ≡ own_port_in slot n) }
{
    own_node::own_port(&device.node, slot)
}

/// Returns what the connection in a slot received and no message has answered.
pub(crate) fn pending(device: &BothEther, slot: usize) -> &[u8]
    requires { slot < 10 }
    ensures { OfBoth device.now (λ n. result.now ≡ pending_at (own_in slot n)) }
{
    own_node::pending(&device.node, slot)
}

/// Writes a message to the connection in a slot. Returns false and changes nothing if it cannot capture the message.
pub(crate) fn write(
    device: &mut BothEther,
    slot: usize,
    taken: usize,
    text: &[u8],
    last: bool,
) -> bool
    requires slot { slot < 10 }
    requires short { length text.now ≤ MESSAGE_ROOM }
    ensures can { OfBoth device.old (λ n. result ≡ can_write_at taken (own_in slot n)) }
    ensures written { result ≡ true
        → WritesMessageWith both seen_in_pair (change_own true) slot taken text.now last device.old.node device.new.node }
    ensures link { device.new.frames ≡ device.old.frames }
    ensures guarded { device.new.guard ≡ device.old.guard }
    ensures refused { result ≡ false → device.new ≡ device.old }
{
    own_node::write(&mut device.node, slot, taken, text, last)
}
