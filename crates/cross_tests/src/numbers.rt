// Calls that return a number, against values that were worked by hand.
use packet_buffer::Packet;
use std::test::Fail;
use uip_slip::encoded_len;
use uip_wire::Seq;

#[test]
fn a_distance_passes_the_highest_number(rt: HostRuntime) {
    assert_eq!(rt; Seq(5).distance(Seq(0xFFFF_FFFE)), 7);
    assert_eq!(rt; Seq(0xFFFF_FFFE).distance(Seq(5)), 0xFFFF_FFF9);
}

#[test]
fn a_packet_has_the_size_of_its_area(rt: HostRuntime) -> Result<(), Fail> {
    let Ok(packet) = Packet::new(rt.alloc(), 44) else {
        return Err("no memory".into());
    };
    assert_eq!(rt; packet.size(), 44);
    assert_eq!(rt; packet.bytes().len(), 0);
    Ok(())
}

// END before and after, and two bytes for each END and each ESC.
#[test]
fn a_frame_is_longer_by_its_marks(rt: HostRuntime) {
    assert_eq!(rt; encoded_len(&[]), 2);
    assert_eq!(rt; encoded_len(&[0x45, 0xC0, 0xDB, 0xDC, 0xDD]), 9);
}
