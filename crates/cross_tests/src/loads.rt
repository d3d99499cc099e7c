// The schedule of a seed is played by the web server of a site of one file. Its line was worked out without this code.
use file_tree::Site;
use link_replay::play;
use std::test::Fail;
use uip_edge::MemSink;
use workload::make;

const IMAGE: &[u8] = b"UIPSITE1\0\x01\x0b/index.html\0\0\0\x06hello\n";

#[test]
fn a_made_schedule_is_played(rt: HostRuntime) -> Result<(), Fail> {
    let alloc = rt.alloc();
    let (Ok(site), Ok(schedule)) = (Site::read(alloc, IMAGE), make(alloc, 7, 16)) else {
        return Err("no memory".into());
    };
    let Ok(world) = play(alloc, &schedule, site) else {
        return Err("no memory".into());
    };
    let Ok(mut sink) = MemSink::new(alloc, 4096, Vec::new(alloc)) else {
        return Err("no memory".into());
    };
    assert!(rt; world.summary(&mut sink).is_ok());
    let expected: &[u8] =
        b"closed 11 open 2 reset 1 other 2 stale 0 bytes 1023 datagrams 249 again 48\n";
    assert_eq!(rt; sink.written(), expected);
    Ok(())
}
