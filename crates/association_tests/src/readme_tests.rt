//! The example of the README: one association, by hand.
use element::AeTitle;
use engine::Association;
use negotiate::Config;
use part10::MemoryFiling;
use pdu::MemoryWire;
use std::test::Fail;

#[test]
fn one_association_by_hand(rt: HostRuntime) -> Result<(), Fail> {
    let ae = AeTitle::of_text("DCMBOX").ok_or("no title")?;
    let (max_pdu, max_data) = (Config::DEFAULT_MAX_PDU, Config::DEFAULT_MAX_DATA);
    let config = Config::new(ae, max_pdu, max_data);
    let mut wire = MemoryWire::new(rt.alloc());
    let mut filing = MemoryFiling::new(rt.alloc());
    let mut association = Association::<65536, 1024, 256, 64>::open(&config);
    association.feed(b"GET / HT", &mut wire, &mut filing);
    association.feed(b"TP/1.0\r\n", &mut wire, &mut filing);
    association.closed(&mut wire, &mut filing);
    assert_eq!(rt; wire.sent(), [7u8, 0, 0, 0, 0, 4, 0, 0, 0, 0].as_slice());
    assert_eq!(rt; association.held(), 0);
    Ok(())
}
