//! BPDUs of a bridge that comes up, as octets in both directions, and each refusal.
use crate::{Bpdu, BridgeId, Message, PortId, SenderRole, read, write};

/// The first message of a designated port of bridge 8000.02:aa:00:00:00:01: the bridge is its own
/// root, and the port proposes.
const FIRST_PROPOSAL: [u8; 36] = [
    0x00, 0x00, 0x02, 0x02, 0x0e, 0x80, 0x00, 0x02, 0xaa, 0x00, 0x00, 0x00, 0x01, 0x00, 0x00, 0x00,
    0x00, 0x80, 0x00, 0x02, 0xaa, 0x00, 0x00, 0x00, 0x01, 0x80, 0x01, 0x00, 0x00, 0x14, 0x00, 0x02,
    0x00, 0x0f, 0x00, 0x00,
];

fn first_proposal() -> Message {
    let bridge = BridgeId::from_parts(0x8000, 0x02aa_0000_0001);
    Message {
        flags: 0x0e,
        root: bridge,
        cost: 0,
        bridge,
        port: PortId::from_parts(0x80, 1),
        message_age: 0,
        max_age: 20 * 256,
        hello: 2 * 256,
        forward_delay: 15 * 256,
    }
}

/// Returns the first proposal with these ages in 1/256 of a second.
fn aged(message_age: u16, max_age: u16) -> [u8; 36] {
    let mut octets = FIRST_PROPOSAL;
    let [a, b] = message_age.to_be_bytes();
    let [c, d] = max_age.to_be_bytes();
    octets[27] = a;
    octets[28] = b;
    octets[29] = c;
    octets[30] = d;
    octets
}

fn refusal(octets: &[u8]) -> Option<u8> {
    read(octets).err().map(|refusal| refusal.number())
}

#[test]
fn four_octets_tell_the_kind(rt: HostRuntime) {
    assert_eq!(rt; read(&[0x00, 0x00, 0x00, 0x80]), Ok(Bpdu::Tcn));
    assert_eq!(rt; refusal(&[0x00, 0x00, 0x00]), Some(1));
    assert_eq!(rt; refusal(&[0x00, 0x01, 0x00, 0x00]), Some(2));
    assert_eq!(rt; refusal(&[0x00, 0x00, 0x00, 0x01]), Some(3));
    assert_eq!(rt; refusal(&[0x00, 0x00, 0x00, 0x02]), Some(4));
    assert_eq!(rt;
        refusal(&[0x00, 0x00, 0x02, 0x00]),
        Some(1),
        "a Config of four octets"
    );
}

#[test]
fn first_proposal_both_ways(rt: HostRuntime) {
    let bpdu = Bpdu::Rst(first_proposal());
    assert_eq!(rt; read(&FIRST_PROPOSAL), Ok(bpdu));
    assert_eq!(rt; write(&bpdu).as_slice(), FIRST_PROPOSAL.as_slice());
    assert_eq!(rt; refusal(&FIRST_PROPOSAL[..35]), Some(1));
}

#[test]
fn multiple_spanning_tree_bpdu_is_read_as_rapid(rt: HostRuntime) {
    let mut octets = [0; 102];
    octets[..36].copy_from_slice(&FIRST_PROPOSAL);
    octets[2] = 3;
    assert_eq!(rt; read(&octets), Ok(Bpdu::Rst(first_proposal())));
}

#[test]
fn ages_decide(rt: HostRuntime) {
    assert_eq!(rt; refusal(&aged(0x1400, 0x1400)), Some(5));
    assert_eq!(rt; refusal(&aged(0xffff, 0xffff)), Some(5));
    assert_eq!(rt; refusal(&aged(0x0000, 0x0001)), None);
    assert_eq!(rt; refusal(&aged(0x0000, 0xff01)), None);
}

#[test]
fn config_of_a_port_is_read(rt: HostRuntime) {
    let mut octets = FIRST_PROPOSAL;
    octets[2] = 0;
    octets[3] = 0;
    octets[4] = 0x81;
    let mut message = first_proposal();
    message.flags = 0x81;
    let bpdu = Bpdu::Config(message);
    assert_eq!(rt; read(&octets[..35]), Ok(bpdu));
    assert_eq!(rt; write(&bpdu).as_slice(), &octets[..35]);
    assert_eq!(rt;
        write(&Bpdu::Tcn).as_slice(),
        [0x00, 0x00, 0x00, 0x80].as_slice()
    );
}

#[test]
fn identifiers_have_their_parts(rt: HostRuntime) {
    let message = first_proposal();
    assert_eq!(rt; message.bridge.number(), 0x8000_02aa_0000_0001);
    assert_eq!(rt; message.bridge.priority(), 32768);
    assert_eq!(rt; message.bridge.address(), 0x02aa_0000_0001);
    assert_eq!(rt; message.port, PortId::new(0x8001));
    assert_eq!(rt; message.port.priority(), 128);
    assert_eq!(rt; message.port.port_number(), 1);
    assert_eq!(rt; message.role(), SenderRole::Designated);
}
