//! The keys of a configuration, a row each: the key, the kind of its value with its range and its
//! default, and the words of its advice. The reader, the faults and the advice go by these rows.

/// A range of numbers: the least, the greatest, the step (0 for none), and the default.
#[derive(Clone, Copy)]
pub(crate) struct Range(
    pub(crate) u64,
    pub(crate) u64,
    pub(crate) u64,
    pub(crate) u64,
);

/// The kind of a key's value.
#[derive(Clone, Copy)]
pub(crate) enum KeyKind {
    /// An IPv4 address that no table before has.
    Address,
    /// The MAC address of one station that no table before has.
    Bridge,
    /// 1 to 64 different VNIs.
    Vnis,
    /// One of the VNIs of the edge.
    Vni,
    /// A number of this range. The key is optional.
    Number(Range),
    /// `true` or `false`. The key is optional, with this default.
    Flag(bool),
    /// An IPv4 address and a UDP port. A port with a device may not have the key, and each other
    /// port of a run needs it.
    Endpoint,
    /// The name of a network device that no port before has. The key is optional, and only a run
    /// may have it.
    Device,
    /// The path of a Unix socket.
    Path,
    /// 1 to 64 tables.
    Tables,
    /// Tables, at most 64 together with those of the edges. The key is optional.
    Peers,
}

/// A key, the kind of its value, and its advice: the allowed values, or what follows a range.
#[derive(Clone, Copy)]
pub(crate) struct Row(
    pub(crate) &'static str,
    pub(crate) KeyKind,
    pub(crate) &'static str,
);

/// The document's own key.
pub(crate) const FILE: [Row; 1] = [EDGES];

/// The document's own keys, if its edges answer queries while they run.
pub(crate) const SERVED: [Row; 5] = [
    EDGES,
    Row(
        "control",
        KeyKind::Path,
        "allowed is the path of a socket, 1 to 107 octets, none of them 0",
    ),
    Row("idle", KeyKind::Number(IDLE), " seconds"),
    Row("peer_hold", KeyKind::Number(PEER_HOLD), " seconds"),
    Row(
        "peer",
        KeyKind::Peers,
        "allowed are tables, each written as [[peer]], at most 64 with those of [[edge]]",
    ),
];

const EDGES: Row = Row(
    "edge",
    KeyKind::Tables,
    "allowed are 1 to 64 tables, each written as [[edge]]",
);

/// The keys of an edge.
pub(crate) const EDGE: [Row; 14] = [
    Row(
        "address",
        KeyKind::Address,
        "allowed is an IPv4 address that no edge before has, as '10.0.0.1'",
    ),
    Row(
        "bridge",
        KeyKind::Bridge,
        "allowed is a MAC address of one station that no edge before has, as '02:aa:00:00:00:01'",
    ),
    Row("vnis", KeyKind::Vnis, ""),
    Row("priority", KeyKind::Number(PRIORITY), ""),
    Row("hello", KeyKind::Number(HELLO), ""),
    Row(
        "max_age",
        KeyKind::Number(MAX_AGE),
        ", at least 2 * (hello + 1), at most 2 * (forward_delay - 1)",
    ),
    Row("forward_delay", KeyKind::Number(FORWARD_DELAY), ""),
    Row("hold", KeyKind::Number(HOLD), ""),
    Row("ageing", KeyKind::Number(AGEING), ""),
    Row("capacity", KeyKind::Number(CAPACITY), ""),
    Row("buckets", KeyKind::Number(BUCKETS), ""),
    Row("salt", KeyKind::Number(SALT), ""),
    Row("incarnation", KeyKind::Number(INCARNATION), ""),
    Row(
        "port",
        KeyKind::Tables,
        "allowed are 1 to 64 tables, each written as [[edge.port]]",
    ),
];

/// The keys of a port.
pub(crate) const PORT: [Row; 12] = [
    Row("vni", KeyKind::Vni, "allowed is one of the edge's vnis"),
    Row("cost", KeyKind::Number(COST), ""),
    Row("priority", KeyKind::Number(PORT_PRIORITY), ""),
    Row("admin_edge", KeyKind::Flag(false), FLAG),
    Row("auto_edge", KeyKind::Flag(true), FLAG),
    Row("point_to_point", KeyKind::Flag(true), FLAG),
    Row("stations", KeyKind::Number(STATIONS), ""),
    Row("new_stations", KeyKind::Number(NEW_STATIONS), ""),
    Row("storm", KeyKind::Number(STORM), ""),
    Row("local", KeyKind::Endpoint, PLACE),
    Row("remote", KeyKind::Endpoint, PLACE),
    Row(
        "device",
        KeyKind::Device,
        "allowed is the name of a device that no port before has, \
1 to 15 letters, digits, '.', '-' and '_', as 'tap0'",
    ),
];

/// The key of a peer.
pub(crate) const PEER: [Row; 1] = [Row(
    "address",
    KeyKind::Address,
    "allowed is an IPv4 address that no edge and no peer before has, as '10.0.0.9'",
)];

/// The seconds after which a console is ended that sends nothing.
pub(crate) const IDLE: Range = Range(1, 86_400, 0, 300);
/// The seconds without a session after which an edge elsewhere is away; with 0 none ever is.
pub(crate) const PEER_HOLD: Range = Range(0, 86_400, 0, 90);
/// The priority of a bridge.
pub(crate) const PRIORITY: Range = Range(0, 61_440, 4096, 32_768);
/// The seconds between two messages.
pub(crate) const HELLO: Range = Range(1, 2, 0, 2);
/// The maximum age of a message, in seconds.
pub(crate) const MAX_AGE: Range = Range(6, 40, 0, 20);
/// The delay of a port before each step to forwarding, in seconds.
pub(crate) const FORWARD_DELAY: Range = Range(4, 30, 0, 15);
/// The maximum number of messages in a second.
pub(crate) const HOLD: Range = Range(1, 10, 0, 6);
/// The ageing time of an entry that isn't refreshed, in seconds.
pub(crate) const AGEING: Range = Range(10, 1_000_000, 0, 300);
/// The maximum number of learnt stations.
pub(crate) const CAPACITY: Range = Range(1, 65_536, 0, 1024);
/// The number of buckets of the learning table; if it is missing, the capacity.
pub(crate) const BUCKETS: Range = Range(1, 65_536, 0, 1024);
/// The salt that keeps a stranger from choosing the buckets.
pub(crate) const SALT: Range = Range(0, 0x7fff_ffff_ffff_ffff, 0, 0);
/// The incarnation in which the edge begins.
pub(crate) const INCARNATION: Range = Range(0, 0xffff_ffff, 0, 0);
/// The number of a network.
pub(crate) const VNI: Range = Range(0, 0xff_ffff, 0, 0);
/// The cost of a port.
pub(crate) const COST: Range = Range(1, 200_000_000, 0, 20_000);
/// The priority of a port.
pub(crate) const PORT_PRIORITY: Range = Range(0, 240, 16, 128);
/// The maximum number of stations at a port.
pub(crate) const STATIONS: Range = Range(1, 65_536, 0, 512);
/// The maximum number of new stations that a port brings in 60 seconds.
pub(crate) const NEW_STATIONS: Range = Range(1, 0xffff_ffff, 0, 256);
/// The maximum number of group and unknown frames of a port in a second; with 0 there is none.
pub(crate) const STORM: Range = Range(0, 0xffff_ffff, 0, 0);

const FLAG: &'static str = "allowed are true and false";

const PLACE: &'static str = "allowed is an IPv4 address with a UDP port, as '127.0.0.1:5000'";
