//! The numbers of the reasons why a stream breaks off, or why a record or an update is refused. If
//! several apply, the first is returned: a stream's faults come before the refusals of a whole
//! record, and these before the refusals of the update that the record spells.

// ---- faults of a stream, each at the first octet that shows it

/// One of the first two octets isn't the magic's.
pub const BAD_MAGIC: u8 = 1;
/// The third octet isn't a version that the feed reads.
pub const BAD_VERSION: u8 = 2;
/// The fourth octet neither advertises nor withdraws.
pub const BAD_KIND: u8 = 3;
/// Both octets of the length are there, and it is too low for the version or above the greatest.
pub const BAD_LENGTH: u8 = 4;

// ---- refusals of a whole record

/// There is a route type, and it is neither a MAC's nor a flood list's.
pub const UNKNOWN_TYPE: u8 = 5;
/// Then: the route has no type or no length, a length that isn't listed, a length of its IP address
/// that isn't the one of the route's length; or it ends beyond the record; or anything but one
/// community of an advertised MAC follows it.
pub const BAD_ROUTE: u8 = 6;
/// Then: the route distinguisher isn't of type 1 with the originator's address, or a flood list's
/// router isn't the originator.
pub const RD_MISMATCH: u8 = 7;
/// Then: an advertised MAC with an Ethernet segment identifier that isn't 0.
pub const MULTIHOMED: u8 = 8;
/// Then: the Ethernet Tag isn't 0.
pub const TAG_UNSUPPORTED: u8 = 9;
/// Then: an advertised MAC whose first label isn't the record's VNI.
pub const LABEL_MISMATCH: u8 = 10;
/// Then: the length of a MAC isn't 48 bits, or it is a group address.
pub const BAD_MAC: u8 = 11;
/// Last: the counter is 0.
pub const COUNTER_ZERO: u8 = 14;

// ---- refusals of an update, by its receiver

/// The originator isn't listed.
pub const UNKNOWN_ORIGINATOR: u8 = 12;
/// Then, by an edge: the update is its own advert of this incarnation with a counter that the edge
/// hasn't reached.
pub const OWN_NAME_AHEAD: u8 = 13;
/// Then: memory was refused.
pub const NO_MEMORY: u8 = 15;
