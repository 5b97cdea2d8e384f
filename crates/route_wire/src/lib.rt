//! Route updates, which of two is newer, and the records that spell them.
#![tactic(auto)]

mod encode;
mod feed;
mod laws;
mod reason;
mod record;
mod refusal;
mod route;
mod stream;
mod text;
mod update;

pub use encode::write;
pub use feed::Feed;
pub use laws::{
    cuttings_agree, every_cutting, key_or_other, keys_in_order, never_equally_new,
    newer_not_earlier, newest_first, next_newer, no_record_begins_another, not_newer_earlier,
    not_newer_itself, not_newer_lower, one_reading,
};
pub use reason::{
    BAD_KIND, BAD_LENGTH, BAD_MAC, BAD_MAGIC, BAD_ROUTE, BAD_VERSION, COUNTER_ZERO, LABEL_MISMATCH,
    MULTIHOMED, NO_MEMORY, OWN_NAME_AHEAD, RD_MISMATCH, TAG_UNSUPPORTED, UNKNOWN_ORIGINATOR,
    UNKNOWN_TYPE,
};
pub use record::read_one;
pub use stream::{Answer, Next, Truncated, Whole, whole_of};
pub use update::{Addr6, Advert, Content, Ip, Key, Register, Update, Value};

#[cfg(test)]
mod tests;
