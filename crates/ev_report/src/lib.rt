//! The report of a stream of update records, and the migration of old ones; with the ends, the
//! whole input and the statuses that other programs share with them.
#![tactic(auto)]

mod devices;
mod ending;
mod failures;
mod input;
mod migrate;
mod migration_laws;
mod notes;
mod originators;
mod report;
mod status;
mod stream;
mod usage;

pub use devices::{Buffers, Devices};
pub use ending::Ending;
pub use failures::{Failures, tell_failed};
pub use input::{MOST_READS, ReadError, read_whole};
pub use migrate::migrate_run;
pub use migration_laws::{same_owners, stays_away};
pub use originators::{ListFault, WrongPart, put_wrong_part, read_originators};
pub use report::{has_failed, report_run, status_of};
pub use status::Status;
pub use usage::{StreamUse, tell, tell_list, tell_words, usage_status, use_records};

#[cfg(test)]
mod tests;
