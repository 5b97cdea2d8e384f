//! Tables of route updates: each register's newest value, and the owner of a MAC address.
#![tactic(auto)]

mod after;
mod flood;
mod group;
mod groups;
mod large_group;
mod laws;
mod names;
mod owner;
mod packed_update;
mod page;
mod page_laws;
mod place;
mod register_key;
mod report;
mod running_report;
mod salt;
mod seen_update;
mod small_group;
mod subject;
mod table;
#[cfg(test)]
mod tests;
mod updates;
mod winner_tree;

pub use laws::{
    all_taken, all_updates_are, equal_reports, flood_is, join_associates, join_commutes, join_is,
    join_of_tables, join_repeats, merge_completes, newer_stands, none_taken, one_joined, one_owner,
    one_table, one_taken, others_stay, owner_along, owner_is, same_owner, updates_of_are,
};
pub use owner::{advert_in, is_better};
pub use page::UpdatePage;
pub use page_laws::{pages_ascend, pages_of_one, register_stays};
pub use register_key::RegisterKey;
pub use running_report::RunningReport;
pub use salt::Salted;
pub use table::{Table, TakeError, Taken, Unmerged};
pub use updates::{Updates, UpdatesOf};
