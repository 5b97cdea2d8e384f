//! The configuration: the edges that a TOML text describes, or where it is wrong.
#![tactic(auto)]

mod advice;
mod allowed;
mod config;
mod devices;
mod document_table;
mod edges;
mod endpoint;
mod faults;
mod hints;
mod laws;
mod message_buffer;
mod refusal;
mod schema;
mod seen_names;
mod summary;
mod values;
mod walk;
mod whole;

pub use config::{ConfigRefusal, config_for, config_of, served_config_of};
pub use endpoint::{Endpoint, PortEndpoints};
pub use laws::readings_agree;
pub use refusal::put_refusal;
pub use summary::put_summary;
pub use whole::{Config, ServedConfig, Use};

#[cfg(test)]
mod tests;
