//! The configuration: the edges that a TOML text describes.
ghost use Rattle.std.specs.Prelude.{◌≡◌, ◌≤◌, IfOk, length, true};
ghost use Rattle.toml.specs.View.{table_view};
ghost use Rattle.ev_fabric.specs.Opening.{AreConfigs};
ghost use Rattle.ev_config.specs.Config.{ConfigOf, ServedOf, ServedEdgesOf, ConfigFor, have_cables, view_of, whole_in, edges_of, served_in, served_view};
ghost use Rattle.ev_config.specs.Faults.{edge_items, is_run};
ghost use Rattle.ev_config.specs.Inner.Config.{Reads, IsFirst, Gives};
ghost use Rattle.ev_config.specs.Inner.Faults.{faults_view};
ghost use Rattle.ev_config.specs.declared.config.ConfigRefusal.TheVariants.{NoMemory};

use crate::edges::edges_of;
use crate::faults::FaultyKey;
use crate::schema::{IDLE, PEER_HOLD};
use crate::values::{number, path_at, tables_at};
use crate::walk::walk;
use crate::whole::{Config, ServedConfig, Use};
use arrayvec::ArrayVec;
use ether_wire::Addr;
use std::alloc::{AllocError, Global};
use toml::Table;

/// Why a text is no configuration.
#[derive(Debug, Drop)]
pub enum ConfigRefusal {
    /// The first faulty key.
    Key(String),
    /// The text is no TOML document.
    Text,
    /// There was no memory to read it.
    NoMemory,
}

impl From<AllocError> for ConfigRefusal {
    ghost from_gives = { λ _ e. e ≡ NoMemory };

    fn from(_error: AllocError) -> ConfigRefusal {
        ConfigRefusal::NoMemory
    }
}

/// Returns the document that a text spells.
fn document_of(alloc: Global, text: &str) -> Result<Table, ConfigRefusal>
    ensures { Reads table_view text.now result }
{
    match toml::table_from_str(alloc, text) {
        Ok(table) => Ok(table),
        Err(error) if error.is_memory() => Err(ConfigRefusal::NoMemory),
        Err(_) => Err(ConfigRefusal::Text),
    }
}

/// Refuses a document with faults, by the key of the first.
fn refuse(alloc: Global, faults: &[FaultyKey<'_>]) -> Result<(), ConfigRefusal>
    ensures { IsFirst (faults_view faults.now) result }
{
    match faults {
        [] => Ok(()),
        [first, ..] => Err(ConfigRefusal::Key(String::from_str(alloc, first.key)?)),
    }
}

/// Returns the edges of a document, each of which lists these addresses.
fn edges_in(
    alloc: Global,
    listed: &ArrayVec<Addr, 64>,
    document: &Table,
) -> Result<Config, AllocError>
    ensures { IfOk result (λ c. view_of c
        ≡ edges_of listed.now.items (edge_items (table_view document.now))) }
{
    match tables_at(document, "edge") {
        Some(tables) => edges_of(alloc, listed, tables),
        None => Ok(Config {
            edges: Vec::new(alloc),
            links: Vec::new(alloc),
        }),
    }
}

/// Returns the configuration of a document for a use.
fn whole_in(alloc: Global, wanted: Use, document: &Table) -> Result<Config, ConfigRefusal>
    ensures value { Gives view_of (whole_in wanted (table_view document.now)) result }
    ensures opens { IfOk result (λ c. AreConfigs c.edges.items) }
    ensures cables { IfOk result (λ c. have_cables (is_run wanted) c.links.items ≡ true) }
{
    let found = walk(alloc, wanted, document)?;
    refuse(alloc, found.faults.as_slice())?;
    Ok(edges_in(alloc, &found.names.addresses, document)?)
}

/// Returns the configuration of a document of edges that answer queries while they run.
fn served_in(alloc: Global, document: &Table) -> Result<ServedConfig, ConfigRefusal>
    ensures value { Gives served_view (served_in (table_view document.now)) result }
    ensures opens { IfOk result (λ s. AreConfigs s.config.edges.items) }
    ensures cables { IfOk result (λ s. have_cables true s.config.links.items ≡ true) }
{
    let config = whole_in(alloc, Use::Serve, document)?;
    let control = String::from_str(alloc, path_at(document, "control").unwrap_or(""))?;
    Ok(ServedConfig {
        config,
        control,
        idle: number(document, "idle", IDLE),
        hold: number(document, "peer_hold", PEER_HOLD),
    })
}

/// Returns the configuration that a text spells; for a run each port needs its endpoints or its
/// device.
///
/// # Errors
///
/// The first faulty key, in the order of the definition; `Text` exactly if the text is no TOML
/// document; `NoMemory` if memory is refused.
pub fn config_of(alloc: Global, text: &str, for_run: bool) -> Result<Config, ConfigRefusal>
    ensures value { ConfigOf for_run text.now result }
    ensures opens { IfOk result (λ c. AreConfigs c.edges.items) }
    ensures cables { IfOk result (λ c. have_cables for_run c.links.items ≡ true) }
{
    let document = document_of(alloc, text)?;
    whole_in(alloc, if for_run { Use::Run } else { Use::Any }, &document)
}

/// Returns the configuration of a text for edges that answer queries while they run: that of a run,
/// with the path of a Unix socket at the key `control`, the seconds after which a silent console is
/// ended at the optional key `idle`, the seconds without a session after which an edge elsewhere is
/// away at the optional key `peer_hold`, and optional peers, which are edges that run elsewhere.
/// Each edge lists all edges and all peers.
///
/// # Errors
///
/// As for `config_of`.
pub fn served_config_of(alloc: Global, text: &str) -> Result<ServedConfig, ConfigRefusal>
    ensures value { ServedOf text.now result }
    ensures opens { IfOk result (λ s. AreConfigs s.config.edges.items) }
    ensures cables { IfOk result (λ s. have_cables true s.config.links.items ≡ true) }
{
    let document = document_of(alloc, text)?;
    served_in(alloc, &document)
}

/// Returns the edges of the configuration of `served_config_of`.
fn served_edges_of(alloc: Global, text: &str) -> Result<Config, ConfigRefusal>
    ensures { ServedEdgesOf text.now result }
{
    match served_config_of(alloc, text) {
        Ok(served) => {
            let ServedConfig {
                config,
                control: _path,
                idle: _seconds,
                hold: _seconds_of_peers,
            } = served;
            Ok(config)
        }
        Err(refusal) => Err(refusal),
    }
}

/// Returns the configuration that a text spells for a use.
///
/// # Errors
///
/// As for `config_of`.
pub fn config_for(alloc: Global, text: &str, wanted: Use) -> Result<Config, ConfigRefusal>
    ensures { ConfigFor wanted text.now result }
{
    match wanted {
        Use::Any => config_of(alloc, text, false),
        Use::Run => config_of(alloc, text, true),
        Use::Serve => served_edges_of(alloc, text),
    }
}
