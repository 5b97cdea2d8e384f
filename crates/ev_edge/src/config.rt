//! The configuration of an edge at its opening.
ghost use Rattle.std.specs.Prelude.{◌≡◌, take, length};
ghost use Rattle.ev_edge.specs.Config.{vnis_of, settings_of};

use crate::limits::Limits;
use arrayvec::ArrayVec;
use ether_wire::{Addr, Vni};
use rstp_state::{PortSettings, Settings};

/// An access port.
#[derive(Clone, Copy, Debug, PartialEq, Eq)]
pub struct PortConfig {
    /// The network that the port belongs to.
    pub vni: Vni,
    /// How the spanning tree sees it.
    pub settings: PortSettings,
    /// How many stations may be learnt on it, and how many frames flooded.
    pub limits: Limits,
}

impl Default for PortConfig {
    /// A port of network 0 with the usual settings and without limits.
    fn default() -> Self {
        PortConfig {
            vni: Vni::default(),
            settings: PortSettings {
                priority: 128,
                cost: 20_000,
                admin_edge: false,
                auto_edge: true,
                point_to_point: true,
            },
            limits: Limits::none(),
        }
    }
}

/// The configuration of an edge at its opening.
#[derive(Drop)]
pub struct EdgeConfig {
    /// The address under which the edge speaks. It is one of the originators.
    pub address: Addr,
    /// Which incarnation of this originator begins, from 0.
    pub incarnation: u32,
    /// The originators that the edge listens to: 1 to 64 that all differ.
    pub originators: ArrayVec<Addr, 64>,
    /// The networks that the edge serves, which all differ.
    pub vnis: ArrayVec<Vni, 64>,
    /// The bridge's identifier and times.
    pub tree: Settings,
    /// How many seconds an entry lives that isn't heard again.
    pub ageing: u64,
    /// How many stations may be learnt at a time, 1 to 65,536.
    pub capacity: usize,
    /// How many buckets the learning table has, 1 to 65,536.
    pub buckets: usize,
    /// What keeps a stranger from choosing stations that all fall into one bucket.
    pub salt: u64,
    /// The access ports, port 1 first: 1 to 64, each of one of the networks.
    pub ports: ArrayVec<PortConfig, 64>,
}

/// The network of each port.
pub(crate) fn vnis_of(ports: &ArrayVec<PortConfig, 64>) -> ArrayVec<Vni, 64>
    ensures { result.items ≡ vnis_of ports.now.items }
{
    let mut vnis = ArrayVec::new();
    let ports = ports.as_slice();
    for port in ports {
        vnis.push(port.vni);
    }
    vnis
}

/// Sets how the spanning tree sees each port.
pub(crate) fn set_settings(ports: &ArrayVec<PortConfig, 64>, settings: &mut [PortSettings; 64])
    ensures { take (length ports.now.items) settings.new ≡ settings_of ports.now.items }
{
    let ports = ports.as_slice();
    for (place, port) in ports.iter().enumerate() {
        settings[place] = port.settings;
    }
}
