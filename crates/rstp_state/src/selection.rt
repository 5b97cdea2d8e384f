//! Selection of the root and of the ports' roles (IEEE 802.1D-2004, 17.21.25).

ghost use Rattle.std.specs.Prelude.{◌≡◌, map};
ghost use Rattle.std.specs.List.{enumerate_from};
ghost use Rattle.rstp_state.specs.Selection.{own_root, own_path, is_told, path_through, best_path, IsLeastOf, candidates, times_beyond, root_along, designated_vector, designated_times, role_by, updates_by, with_choice, is_through, selected_root, selected_ports};

use crate::port::{InfoIs, PortState, Role};
use crate::start::Settings;
use crate::vector::{Times, Vector};
use bpdu_wire::PortId;

#[cfg(test)]
mod tests;

/// The root that a bridge selected: the vector of the bridge's path there, and the root's times in
/// seconds, as the bridge sends them.
#[derive(Clone, Copy, Debug, PartialEq, Eq)]
pub struct Root {
    pub priority: Vector,
    pub times: Times,
}

impl Root {
    /// Returns the root of a bridge that is its own root.
    pub fn own(settings: &Settings) -> Self
        ensures { result ≡ own_root settings.now }
    {
        Root {
            priority: settings.own_vector(PortId::new(0)),
            times: settings.own_times(),
        }
    }
}

/// A path to the root that a bridge may choose. The lesser path is better: vectors decide, then the
/// identifiers of the receiving ports.
#[derive(Clone, Copy, Debug, PartialEq, Eq, PartialOrd, Ord)]
pub struct Path {
    /// The vector of the path, including the cost of the receiving port.
    pub vector: Vector,
    /// The identifier of the receiving port, or 0 if the bridge is the root.
    pub port: PortId,
    /// The place of the receiving port in the list of ports, or `None` if the bridge is the root.
    pub place: Option<usize>,
}

/// Returns the path of a bridge that is the root.
fn own_path(settings: &Settings) -> Path
    ensures { result ≡ own_path settings.now }
{
    let port = PortId::new(0);
    Path {
        vector: settings.own_vector(port),
        port,
        place: None,
    }
}

/// Returns `true` if the port received a root from another bridge.
fn is_told(settings: &Settings, port: &PortState) -> bool
    ensures { result ≡ is_told settings.now port.now }
{
    port.info_is.is_received()
        && port.port_priority.bridge.address() != settings.identifier.address()
}

/// Returns the path through the port. Its cost stops at the greatest number.
fn path_through(port: &PortState, place: usize) -> Path
    ensures { result ≡ path_through place port.now }
{
    let mut vector = port.port_priority;
    vector.cost = vector.cost.saturating_add(port.cost);
    Path {
        vector,
        port: port.identifier,
        place: Some(place),
    }
}

/// Returns the best path to the root: that of the bridge itself, or one through a port.
fn best_path(settings: &Settings, ports: &[PortState]) -> Path
    ensures value { result ≡ best_path settings.now ports.now }
    ensures least { IsLeastOf (candidates settings.now ports.now) result }
{
    let mut best = own_path(settings);
    for (place, port) in ports.iter().enumerate() {
        if is_told(settings, port) {
            best = best.min(path_through(port, place));
        }
    }
    best
}

impl Times {
    /// Returns the times as the next bridge has them. The message age stops at the greatest number,
    /// which no message reaches.
    fn beyond(&self) -> Times
        ensures { result ≡ times_beyond self.now }
    {
        let mut times = *self;
        times.message_age = times.message_age.saturating_add(1);
        times
    }
}

/// Returns the bridge's root if it chooses this path.
fn root_along(settings: &Settings, ports: &[PortState], path: &Path) -> Root
    ensures { result ≡ root_along settings.now ports.now path.now }
{
    let times = match path.place {
        Some(place) if place < ports.len() => ports[place].port_times.beyond(),
        _ => settings.own_times(),
    };
    Root {
        priority: path.vector,
        times,
    }
}

impl Root {
    /// Returns the vector that the bridge itself sends at the port.
    fn designated_vector(&self, settings: &Settings, port: PortId) -> Vector
        ensures { result ≡ designated_vector settings.now self.now port }
    {
        Vector {
            root: self.priority.root,
            cost: self.priority.cost,
            bridge: settings.identifier,
            port,
        }
    }

    /// Returns the times that the bridge itself sends: the root's times, with the bridge's own
    /// Hello time.
    fn designated_times(&self, settings: &Settings) -> Times
        ensures { result ≡ designated_times settings.now self.now }
    {
        let mut times = self.times;
        times.hello = settings.hello;
        times
    }
}

/// Returns the role of a port. It depends on the source of the port's information, on whether the
/// port is the root port, on whether the bridge sends a better vector than the port's, and on
/// whether the port's information is from this bridge.
fn role_by(info_is: InfoIs, is_root_port: bool, is_better: bool, is_own: bool) -> Role
    ensures { result ≡ role_by info_is is_root_port is_better is_own }
{
    match info_is {
        InfoIs::Disabled => Role::Disabled,
        InfoIs::Aged | InfoIs::Mine => Role::Designated,
        InfoIs::Received => {
            if is_root_port {
                Role::Root
            } else if is_better {
                Role::Designated
            } else if is_own {
                Role::Backup
            } else {
                Role::Alternate
            }
        }
    }
}

/// Returns `true` if the port has to take over the vector and times that the bridge sends: if the
/// port's information is too old, if they differ from the port's own, or if they are better than
/// received information and the port isn't the root port.
fn updates_by(info_is: InfoIs, is_root_port: bool, is_better: bool, is_same: bool) -> bool
    ensures { result ≡ updates_by info_is is_root_port is_better is_same }
{
    match info_is {
        InfoIs::Disabled => false,
        InfoIs::Aged => true,
        InfoIs::Mine => !is_same,
        InfoIs::Received => !is_root_port && is_better,
    }
}

/// Sets the port's role and the vector and times that the bridge sends there.
fn choose(settings: &Settings, root: &Root, is_root_port: bool, port: &mut PortState)
    ensures { port.new ≡ with_choice settings.now root.now is_root_port port.old }
{
    let vector = root.designated_vector(settings, port.identifier);
    let times = root.designated_times(settings);
    let is_better = vector.is_less(&port.port_priority);
    let is_own = port.port_priority.bridge.address() == settings.identifier.address();
    let is_same = port.port_priority == vector && port.port_times == times;
    port.selected_role = role_by(port.info_is, is_root_port, is_better, is_own);
    port.update_info = updates_by(port.info_is, is_root_port, is_better, is_same);
    port.designated_priority = vector;
    port.designated_times = times;
    port.reselect = false;
    port.selected = true;
}

impl Path {
    /// Returns `true` if the path goes through the port at this place.
    fn is_through(&self, place: usize) -> bool
        ensures { result ≡ is_through self.now place }
    {
        match self.place {
            Some(at) => at == place,
            None => false,
        }
    }
}

/// Sets each port's role, given the root and the path to it.
fn choose_all(settings: &Settings, root: &Root, path: &Path, ports: &mut [PortState])
    ensures { ports.new ≡ map (λ e. with_choice settings.now root.now (is_through path.now e.0) e.1)
        (enumerate_from 0 ports.old) }
{
    for place in 0..ports.len() {
        choose(settings, root, path.is_through(place), &mut ports[place]);
    }
}

/// Selects the root and sets each port's role. The root is the least candidate of the bridge itself
/// and its neighbours; the root port is the port through which the bridge reaches it. The vector
/// and times that each port sends follow from the root.
#[tactic(auto, unfolding(crate::specs::Selection::selected_root, crate::specs::Selection::selected_ports))]
pub fn select_roles(settings: &Settings, ports: &mut [PortState]) -> Root
    ensures root { result ≡ selected_root settings.now ports.old }
    ensures ports { ports.new ≡ selected_ports settings.now ports.old }
    ensures least { IsLeastOf (candidates settings.now ports.old)
        (best_path settings.now ports.old) }
{
    let path = best_path(settings, ports);
    let root = root_along(settings, ports, &path);
    choose_all(settings, &root, &path, ports);
    root
}
