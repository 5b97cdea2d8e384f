//! The information rules (17.27): how a port takes over information about the tree from a received
//! message.

ghost use Rattle.std.specs.Prelude.{◌≡◌};
ghost use Rattle.rstp_state.specs.Port.{is_current, is_mine, is_out};
ghost use Rattle.rstp_state.specs.Vector.{is_less};
ghost use Rattle.rstp_run.specs.Information.{
  message_has,
  rst_has,
  vector_or,
  with_proposal,
  with_change_flags,
  info_time,
  with_info_time,
  with_message_info,
  with_info,
  aging,
  keeps_agreed,
  keeps_agree,
  may_take,
  with_superior_flags,
  with_answer,
};
ghost use Rattle.rstp_run.specs.Information.{
  disabled_guard,
  disabled_effect,
  drop_guard,
  drop_effect,
  enabled_guard,
  enabled_effect,
  update_guard,
  update_effect,
  aged_guard,
  aged_effect,
  superior_guard,
  superior_effect,
  repeated_guard,
  repeated_effect,
  inferior_guard,
  inferior_effect,
  not_designated_guard,
  not_designated_effect,
  other_guard,
  other_effect,
};

use crate::class::class_of;
use bpdu_wire::{
    AGREEMENT, Bpdu, CHANGE_ACKNOWLEDGEMENT, LEARNING, Message, PROPOSAL, TOPOLOGY_CHANGE,
};
use rstp_state::{InfoIs, Information, PortState, Times, Vector, has_flag};

/// Returns `true` if the machine is in its state Disabled.
pub(crate) fn is_out(state: Information) -> bool
    ensures { result ≡ is_out state }
{
    matches!(state, Information::Disabled)
}

/// Returns `true` if the machine is in its state Current.
fn is_current(state: Information) -> bool
    ensures { result ≡ is_current state }
{
    matches!(state, Information::Current)
}

/// Returns `true` if the information is the port's own.
fn is_mine(info: InfoIs) -> bool
    ensures { result ≡ is_mine info }
{
    matches!(info, InfoIs::Mine)
}

/// Returns `true` if a message with fields is stored that has the flag.
fn message_has(flag: u8, message: Option<Bpdu>) -> bool
    ensures { result ≡ message_has flag message }
{
    match message {
        Some(Bpdu::Config(message)) => has_flag(message.flags, flag),
        Some(Bpdu::Rst(message)) => has_flag(message.flags, flag),
        _ => false,
    }
}

/// Returns `true` if a message of the rapid protocol is stored that has the flag.
fn rst_has(flag: u8, message: Option<Bpdu>) -> bool
    ensures { result ≡ rst_has flag message }
{
    match message {
        Some(Bpdu::Rst(message)) => has_flag(message.flags, flag),
        _ => false,
    }
}

/// Sets `proposed` if the message requests an agreement.
fn note_proposal(port: &mut PortState)
    ensures { port.new ≡ with_proposal port.old }
{
    port.proposed = port.proposed || rst_has(PROPOSAL, port.message);
}

/// Records a topology change or an acknowledgement in the message.
fn note_change_flags(port: &mut PortState)
    ensures { port.new ≡ with_change_flags port.old }
{
    port.received_topology_change = port.received_topology_change
        || message_has(TOPOLOGY_CHANGE, port.message);
    port.received_acknowledgement = port.received_acknowledgement
        || message_has(CHANGE_ACKNOWLEDGEMENT, port.message);
}

/// Returns the time in seconds for which a port keeps information with these times (17.21.23,
/// updtRcvdInfoWhile).
fn info_time(times: &Times) -> u32
    ensures { result ≡ info_time times.now }
{
    if times.message_age < times.max_age {
        3 * u32::from(times.hello)
    } else {
        0
    }
}

/// Starts the time for which the port keeps its information.
fn start_info_time(port: &mut PortState)
    ensures { port.new ≡ with_info_time port.old }
{
    port.received_info_while = info_time(&port.port_times);
}

/// Sets the port's vector and times to the message's (17.21.11, recordPriority, recordTimes).
fn take_message_info(port: &mut PortState)
    ensures { port.new ≡ with_message_info port.old }
{
    match port.message {
        Some(Bpdu::Config(message)) => set_info(port, &message),
        Some(Bpdu::Rst(message)) => set_info(port, &message),
        _ => (),
    }
}

/// Sets the port's vector and times to the message's.
fn set_info(port: &mut PortState, message: &Message)
    ensures { port.new ≡ with_info message.now port.old }
{
    port.port_priority = Vector::of_message(message);
    port.port_times = Times::of_message(message);
}

/// Marks the port's information as aged and requests selection again.
fn age(port: &mut PortState)
    ensures { port.new ≡ aging port.old }
{
    port.information = Information::Aged;
    port.info_is = InfoIs::Aged;
    port.reselect = true;
    port.selected = false;
}

/// Returns `true` if the port went down and its machine isn't Disabled yet.
pub(crate) fn disabled_guard(port: &PortState) -> bool
    ensures { result ≡ disabled_guard port.now }
{
    !port.enabled && !is_out(port.information)
}

/// Disables the machine: the port went down.
pub(crate) fn disabled(port: &mut PortState)
    ensures { port.new ≡ disabled_effect port.old }
{
    port.information = Information::Disabled;
    port.received_message = false;
    port.proposing = false;
    port.proposed = false;
    port.agree = false;
    port.agreed = false;
    port.received_info_while = 0;
    port.info_is = InfoIs::Disabled;
    port.reselect = true;
    port.selected = false;
}

/// Returns `true` if a message is pending at a port that is down.
pub(crate) fn drop_guard(port: &PortState) -> bool
    ensures { result ≡ drop_guard port.now }
{
    is_out(port.information) && port.received_message
}

/// Drops the message of a port that is down.
pub(crate) fn drop_message(port: &mut PortState)
    ensures { port.new ≡ drop_effect port.old }
{
    port.received_message = false;
}

/// Returns `true` if the port came up and its machine is still Disabled.
pub(crate) fn enabled_guard(port: &PortState) -> bool
    ensures { result ≡ enabled_guard port.now }
{
    is_out(port.information) && port.enabled
}

/// Starts the machine: the port came up.
pub(crate) fn enabled(port: &mut PortState)
    ensures { port.new ≡ enabled_effect port.old }
{
    age(port);
}

/// Returns `true` if the port has yet to take over its designated vector and times.
pub(crate) fn update_guard(port: &PortState) -> bool
    ensures { result ≡ update_guard port.now }
{
    !is_out(port.information) && port.selected && port.update_info
}

/// Returns `true` if the other end still agrees: it agreed to the port's own vector, which gets no
/// worse.
fn keeps_agreed(port: &PortState) -> bool
    ensures { result ≡ keeps_agreed port.now }
{
    port.agreed && is_mine(port.info_is) && !port.port_priority.is_less(&port.designated_priority)
}

/// Takes over the port's designated vector and times.
pub(crate) fn update(port: &mut PortState)
    ensures { port.new ≡ update_effect port.old }
{
    port.agreed = keeps_agreed(port);
    port.synced = port.synced && port.agreed;
    port.proposing = false;
    port.proposed = false;
    port.port_priority = port.designated_priority;
    port.port_times = port.designated_times;
    port.update_info = false;
    port.info_is = InfoIs::Mine;
    port.new_info = true;
    port.information = Information::Current;
}

/// Returns `true` if received information is too old, and no newer message is pending.
pub(crate) fn aged_guard(port: &PortState) -> bool
    ensures { result ≡ aged_guard port.now }
{
    is_current(port.information)
        && port.info_is.is_received()
        && port.received_info_while == 0
        && !port.update_info
        && !port.received_message
}

/// Marks the received information as too old.
pub(crate) fn aged(port: &mut PortState)
    ensures { port.new ≡ aged_effect port.old }
{
    age(port);
}

/// Returns `true` if a message is pending that may be taken.
pub(crate) fn may_take(port: &PortState) -> bool
    ensures { result ≡ may_take port.now }
{
    is_current(port.information) && port.received_message && !port.update_info
}

/// Returns `true` if a pending message is better information of a designated port.
pub(crate) fn superior_guard(port: &PortState) -> bool
    ensures { result ≡ superior_guard port.now }
{
    may_take(port) && class_of(port).is_superior()
}

/// Returns `true` if the port still agrees: it agreed to received information, and the message's
/// vector is no worse.
fn keeps_agree(port: &PortState) -> bool
    ensures { result ≡ keeps_agree port.now }
{
    port.agree && port.info_is.is_received() && !is_worse(port, port.message)
}

/// Returns `true` if the message's vector is worse than the port's.
fn is_worse(port: &PortState, message: Option<Bpdu>) -> bool
    ensures { result ≡ is_less port.now.port_priority (vector_or port.now.port_priority message) }
{
    match message {
        Some(Bpdu::Config(message)) => port.port_priority.is_less(&Vector::of_message(&message)),
        Some(Bpdu::Rst(message)) => port.port_priority.is_less(&Vector::of_message(&message)),
        _ => port.port_priority.is_less(&port.port_priority),
    }
}

/// Marks the port's information as received from the other end and requests selection again.
fn set_superior_flags(port: &mut PortState)
    ensures { port.new ≡ with_superior_flags port.old }
{
    port.agree = keeps_agree(port);
    port.agreed = false;
    port.proposing = false;
    port.info_is = InfoIs::Received;
    port.reselect = true;
    port.selected = false;
}

/// Takes over better information of a designated port.
pub(crate) fn superior(port: &mut PortState)
    ensures { port.new ≡ superior_effect port.old }
{
    note_proposal(port);
    note_change_flags(port);
    set_superior_flags(port);
    take_message_info(port);
    start_info_time(port);
    port.received_message = false;
}

/// Returns `true` if a pending message repeats the port's information.
pub(crate) fn repeated_guard(port: &PortState) -> bool
    ensures { result ≡ repeated_guard port.now }
{
    may_take(port) && class_of(port).is_repeated()
}

/// Keeps the information that the port already has for another period.
pub(crate) fn repeated(port: &mut PortState)
    ensures { port.new ≡ repeated_effect port.old }
{
    note_proposal(port);
    note_change_flags(port);
    start_info_time(port);
    port.received_message = false;
}

/// Returns `true` if a pending message is worse information of a designated port.
pub(crate) fn inferior_guard(port: &PortState) -> bool
    ensures { result ≡ inferior_guard port.now }
{
    may_take(port) && class_of(port).is_inferior()
}

/// Marks the port as disputed if the message is worse information of a designated port that learns.
pub(crate) fn inferior(port: &mut PortState)
    ensures { port.new ≡ inferior_effect port.old }
{
    if rst_has(LEARNING, port.message) {
        port.disputed = true;
        port.agreed = false;
    }
    port.received_message = false;
}

/// Returns `true` if a pending message is from a root, alternate or backup port.
pub(crate) fn not_designated_guard(port: &PortState) -> bool
    ensures { result ≡ not_designated_guard port.now }
{
    may_take(port) && class_of(port).is_not_designated()
}

/// Records whether an answer on a point to point link is an agreement.
fn take_answer(port: &mut PortState)
    ensures { port.new ≡ with_answer port.old }
{
    if port.point_to_point && message_has(AGREEMENT, port.message) {
        port.agreed = true;
        port.proposing = false;
    } else {
        port.agreed = false;
    }
}

/// Processes the answer of a root, alternate or backup port, which may be an agreement.
pub(crate) fn not_designated(port: &mut PortState)
    ensures { port.new ≡ not_designated_effect port.old }
{
    take_answer(port);
    note_change_flags(port);
    port.received_message = false;
}

/// Returns `true` if any other message is pending.
pub(crate) fn other_guard(port: &PortState) -> bool
    ensures { result ≡ other_guard port.now }
{
    may_take(port) && class_of(port).is_other()
}

/// Processes any other message: records a notification.
pub(crate) fn other(port: &mut PortState)
    ensures { port.new ≡ other_effect port.old }
{
    if let Some(Bpdu::Tcn) = port.message {
        port.received_notification = true;
    }
    port.received_message = false;
}
