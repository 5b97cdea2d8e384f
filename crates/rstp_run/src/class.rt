//! The class of a received message at its port (17.21.8).

ghost use Rattle.std.specs.Prelude.{◌≡◌};
ghost use Rattle.rstp_run.specs.Class.{designated_class, answering_class, is_answer, rst_class, class_of};

use bpdu_wire::{Bpdu, Message, SenderRole};
use rstp_state::{PortState, Times, Vector, superior as is_superior_to};

/// The class of a received message at its port (17.21.8).
#[derive(Clone, Copy, Debug, PartialEq, Eq)]
pub(crate) enum Class {
    /// Better information of a designated port.
    Superior,
    /// The information that the port already has.
    Repeated,
    /// Worse information of a designated port.
    Inferior,
    /// The answer of a root, alternate or backup port.
    NotDesignated,
    /// Any other message, including a notification.
    Other,
}

impl Class {
    ghost use Rattle.rstp_run.specs.Class.{
      is_superior,
      is_repeated,
      is_inferior,
      is_not_designated,
      is_other,
    };

    /// Returns `true` if the message is better information.
    pub(crate) fn is_superior(self) -> bool
        ensures { result ≡ is_superior self }
    {
        matches!(self, Class::Superior)
    }

    /// Returns `true` if the message is the information that the port has.
    pub(crate) fn is_repeated(self) -> bool
        ensures { result ≡ is_repeated self }
    {
        matches!(self, Class::Repeated)
    }

    /// Returns `true` if the message is worse information.
    pub(crate) fn is_inferior(self) -> bool
        ensures { result ≡ is_inferior self }
    {
        matches!(self, Class::Inferior)
    }

    /// Returns `true` if the message is an answer.
    pub(crate) fn is_not_designated(self) -> bool
        ensures { result ≡ is_not_designated self }
    {
        matches!(self, Class::NotDesignated)
    }

    /// Returns `true` if the message has no other class.
    pub(crate) fn is_other(self) -> bool
        ensures { result ≡ is_other self }
    {
        matches!(self, Class::Other)
    }
}

/// Returns the class of a designated port's message.
fn designated_class(port: &PortState, message: &Message) -> Class
    ensures { result ≡ designated_class port.now message.now }
{
    let vector = Vector::of_message(message);
    let times = Times::of_message(message);
    if is_superior_to(&vector, &times, &port.port_priority, &port.port_times) {
        return Class::Superior;
    }
    if vector == port.port_priority && times == port.port_times && port.info_is.is_received() {
        return Class::Repeated;
    }
    if port.port_priority.is_less(&vector) {
        Class::Inferior
    } else {
        Class::Other
    }
}

/// Returns the class of a root, alternate or backup port's message.
fn answering_class(port: &PortState, message: &Message) -> Class
    ensures { result ≡ answering_class port.now message.now }
{
    if Vector::of_message(message).is_less(&port.port_priority) {
        Class::Other
    } else {
        Class::NotDesignated
    }
}

/// Returns `true` if the sender's role is Alternate, Backup or Root.
fn is_answer(role: SenderRole) -> bool
    ensures { result ≡ is_answer role }
{
    matches!(role, SenderRole::AlternateOrBackup | SenderRole::Root)
}

/// Returns the class of a message of the rapid protocol.
fn rst_class(port: &PortState, message: &Message) -> Class
    ensures { result ≡ rst_class port.now message.now }
{
    if is_answer(message.role()) {
        answering_class(port, message)
    } else {
        designated_class(port, message)
    }
}

/// Returns the class of the stored message.
pub(crate) fn class_of(port: &PortState) -> Class
    ensures { result ≡ class_of port.now }
{
    match &port.message {
        Some(Bpdu::Config(message)) => designated_class(port, message),
        Some(Bpdu::Rst(message)) => rst_class(port, message),
        _ => Class::Other,
    }
}
