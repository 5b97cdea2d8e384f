//! The output of an event.
ghost use Rattle.std.specs.Prelude.{◌≡◌};
ghost use Rattle.ev_edge.specs.Steps.{nothing};

use arrayvec::ArrayVec;
use bpdu_wire::Bpdu;
use ev_mobility::Alert;
use ev_tunnel::Decision;
use route_join::Taken;
use route_wire::Update;

/// The output of an event.
#[derive(Drop)]
pub struct Reply {
    /// The decision on the frame.
    pub decision: Option<Decision>,
    /// The BPDUs to be sent, with their ports' numbers, by ascending ports.
    pub bpdus: ArrayVec<(u8, Bpdu), 64>,
    /// The table's answer to the update.
    pub taken: Option<Taken>,
    /// The own update to be announced.
    pub announced: Option<Update>,
    /// The alert for the operator.
    pub alert: Option<Alert>,
}

impl Reply {
    /// Nothing to tell.
    pub fn nothing() -> Self
        ensures { result ≡ nothing }
    {
        Reply {
            decision: None,
            bpdus: ArrayVec::new(),
            taken: None,
            announced: None,
            alert: None,
        }
    }

    /// Nothing to tell any more, but for the decision.
    pub(crate) fn keep_decision(&mut self)
        ensures { self.new ≡ record nothing { decision = self.old.decision } }
    {
        self.bpdus.clear();
        self.taken = None;
        self.announced = None;
        self.alert = None;
    }

    /// Nothing to tell any more.
    pub(crate) fn clear(&mut self)
        ensures { self.new ≡ nothing }
    {
        self.keep_decision();
        // (to write none clears the octets of a whole decision)
        if self.decision.is_some() {
            self.decision = None;
        }
    }
}
