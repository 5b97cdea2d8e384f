//! The slot of an edge: the answer to the operator's request waits there for the operator.

ghost use Rattle.std.specs.Prelude.{◌≡◌, true, false};
ghost use Rattle.ev_mailboxes.specs.Inner.RequestSlot.{ask_on, collect_from};
ghost use Rattle.ev_mailboxes.specs.declared.request_slot.RequestState.TheVariants.{Free, Answered};

use crate::request::Response;
use std::mem;

/// The state of a slot.
#[derive(Drop)]
enum RequestState {
    /// Nothing: the next request has room.
    Free,
    /// A request was sent to the worker, which hasn't answered it yet.
    Asked,
    /// An answer that the caller hasn't collected yet.
    Answered(Response),
}

/// Room for one request at a time, and for its answer.
#[derive(Drop)]
pub(crate) struct RequestSlot {
    state: RequestState,
    is_closed: bool,
}

impl RequestSlot {
    /// Returns a free and open slot.
    pub(crate) fn new() -> Self
        ensures free { result.state ≡ Free }
        ensures open { result.is_closed ≡ false }
    {
        RequestSlot {
            state: RequestState::Free,
            is_closed: false,
        }
    }

    /// Takes the slot for a request if the slot is free. Returns `true` if it did.
    pub(crate) fn ask(&mut self) -> bool
        ensures asks { (result, self.new.state) ≡ ask_on self.old.state }
        ensures stays { self.new.is_closed ≡ self.old.is_closed }
    {
        if let RequestState::Free = self.state {
            self.state = RequestState::Asked;
            return true;
        }
        false
    }

    /// Puts the answer there.
    pub(crate) fn answer(&mut self, answer: Response)
        ensures answers { self.new.state ≡ Answered answer }
        ensures stays { self.new.is_closed ≡ self.old.is_closed }
    {
        self.state = RequestState::Answered(answer);
    }

    /// Takes the answer, if there is one. After that, the next request has room.
    pub(crate) fn collect(&mut self) -> Option<Response>
        ensures collects { (result, self.new.state) ≡ collect_from self.old.state }
        ensures stays { self.new.is_closed ≡ self.old.is_closed }
    {
        match mem::replace(&mut self.state, RequestState::Free) {
            RequestState::Answered(answer) => Some(answer),
            state => {
                self.state = state;
                None
            }
        }
    }

    /// Closes the slot: the worker answers no more requests.
    pub(crate) fn close(&mut self)
        ensures closed { self.new.is_closed ≡ true }
        ensures stays { self.new.state ≡ self.old.state }
    {
        self.is_closed = true;
    }

    /// Returns `true` if the slot is closed: the worker answers no more requests.
    pub(crate) fn is_closed(&self) -> bool
        ensures { result ≡ self.now.is_closed }
    {
        self.is_closed
    }
}
