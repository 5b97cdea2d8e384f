//! Taking updates, and announcing own ones.
ghost use Rattle.std.specs.Prelude.{◌≡◌, ◌≢◌, ◌==◌, Some};
ghost use Rattle.ev_claims.specs.Speaker.{announced};
ghost use Rattle.ev_claims.specs.LocalRoutes.{after_announcement};
ghost use Rattle.ev_edge.specs.Edge.{address_of};
ghost use Rattle.ev_edge.specs.Steps.{Takes, TakesOwn, TakesOther, answered, nothing, lost_alert};
ghost use Rattle.ev_edge.specs.Inner.Steps.{own_result};

use crate::edge::Edge;
use crate::refusal::{EdgeRefusal, Refusal};
use crate::reply::Reply;
use ev_claims::OwnError;
use ev_mobility::Alert;
use route_join::{TakeError, Taken};
use route_wire::Update;

/// Tells of an update that was taken.
fn tell_taken(taken: Taken, lost_pinned: bool, reply: &mut Reply)
    ensures { reply.new ≡ record nothing { taken = Some taken; alert = lost_alert lost_pinned } }
{
    reply.clear();
    reply.taken = Some(taken);
    if lost_pinned {
        reply.alert = Some(Alert::LostStatic);
    }
}

/// Tells what became of an update under the edge's own name.
fn tell_own(outcome: Result<Taken, OwnError>, reply: &mut Reply) -> Result<(), Refusal>
    ensures { answered result reply.new ≡ own_result outcome }
{
    match outcome {
        Ok(taken) => {
            tell_taken(taken, false, reply);
            Ok(())
        }
        Err(OwnError::Ahead) => Err(Refusal::Edge(EdgeRefusal::OwnNameAhead)),
        Err(OwnError::Spent) => Err(Refusal::Edge(EdgeRefusal::OwnSpent)),
        Err(OwnError::NoMemory) => Err(Refusal::Edge(EdgeRefusal::NoMemory)),
    }
}

impl Edge {
    /// Takes an update, of another edge or of this one in an earlier incarnation.
    pub(crate) fn take(&mut self, update: &Update, reply: &mut Reply) -> Result<(), Refusal>
        ensures { Takes (update.now.register.originator == address_of self.old) self.old update.now
            (answered result reply.new) self.new }
    {
        if update.register().originator == self.routes.address() {
            self.take_own(update, reply)
        } else {
            self.take_other(update, reply)
        }
    }

    /// Takes another edge's update, and writes the change of this edge into `reply`.
    fn take_other(&mut self, update: &Update, reply: &mut Reply) -> Result<(), Refusal>
        requires { update.now.register.originator ≢ address_of self.old }
        ensures { TakesOther self.old update.now (answered result reply.new) self.new }
    {
        match self.routes.import(update) {
            Ok(heard) => {
                tell_taken(heard.taken, heard.lost_pinned, reply);
                Ok(())
            }
            Err(TakeError::UnknownOriginator) => Err(Refusal::Edge(EdgeRefusal::UnknownOriginator)),
            Err(TakeError::NoMemory) => Err(Refusal::Edge(EdgeRefusal::NoMemory)),
        }
    }

    /// Takes an update of the edge's own address, perhaps of an earlier incarnation.
    fn take_own(&mut self, update: &Update, reply: &mut Reply) -> Result<(), Refusal>
        requires { update.now.register.originator ≡ address_of self.old }
        ensures { TakesOwn self.old update.now (answered result reply.new) self.new }
    {
        self.routes.always_good();
        tell_own(self.routes.import_own(update), reply)
    }

    /// Gives the next own update that isn't announced yet.
    pub(crate) fn announce(&mut self, reply: &mut Reply)
        ensures reply { reply.new ≡ record nothing {
          announced = announced
              self.old.routes.speaker;
        } }
        ensures after { self.new ≡ record self.old { routes = after_announcement self.old.routes } }
    {
        reply.clear();
        reply.announced = self.routes.announce();
    }
}
