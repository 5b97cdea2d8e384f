//! Laws on the answers to queries, as functions that do nothing: the contract is the law.
ghost use Rattle.ev_view.specs.Owners.{OwnerLeads};

/// The first advert in the answer about an address is the owner's, and there is none if no edge
/// owns it.
pub fn owner_leads()
    ensures { OwnerLeads }
{}
