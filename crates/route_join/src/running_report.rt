//! A report that is written update by update, in the order of a report. It needs no table: it keeps
//! the best advert of the subject that has begun, and writes the owner's line when the next one
//! begins.
ghost use Rattle.std.specs.Prelude.{◌≡◌, Some, OnOk, if◌then◌else◌, []};
ghost use Rattle.ether_wire.specs.Ends.{Puts};
ghost use Rattle.route_join.specs.Owner.{advert_in, better_of};
ghost use Rattle.route_join.specs.Table.{entries_of};
ghost use Rattle.route_join.specs.Subject.{subject_of};
ghost use Rattle.route_join.specs.Inner.Lines.{subject_text};
ghost use Rattle.route_join.specs.RunningReport.{nothing_begun, is_begun, origin_of, owner_text, subject_end, end_text, text_with, begun_at, begun_with, entry_of, texts_with, begun_by};

use crate::names::Names;
use crate::owner::{advert_in, is_better};
use crate::register_key::RegisterKey;
use crate::report::{LINE, put_owner, put_update, subject_text};
use crate::subject::{Subject, subject_of};
use ether_wire::{Addr, Device, Out};
use route_wire::{Advert, Register, Update};
use std::marker::Model;

/// Returns the better of the advert of a register and the best so far, if there is one.
fn better(
    register: &Register,
    advert: &Advert,
    best: &Option<(Register, Advert)>,
) -> (Register, Advert)
    ensures { Some result ≡ better_of register.now (Some advert.now) best.now }
{
    match best {
        None => (*register, *advert),
        Some((leader, other)) => {
            let order = RegisterKey::new(*register).cmp(&RegisterKey::new(*leader));
            if is_better(advert, other, order) {
                (*register, *advert)
            } else {
                (*leader, *other)
            }
        }
    }
}

/// Returns the originator of an advert's register.
fn origin(best: &Option<(Register, Advert)>) -> Option<Addr>
    ensures { result ≡ origin_of best.now }
{
    match best {
        None => None,
        Some((register, _)) => Some(register.originator),
    }
}

/// Returns `true` if this subject has begun.
fn is_begun(begun: &Option<Subject>, subject: &Subject) -> bool
    ensures { result ≡ is_begun begun.now subject.now }
{
    match begun {
        None => false,
        Some(own) => own.cmp(subject).is_eq(),
    }
}

/// Writes the owner's line of a subject, if it is a MAC address.
fn put_end<O: Out>(
    out: &mut O,
    line: &mut [u8; LINE],
    names: &mut Names,
    subject: &Subject,
    best: &Option<(Register, Advert)>,
) -> Result<(), Device>
    ensures { Puts (O.end out.old) (O.end out.new)
        (owner_text subject.now.vni subject.now.mac (origin_of best.now)) result }
{
    match subject.mac() {
        None => Ok(()),
        Some(_) => {
            let text = subject_text(subject);
            put_owner(out, line, names, &text, origin(best))
        }
    }
}

/// A report that is written update by update, seen as the subject that has begun and its best
/// advert so far. It takes no memory.
#[derive(Drop)]
pub struct RunningReport {
    line: [u8; LINE],
    names: Names,
    subject: Option<Subject>,
    best: Option<(Register, Advert)>,
}

impl Model for RunningReport {
    ghost use Rattle.route_join.specs.RunningReport.{Begun};

    ghost Value = { Begun };

    ghost view = { λ r. record { subject = r.subject; best = r.best } };
}

impl RunningReport {
    /// Returns a report in which nothing has been written.
    pub fn new() -> Self
        ensures { result ≡ nothing_begun }
    {
        RunningReport {
            line: [0; LINE],
            names: Names::new(),
            subject: None,
            best: None,
        }
    }

    /// Writes the owner's line of the last MAC address, if there is one. The report is complete
    /// then.
    ///
    /// # Errors
    ///
    /// `Device` if a call of the writer failed.
    pub fn finish<O: Out>(&mut self, out: &mut O) -> Result<(), Device>
        ensures written { Puts (O.end out.old) (O.end out.new) (end_text self.old) result }
        ensures same { self.new ≡ self.old }
    {
        match &self.subject {
            None => Ok(()),
            Some(subject) => put_end(out, &mut self.line, &mut self.names, subject, &self.best),
        }
    }

    /// Writes the owner's line of the subject before, if this one hasn't begun yet.
    fn begin<O: Out>(&mut self, out: &mut O, subject: Subject) -> Result<(), Device>
        ensures written { Puts (O.end out.old) (O.end out.new)
            (if is_begun self.old.subject subject then [] else end_text self.old) result }
        ensures begun { OnOk result (self.new ≡ begun_at self.old subject) }
    {
        if is_begun(&self.subject, &subject) {
            return Ok(());
        }
        self.finish(out)?;
        self.subject = Some(subject);
        self.best = None;
        Ok(())
    }

    /// Writes the line of an update, and before it the owner's line of the subject before, if
    /// another one begins.
    ///
    /// # Errors
    ///
    /// `Device` if a call of the writer failed.
    #[tactic(auto, using(ether_wire::proofs::Appending::with_text_twice))]
    pub fn put<O: Out>(&mut self, out: &mut O, update: &Update) -> Result<(), Device>
        ensures written { Puts (O.end out.old) (O.end out.new)
            (text_with self.old (entry_of update.now)) result }
        ensures begun { OnOk result (self.new ≡ begun_with self.old (entry_of update.now)) }
    {
        let register = update.register();
        let subject = subject_of(&register.key);
        self.begin(out, subject)?;
        let text = subject_text(&subject);
        put_update(out, &mut self.line, &mut self.names, &text, update)?;
        if let Some(advert) = advert_in(&update.value().content) {
            self.best = Some(better(&register, &advert, &self.best));
        }
        Ok(())
    }

    /// Writes the lines of updates, as `put` does for each.
    ///
    /// # Errors
    ///
    /// `Device` if a call of the writer failed; then no further update is written.
    pub fn put_all<O: Out>(&mut self, out: &mut O, updates: &[Update]) -> Result<(), Device>
        ensures written { Puts (O.end out.old) (O.end out.new)
            (texts_with self.old (entries_of updates.now)) result }
        ensures begun { OnOk result (self.new ≡ begun_by self.old (entries_of updates.now)) }
    {
        for update in updates {
            self.put(out, update)?;
        }
        Ok(())
    }
}
