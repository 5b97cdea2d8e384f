//! The moves of addresses between edges, and the addresses that are frozen for moving too often.
ghost use Rattle.std.specs.Prelude.{◌≡◌, [], true, IsOk, OnOk, OnErr};
ghost use Rattle.std.specs.FinMap.{empty};
ghost use Rattle.mac_arena.specs.declared.station.Station.{Station as Who};
ghost use Rattle.ev_mobility.specs.Window.{is_fifth, after_move, is_frozen};
ghost use Rattle.ev_mobility.specs.Moves.{has_place, ArePlaced, window_at, after_note, after_thaw};

use crate::window::{Window, after_move, is_fifth, is_frozen};
use mac_arena::Station;
use std::alloc::{AllocError, Global};
use std::collections::BTreeMap;
use std::marker::Model;

/// The recent moves of addresses between edges, and the frozen addresses.
///
/// A station needs a place before its first move is noted, and keeps it.
#[derive(Drop)]
pub struct Moves {
    // Each station that has a place, and its newest window once a move was noted.
    places: BTreeMap<Station, Option<Window>>,
}

impl Model for Moves {
    ghost use Rattle.std.specs.Coded.{codes};
    ghost use Rattle.std.specs.FinMap.{code};
    ghost use Rattle.ev_mobility.specs.Moves.{Moves as Noted, moves_of};

    ghost Value = { Noted };

    ghost coded = { Prim.hlevel (codes, code) };

    ghost view = { λ m. moves_of m.places.entries };
}

impl Moves {
    /// Returns an empty value: no station has a place, and none has moved.
    pub fn new(alloc: Global) -> Self
        ensures { result ≡ record { windows = empty; places = [] } }
    {
        Moves {
            places: BTreeMap::new(alloc),
        }
    }

    /// Gives a station a place, unless it has one. No window changes.
    ///
    /// # Errors
    ///
    /// `AllocError` if the station has no place and there is no memory for one. Then nothing has
    /// changed.
    pub fn room(&mut self, key: &Station) -> Result<(), AllocError>
        ensures there { has_place self.old key.now ≡ true → IsOk result }
        ensures place { OnOk result (has_place self.new key.now ≡ true) }
        ensures windows { self.new.windows ≡ self.old.windows }
        ensures kept { (s : Who) → has_place self.old s ≡ true → has_place self.new s ≡ true }
        ensures err { OnErr result (self.new ≡ self.old) }
    {
        if self.places.contains_key(key) {
            return Ok(());
        }
        if self.places.insert(*key, None).is_err() {
            return Err(AllocError);
        }
        Ok(())
    }

    /// A law, a function that does nothing: a station that has moved since its last thaw has a
    /// place.
    pub fn always_placed(&self)
        ensures { ArePlaced self.now }
    {
        let _ = &self.places;
    }

    /// Returns the newest window of a station.
    fn window(&self, key: &Station) -> Option<Window>
        ensures { result ≡ window_at self.now key.now }
    {
        match self.places.get(key) {
            Some(window) => *window,
            None => None,
        }
    }

    /// Returns `true` if a move of the station at this second would be the fifth of its window.
    pub fn fifth(&self, key: &Station, second: u64) -> bool
        ensures { result ≡ is_fifth (window_at self.now key.now) second }
    {
        is_fifth(&self.window(key), second)
    }

    /// Notes a move of a station that has a place. Returns `true` if it is the fifth of its window,
    /// which freezes the station.
    pub fn note(&mut self, key: &Station, second: u64) -> bool
        requires { has_place self.old key.now ≡ true }
        ensures fifth { result ≡ is_fifth (window_at self.old key.now) second }
        ensures after { self.new ≡ after_note self.old key.now second }
    {
        let window = self.window(key);
        // The station has its place already, so this takes no memory.
        let _ = self.places.insert(*key, Some(after_move(&window, second)));
        is_fifth(&window, second)
    }

    /// Returns `true` if the station is frozen.
    pub fn frozen(&self, key: &Station) -> bool
        ensures { result ≡ is_frozen (window_at self.now key.now) }
    {
        is_frozen(&self.window(key))
    }

    /// Ends the station's window, and thaws it.
    pub fn thaw(&mut self, key: &Station)
        ensures { self.new ≡ after_thaw self.old key.now }
    {
        if self.places.contains_key(key) {
            let _ = self.places.insert(*key, None);
        }
    }
}
