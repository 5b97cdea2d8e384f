//! Laws on windows, each a function that does nothing and whose contract is the law.
ghost use Rattle.std.specs.Prelude.{◌≡◌, ◌∷◌, Some};
ghost use Rattle.ev_mobility.specs.Window.{spans, kept, has_five, ends_in_fifth, is_fifth, is_frozen, after_move};

/// The window after moves at these seconds, the newest first, and then one more move, is the window
/// of all these moves: the newest window's start, and whether one had five.
pub fn window_with_one_more_move(earlier: &[u64], second: u64)
    ensures window { kept (spans (second ∷ earlier.now))
        ≡ Some (after_move (kept (spans earlier.now)) second) }
    ensures fifth { is_fifth (kept (spans earlier.now)) second
        ≡ ends_in_fifth (spans (second ∷ earlier.now)) }
    ensures frozen { is_frozen (kept (spans earlier.now)) ≡ has_five (spans earlier.now) }
{}
