//! A law of all vectors.

ghost use Rattle.rstp_state.specs.Vector.{NeverEquallyGood};

/// Of two different vectors, one is better.
pub fn never_equally_good()
    ensures { NeverEquallyGood }
{}
