//! The law that this crate's public numbers are those of the standard.

ghost use Rattle.bpdu_wire.specs.Numbers.{AreStandard};

/// The flags, the roles and the unit of times are those of IEEE 802.1D-2004 (9.2.8, 9.3.3): the
/// definitions have each as a numeral.
pub fn numbers_are_standard()
    ensures { AreStandard }
{}
