//! A law, as a function that does nothing: the contract is the law.
ghost use Rattle.ev_config.specs.Config.{ReadingsAgree};

/// A document has no fault exactly if reading it gives a configuration. Otherwise its first fault
/// is the key with which the reading refuses it.
pub fn readings_agree()
    ensures { ReadingsAgree }
{}
