//! Laws: functions that do nothing; their contracts are the laws.
ghost use Rattle.route_wire.specs.Laws.{NeverEquallyNew, NewestFirst, NextNewer, NotNewerLower, NotNewerEarlier, NewerNotEarlier, NotNewerItself, KeyOrOther, KeysInOrder, NoRecordBeginsAnother, OneReading, EveryCutting, CuttingsAgree};

/// Of two different updates of a register one is newer than the other.
pub fn never_equally_new()
    ensures { NeverEquallyNew }
{}

/// Values of a register are totally ordered, and equal in that order only if they are the same.
pub fn newest_first()
    ensures { NewestFirst }
{}

/// A value of a later incarnation, or of the same incarnation with a higher counter, is newer.
pub fn next_newer()
    ensures { NextNewer }
{}

/// A value of the same incarnation with a lower counter isn't newer.
pub fn not_newer_lower()
    ensures { NotNewerLower }
{}

/// A value of an earlier incarnation isn't newer.
pub fn not_newer_earlier()
    ensures { NotNewerEarlier }
{}

/// A value that is newer than another is of no earlier incarnation.
pub fn newer_not_earlier()
    ensures { NewerNotEarlier }
{}

/// No value is newer than itself.
pub fn not_newer_itself()
    ensures { NotNewerItself }
{}

/// Two keys are the same, or they aren't: a proof can distinguish the two cases.
pub fn key_or_other()
    ensures { KeyOrOther }
{}

/// The registers of one originator are in the order of their keys.
pub fn keys_in_order()
    ensures { KeysInOrder }
{}

/// No whole record is a proper beginning of another one.
pub fn no_record_begins_another()
    ensures { NoRecordBeginsAnother }
{}

/// A stream has one list of answers, and one rest.
pub fn one_reading()
    ensures { OneReading }
{}

/// However a stream is cut into pieces, a feed gives the stream's answers and shows its end.
pub fn every_cutting()
    ensures { EveryCutting }
{}

/// All cuttings of a stream give the same answers and the same end.
pub fn cuttings_agree()
    ensures { CuttingsAgree }
{}
