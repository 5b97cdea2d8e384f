//! Laws, as functions that do nothing: the contract is the law.
ghost use Rattle.ev_links.specs.DeviceName.{NameKeepsItsText};
ghost use Rattle.ev_links.specs.Laws.{FramesKeepTheirOrder, EachDropIsCounted, OnlyAFullPartDrops};

/// The frames that are passed on to a link leave in that order, each once: no frame leaves before
/// one that waits. Each leaves, waits on the line, or was dropped for lack of room. Those that wait
/// leave unsent if they are dropped together.
pub fn frames_keep_their_order()
    ensures { FramesKeepTheirOrder }
{}

/// The count of dropped frames and BPDUs grows by one for each that is dropped, up to 2^64 - 1.
pub fn each_drop_is_counted()
    ensures { EachDropIsCounted }
{}

/// A line on which nothing waited drops a frame only if it is too long, or if the part of its
/// source is full, whatever the sources have passed on: no source takes another's part.
pub fn only_a_full_part_drops()
    ensures { OnlyAFullPartDrops }
{}

/// The text of a device's name is the text that the name was read from.
pub fn name_keeps_its_text()
    ensures { NameKeepsItsText }
{}
