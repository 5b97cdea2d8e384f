//! Laws on a report that is read page by page, as functions that do nothing: the contract is the
//! law.
ghost use Rattle.route_join.specs.PageLaws.{PagesAscend, PagesOfOne, RegisterStays};

/// The updates of pages of a table, which may change between two pages, are in the order of a
/// report. At most one of them is of a register.
pub fn pages_ascend()
    ensures { PagesAscend }
{}

/// The pages of a table that doesn't change are its report: they have each update, once.
pub fn pages_of_one()
    ensures { PagesOfOne }
{}

/// A register that is in the table from the first page to the last one is on one of them.
pub fn register_stays()
    ensures { RegisterStays }
{}
