//! Which passes fit a book after a call, as a function that does nothing: the contract is the law.
ghost use Rattle.ev_book.specs.Fitting.{FitsAgain};

/// A pass that fits a book does so after its call, too, whatever is answered; and so does each
/// other one that did. So no pass is ever refused as strange after a call of its own book.
pub fn fits_again()
    ensures { FitsAgain }
{}
