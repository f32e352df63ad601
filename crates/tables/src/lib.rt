// The tables that a caller lends, and the same lent for reading once they are known to hold a sound ledger.
#![tactic(auto)]

ghost use Rattle.tables.specs.Fit.{Fit};
ghost use Rattle.tables.specs.Once.{fit_once};
ghost use Rattle.tables.specs.Tables.{tables};

// Tables that pass the check, and so hold a sound ledger: who is given them need not check again.
#[derive(Clone, Copy)]
pub struct Sound<'a> {
    pub book: &'a [[u64; 6]],
    pub keys: &'a [[u8; 32]],
    pub texts: &'a [u8],
    ghost fits: { Fit (tables book.now keys.now texts.now) } by { fit_once },
}
