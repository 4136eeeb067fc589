// Stocks are boosted.
ghost use Rattle.boosted.specs.Kinds.{stock_meaning, stock_laws};

use crate::Boosted;
use crate::table::{check_asked, check_deferred};
use calls::{Call, Kind, Refusal, Reply};
use collections::StockCol;

impl Boosted for StockCol {
    type At = ();

    ghost meaning = { stock_meaning };

    fn look(&self, _at: (), call: &Call) -> Result<Reply, Refusal> {
        self.look(call)
    }

    fn fits(&self, _at: (), call: &Call, reply: &Reply) -> bool {
        self.fits(call, reply)
    }

    fn run(&mut self, _at: (), call: &Call, reply: &Reply) -> Result<(), Refusal> {
        self.run(call, reply)
    }

    fn askable(&self, _at: (), call: &Call) -> Result<(), Refusal> {
        check_asked(Kind::Stock, call)
    }

    fn deferrable(&self, _at: (), call: &Call) -> Result<(), Refusal> {
        check_deferred(Kind::Stock, call)
    }

    ghost laws = { stock_laws };
}
