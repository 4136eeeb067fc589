// Quotas are boosted.
ghost use Rattle.boosted.specs.Kinds.{quotas_meaning, quotas_laws};

use crate::Boosted;
use crate::table::{check_asked, check_deferred};
use calls::{Call, Kind, Refusal, Reply};
use collections::QuotasCol;

impl Boosted for QuotasCol {
    type At = ();

    ghost meaning = { quotas_meaning };

    fn look(&self, _at: (), call: &Call) -> Result<Reply, Refusal> {
        self.look(call)
    }

    fn fits(&self, _at: (), call: &Call, reply: &Reply) -> bool {
        self.fits(call, reply)
    }

    fn run(&mut self, _at: (), call: &Call, reply: &Reply) -> Result<(), Refusal> {
        self.run(call, reply)
    }

    fn askable(&self, _at: (), call: &Call) -> Result<(), Refusal> {
        check_asked(Kind::Quotas, call)
    }

    fn deferrable(&self, _at: (), call: &Call) -> Result<(), Refusal> {
        check_deferred(Kind::Quotas, call)
    }

    ghost laws = { quotas_laws };
}
