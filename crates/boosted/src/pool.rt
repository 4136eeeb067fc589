// Pools are boosted.
ghost use Rattle.boosted.specs.Kinds.{pool_meaning, pool_laws};

use crate::Boosted;
use crate::table::{check_asked, check_deferred};
use calls::{Call, Kind, Refusal, Reply};
use collections::PoolCol;

impl Boosted for PoolCol {
    type At = ();

    ghost meaning = { pool_meaning };

    fn look(&self, _at: (), call: &Call) -> Result<Reply, Refusal> {
        self.look(call)
    }

    fn fits(&self, _at: (), call: &Call, reply: &Reply) -> bool {
        self.fits(call, reply)
    }

    fn run(&mut self, _at: (), call: &Call, reply: &Reply) -> Result<(), Refusal> {
        self.run(call, reply)
    }

    fn askable(&self, _at: (), call: &Call) -> Result<(), Refusal> {
        check_asked(Kind::Pool, call)
    }

    fn deferrable(&self, _at: (), call: &Call) -> Result<(), Refusal> {
        check_deferred(Kind::Pool, call)
    }

    ghost laws = { pool_laws };
}
