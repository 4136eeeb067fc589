// A whole number.
ghost use Rattle.std.specs.Prelude.{◌≡◌, ◌↔◌, pos, IsTrue, IsOk, IsOkAnd};
ghost use Rattle.calls.specs.Counters.{Answers, after, CanLook};
ghost use Rattle.collections.specs.Numbers.{IsI128};

use calls::{Call, Refusal, Reply};
use std::marker::Model;

/// A counter: a whole number of an i128. Contracts see the number.
#[derive(Drop)]
pub struct CounterCol {
    total: i128,
}

impl Model for CounterCol {
    ghost use Rattle.std.specs.Prelude.{ℤ};

    ghost Value = { ℤ };

    ghost view = { λ counter. counter.total };
}

impl CounterCol {
    /// A counter at 0. Its cost is constant.
    pub fn new() -> Self
        ensures { result ≡ pos 0 }
    {
        Self { total: 0 }
    }

    /// A counter at the number. Its cost is constant.
    pub fn with_total(total: i128) -> Self
        ensures { result ≡ total }
    {
        Self { total }
    }

    /// The same counter once more. Its cost is constant.
    pub fn copy(&self) -> Self
        ensures { result ≡ self.now }
    {
        Self { total: self.total }
    }

    /// The number. Its cost is constant.
    pub fn total(&self) -> i128
        ensures { result ≡ self.now }
    {
        let CounterCol { total } = *self;
        total
    }

    /// The reply that a call of a counter gets now. It takes no memory and is never refused. Its
    /// cost is constant.
    pub fn look(&self, call: &Call) -> Result<Reply, Refusal>
        requires { CanLook self.now call.now }
        ensures { IsOkAnd result (λ reply. Answers self.now call.now reply) }
    {
        match call {
            Call::Read => Ok(Reply::Total(self.total)),
            _ => Ok(Reply::Done),
        }
    }

    /// Whether the call may get this reply now. It takes no memory. Its cost is constant.
    pub fn fits(&self, call: &Call, reply: &Reply) -> bool
        ensures { IsTrue result ↔ Answers self.now call.now reply.now }
    {
        match (call, reply) {
            (Call::Bump(by), Reply::Done) => *by > i64::MIN,
            (Call::Read, Reply::Total(total)) => *total == self.total,
            _ => false,
        }
    }

    /// Makes the call, which is answered so. It takes no memory and is never refused. Its cost is
    /// constant.
    pub fn run(&mut self, call: &Call, reply: &Reply) -> Result<(), Refusal>
        requires can { Answers self.old call.now reply.now }
        requires fits { IsI128 (after self.old call.now reply.now) }
        ensures ok { IsOk result }
        ensures content { self.new ≡ after self.old call.now reply.now }
    {
        if let Call::Bump(by) = call {
            self.total += *by as i128;
        }
        Ok(())
    }
}
