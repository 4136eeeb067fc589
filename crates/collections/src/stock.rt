// An amount that is spent and filled.
ghost use Rattle.std.specs.Prelude.{◌≡◌, ◌↔◌, pos, ◌<◌, ◌^◌, IsTrue, IsOk, IsOkAnd};
ghost use Rattle.calls.specs.Stocks.{Answers, after, CanLook};

use calls::limits::MAX_AMOUNT;
use calls::{Call, Refusal, Reply};
use std::marker::Model;

/// A stock: an amount below 2^127 that is never less than nothing. Contracts see the amount.
#[derive(Drop)]
pub struct StockCol {
    amount: u128,
}

impl Model for StockCol {
    ghost use Rattle.std.specs.Prelude.{ℕ, ◌<◌, ◌^◌};

    ghost Value = { ℕ };

    ghost view = { λ stock. stock.amount };

    ghost invariant = { λ stock. stock.amount < 2 ^ 127 };
}

impl StockCol {
    /// A stock at 0. Its cost is constant.
    pub fn new() -> Self
        ensures { result ≡ 0 }
    {
        Self { amount: 0 }
    }

    /// A stock of the amount. Its cost is constant.
    pub fn with_amount(amount: u128) -> Self
        requires { amount < 2 ^ 127 }
        ensures { result ≡ amount }
    {
        Self { amount }
    }

    /// The same stock once more. Its cost is constant.
    pub fn copy(&self) -> Self
        ensures { result ≡ self.now }
    {
        Self {
            amount: self.amount,
        }
    }

    /// The amount. Its cost is constant.
    pub fn level(&self) -> i128
        ensures { result ≡ pos self.now }
    {
        self.amount as i128
    }

    /// The reply that a call of a stock gets now. It takes no memory and is never refused. Its cost
    /// is constant.
    pub fn look(&self, call: &Call) -> Result<Reply, Refusal>
        requires { CanLook self.now call.now }
        ensures { IsOkAnd result (λ reply. Answers self.now call.now reply) }
    {
        match call {
            Call::Spend(amount) if u128::from(*amount) <= self.amount => Ok(Reply::Yes),
            Call::Spend(_) => Ok(Reply::No),
            Call::Level => Ok(Reply::Total(self.level())),
            _ => Ok(Reply::Done),
        }
    }

    /// Whether the call may get this reply now. It takes no memory. Its cost is constant.
    pub fn fits(&self, call: &Call, reply: &Reply) -> bool
        ensures { IsTrue result ↔ Answers self.now call.now reply.now }
    {
        match (call, reply) {
            (Call::Spend(amount), Reply::Yes) => {
                *amount <= MAX_AMOUNT && u128::from(*amount) <= self.amount
            }
            (Call::Spend(amount), Reply::No) => {
                *amount <= MAX_AMOUNT && self.amount < u128::from(*amount)
            }
            (Call::Level, Reply::Total(total)) => *total == self.level(),
            (Call::Fill(amount), Reply::Done) => *amount <= MAX_AMOUNT,
            _ => false,
        }
    }

    /// Makes the call, which is answered so. It takes no memory and is never refused. Its cost is
    /// constant.
    pub fn run(&mut self, call: &Call, reply: &Reply) -> Result<(), Refusal>
        requires can { Answers self.old call.now reply.now }
        requires fits { after self.old call.now reply.now < 2 ^ 127 }
        ensures ok { IsOk result }
        ensures content { self.new ≡ after self.old call.now reply.now }
    {
        match (call, reply) {
            (Call::Spend(amount), Reply::Yes) => self.amount -= u128::from(*amount),
            (Call::Fill(amount), _) => self.amount += u128::from(*amount),
            _ => (),
        }
        Ok(())
    }
}
