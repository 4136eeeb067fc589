// Attempts at transactions.
ghost use Rattle.std.specs.Prelude.{◌≡◌};
ghost use Rattle.clients.specs.Attempts.{IsBegun, IsAttempt, number_of};
ghost use Rattle.clients.specs.Calls.{IsOpen};

use crate::client::Client;
use calls::{Call, Refusal, Reply};
use core::mem::replace_with;
use desks::Naming;
use records::Coded;
use std::marker::{Brand, Model, PhantomData};
use std::sync::Wait;

/// An attempt at a transaction: the calls of an open transaction are made in it, and no more. Its
/// end is not its own: who made the attempt commits it, or takes it back.
pub trait Attempt {
    ghost use Rattle.std.specs.Prelude.{◌≡◌, List, Err};
    ghost use Rattle.calls.specs.declared.when.When.{When};
    ghost use Rattle.txn.specs.declared.actions.Action.{Action};
    ghost use Rattle.clients.specs.Attempts.{Adds};
    ghost use Rattle.clients.specs.Calls.{AsksFor, replied};

    /// What was done in it so far.
    ghost made: { Self → List Action };

    /// Makes a call on the collection of the name, and gives the reply: `Client::call`, with its
    /// refusals.
    fn call(&mut self, name: &str, call: &Call) -> Result<Reply, Refusal>
        ensures { Adds (AsksFor name.now call.now When.Now result) (λ e. result ≡ Err e)
            (made self.old) (made self.new) };

    /// Defers a call to the commit: `Client::later`, with its refusals.
    fn later(&mut self, name: &str, call: &Call) -> Result<(), Refusal>
        ensures { Adds (AsksFor name.now call.now When.AtCommit (replied result))
            (λ e. result ≡ Err e) (made self.old) (made self.new) };
}

/// The calls of a transaction.
pub trait Transaction {
    ghost use Rattle.std.specs.Prelude.{◌≡◌, [], List, IfOk, IfErr, ⊤};
    ghost use Rattle.calls.specs.declared.refusal.Refusal.{Refusal};
    ghost use Rattle.txn.specs.declared.actions.Action.{Action};

    type Output: Drop;

    /// What the output says of what was done in the attempt.
    ghost says: { Self → Self.Output → List Action → Type 0 } = { λ _ _ _. ⊤ };

    /// What a refusal says of what was done in the attempt.
    ghost refuses: { Self → Refusal → List Action → Type 0 } = { λ _ _ _. ⊤ };

    /// Makes the calls in an attempt, and answers what they gave. At a refusal the attempt is taken
    /// back.
    fn make_calls<A: Attempt>(&self, attempt: &mut A) -> Result<Self::Output, Refusal>
        requires { A.made attempt.old ≡ [] }
        ensures said { IfOk result (λ output. says self.now output (A.made attempt.new)) }
        ensures refused { IfErr result (λ e. refuses self.now e (A.made attempt.new)) };
}

/// Which beginning of a transaction an attempt goes on from. The type of an attempt names it, so
/// that whatever a user's code does to the attempt, it is still the one that was begun.
/// `Client::attempt` picks it.
pub trait Beginning {
    ghost use Rattle.std.specs.Prelude.{ℕ};
    ghost use Rattle.clients.specs.Known.{Known};

    /// The number of the transaction, and what the client knew then.
    ghost number: { ℕ };

    ghost start: { Known };
}

impl Beginning for Brand {
    ghost use Rattle.clients.specs.Known.{newcomer};

    ghost number = { 0 };

    ghost start = { newcomer 0 };
}

// An attempt of a client that goes on from a beginning.
struct Going<'s, 'r, J: Naming, B: Coded, F: Beginning, R> {
    rt: &'r R,
    client: Client<'s, J, B>,
    of: PhantomData<F>,
}

impl<'s, 'r, J: Naming, B: Coded, F: Beginning, R> Model for Going<'s, 'r, J, B, F, R> {
    ghost use Rattle.clients.specs.Known.{Known};
    ghost use Rattle.clients.specs.Attempts.{Attempts, done_since};

    ghost Value = { Known };

    ghost view = { λ a. a.client };

    ghost invariant = { λ a.
        Attempts J.origin F.number F.start (done_since F.start a.client) a.client };
}

impl<'s, 'r, J: Naming, B: Coded, F: Beginning, R: Wait> Attempt for Going<'s, 'r, J, B, F, R> {
    ghost use Rattle.clients.specs.Attempts.{done_since};

    ghost made = { done_since F.start };

    fn call(&mut self, name: &str, call: &Call) -> Result<Reply, Refusal> {
        self.client.call(self.rt, name, call)
    }

    fn later(&mut self, name: &str, call: &Call) -> Result<(), Refusal> {
        self.client.later(self.rt, name, call)
    }
}

impl<J: Naming, B: Coded> Client<'_, J, B> {
    /// Makes the calls of a transaction in the client's own, which was begun and has made none. It
    /// stays open, also where the calls are refused. Call it only of a client that has just begun a
    /// transaction.
    ///
    /// The refusals of `Transaction::make_calls`.
    pub fn attempt<T: Transaction, R: Wait>(
        &mut self,
        rt: &R,
        transaction: &T,
    ) -> Result<T::Output, Refusal>
        requires { IsBegun self.old.phase }
        ensures attempt { IsAttempt J.origin (T.says transaction.now)
            (T.refuses transaction.now) (number_of self.old.phase) self.old result self.new }
        ensures open { IsOpen self.new.phase }
    {
        replace_with(self, (rt, transaction, PhantomData), attempt_by)
    }
}

// Makes the calls of a transaction by a client that is handed over, and hands it back.
fn attempt_by<'s, T: Transaction, J: Naming, B: Coded, R: Wait>(
    client: Client<'s, J, B>,
    with: (&R, &T, PhantomData<T::Output>),
) -> (Client<'s, J, B>, Result<T::Output, Refusal>)
    requires { IsBegun client.phase }
    ensures { IsAttempt J.origin (T.says with.entry.1.now) (T.refuses with.entry.1.now)
        (number_of client.entry.phase) client.entry result.1 result.0 }
{
    let (rt, transaction, _output) = with;
    go_through::<Brand, T, J, B, R>(rt, client, transaction)
}

// Makes the calls from the beginning that the type names.
fn go_through<'s, F: Beginning, T: Transaction, J: Naming, B: Coded, R: Wait>(
    rt: &R,
    client: Client<'s, J, B>,
    transaction: &T,
) -> (Client<'s, J, B>, Result<T::Output, Refusal>)
    requires begun { IsBegun client.phase }
    requires number { number_of client.phase ≡ F.number }
    requires start { client ≡ F.start }
    ensures { IsAttempt J.origin (T.says transaction.now) (T.refuses transaction.now)
        F.number client.entry result.1 result.0 }
{
    client.upheld();
    let mut going: Going<'_, '_, J, B, F, R> = Going {
        rt,
        client,
        of: PhantomData,
    };
    let output = transaction.make_calls(&mut going);
    let Going {
        rt: _rt,
        client,
        of: _of,
    } = going;
    (client, output)
}
