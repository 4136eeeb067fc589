// Collections that are there, or are made.
ghost use Rattle.std.specs.Prelude.{◌≡◌, OnOk};
ghost use Rattle.clients.specs.declared.phase.Phase.{Phase};

use calls::{Call, Kind, Refusal, Reply};
use std::sync::Wait;
use store::{Client, Naming};

/// Makes an empty collection under the name, unless there is one of that kind. It is a committed
/// transaction of its own where it is made. One that is there is asked for its kind in a
/// transaction that is taken back.
///
/// AlreadyLive where the client has a transaction; WrongKind where the collection is of another
/// kind; the refusals of `Client::make` but NameTaken; those of `Client::begin`, `Client::call` and
/// `Client::abort` where the collection was there. A refusal makes no collection, and may leave the
/// transaction open that asked for the kind: the next `transact` or `keep` takes it back.
pub fn open_or_make<J: Naming, R: Wait>(
    rt: &R,
    client: &mut Client<'_, J>,
    name: &str,
    kind: Kind,
) -> Result<(), Refusal>
    ensures closed { OnOk result (client.new.phase ≡ Phase.Closed) }
{
    if client.is_open() {
        return Err(Refusal::AlreadyLive);
    }
    match client.make(rt, name, kind) {
        Ok(_) => Ok(()),
        Err(Refusal::NameTaken) => check_kind(rt, client, name, kind),
        Err(refusal) => Err(refusal),
    }
}

// Refused WrongKind where the collection of the name is of another kind.
fn check_kind<J: Naming, R: Wait>(
    rt: &R,
    client: &mut Client<'_, J>,
    name: &str,
    kind: Kind,
) -> Result<(), Refusal>
    requires { client.old.phase ≡ Phase.Closed }
    ensures closed { OnOk result (client.new.phase ≡ Phase.Closed) }
{
    client.begin()?;
    let told = told_of(client.call(rt, name, &question(kind)));
    client.abort(rt)?;
    told
}

// What an answer tells of the kind. A collection of another kind is told before a lock that is in
// the way.
fn told_of(answer: Result<Reply, Refusal>) -> Result<(), Refusal> {
    match answer {
        Ok(_) | Err(Refusal::Busy(_)) => Ok(()),
        Err(refusal) => Err(refusal),
    }
}

// A call that a collection of the kind alone understands.
fn question(kind: Kind) -> Call {
    match kind {
        Kind::Set => Call::Contains(0),
        Kind::Map => Call::Get(0),
        Kind::Queue => Call::Least,
        Kind::Counter => Call::Read,
        Kind::Pool => Call::Draw,
        Kind::Stock => Call::Level,
        Kind::Quotas => Call::QuotaLevel(0),
    }
}
