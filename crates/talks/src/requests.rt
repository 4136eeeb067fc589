// What a client of a script does at each of its requests, and at its end.
ghost use Rattle.std.specs.Prelude.{◌≡◌, ◌↔◌, Err, IsTrue};
ghost use Rattle.calls.specs.declared.refusal.Refusal.{Refusal};
ghost use Rattle.script.specs.declared.action.Operation.{Operation};
ghost use Rattle.clients.specs.Calls.{IsOpen, Aborts};
ghost use Rattle.calls.specs.declared.when.When.{When};
ghost use Rattle.talks.specs.Sessions.{Makes, Begins, InOpen, Asks, AsksFor, Commits, Looks};
ghost use Rattle.talks.specs.Sessions.{Obeys, Says, Ends, session, response_placed, ticket_after};
ghost use Rattle.talks.specs.Requests.{telling};
ghost use Rattle.talks.specs.declared.texts.Response.{Response};

use crate::{End, Response, response_of};
use calls::{Call, Kind, Name, Refusal, Reply, When};
use clients::{Client, Ticket};
use desks::Naming;
use script::{Operation, Request};
use std::sync::Wait;

/// Carries a request out, and says what it is answered: a refusal of the store too.
pub(crate) fn say<J: Naming, R: Wait>(
    rt: &R,
    client: &mut Client<'_, J>,
    ticket: &mut Option<Ticket>,
    request: &Request,
) -> Response
    ensures { Says J.origin (session client.old ticket.old) request.now result
        (session client.new ticket.new) }
{
    match obey(rt, client, ticket, request) {
        Ok(response) => response,
        Err(refusal) => Response::Refused(refusal),
    }
}

/// Waits for the ticket, if there is one: some committer has to take turns meanwhile, or have met a
/// fault of the disk.
pub(crate) fn end<J: Naming, R: Wait>(
    rt: &R,
    client: &mut Client<'_, J>,
    ticket: Option<Ticket>,
) -> End
    ensures { Ends client.old ticket result client.new }
{
    let Some(ticket) = ticket else {
        return End::NoTicket;
    };
    match client.wait(rt, &ticket) {
        Ok(()) => End::Kept,
        Err(_) => End::Lost,
    }
}

// Carries a request out.
fn obey<J: Naming, R: Wait>(
    rt: &R,
    client: &mut Client<'_, J>,
    ticket: &mut Option<Ticket>,
    request: &Request,
) -> Result<Response, Refusal>
    ensures { Obeys J.origin (session client.old ticket.old) request.now result
        (session client.new ticket.new) }
{
    match request {
        Request::Make(kind, name) => placed(make(rt, client, *kind, name), ticket),
        Request::Begin => begin(client).map(Response::Begun),
        Request::Call(name, operation) => call(rt, client, name, operation).map(Response::Replied),
        Request::Later(name, call) => defer(rt, client, name, call).map(Response::Replied),
        Request::Commit => placed(commit(rt, client), ticket),
        Request::Abort => aborted(abort(rt, client)),
        Request::Kept => Ok(response_of(is_kept(client, *ticket))),
    }
}

// What is said of a ticket, which is the last one then.
fn placed(given: Result<Ticket, Refusal>, ticket: &mut Option<Ticket>) -> Result<Response, Refusal>
    ensures response { result ≡ telling response_placed given }
    ensures last { ticket.new ≡ ticket_after ticket.old given }
{
    let given = given?;
    *ticket = Some(given);
    Ok(Response::Placed(given.place))
}

// What is said of a transaction that was to be taken back.
fn aborted(done: Result<(), Refusal>) -> Result<Response, Refusal>
    ensures { result ≡ telling (λ done. Response.Aborted) done }
{
    done?;
    Ok(Response::Aborted)
}

// Makes a collection.
fn make<J: Naming, R: Wait>(
    rt: &R,
    client: &mut Client<'_, J>,
    kind: Kind,
    name: &Name,
) -> Result<Ticket, Refusal>
    ensures { Makes J.origin client.old name.now kind result client.new }
{
    client.make(rt, name.as_str(), kind)
}

// Begins a transaction: AlreadyLive where one is open, else the refusal of `Client::begin`.
fn begin<J: Naming>(client: &mut Client<'_, J>) -> Result<u64, Refusal>
    ensures { Begins J.origin client.old result client.new }
{
    if client.is_open() {
        return Err(Refusal::AlreadyLive);
    }
    client.begin()
}

// Asks for an operation on the collection of the name: NoSuchTxn where no transaction is open, else
// what `Client::call` answers.
fn call<J: Naming, R: Wait>(
    rt: &R,
    client: &mut Client<'_, J>,
    name: &Name,
    operation: &Operation,
) -> Result<Reply, Refusal>
    ensures { InOpen client.old result client.new
        (AsksFor J.origin name.now operation.now client.old result client.new) }
{
    if !client.is_open() {
        return Err(Refusal::NoSuchTxn);
    }
    ask(rt, client, name, operation)
}

// Defers the call on the collection of the name to the commit: NoSuchTxn where no transaction is
// open, else what `Client::ask` answers.
fn defer<J: Naming, R: Wait>(
    rt: &R,
    client: &mut Client<'_, J>,
    name: &Name,
    call: &Call,
) -> Result<Reply, Refusal>
    ensures { InOpen client.old result client.new
        (Asks J.origin name.now call.now When.AtCommit client.old result client.new) }
{
    if !client.is_open() {
        return Err(Refusal::NoSuchTxn);
    }
    client.ask(rt, name.as_str(), call, When::AtCommit)
}

// Commits the open transaction: NoSuchTxn where none is open, else what `Client::commit` answers.
fn commit<J: Naming, R: Wait>(rt: &R, client: &mut Client<'_, J>) -> Result<Ticket, Refusal>
    ensures { InOpen client.old result client.new
        (Commits J.origin client.old result client.new) }
{
    if !client.is_open() {
        return Err(Refusal::NoSuchTxn);
    }
    client.commit(rt)
}

// Takes the open transaction back: NoSuchTxn where none is open, else what `Client::abort` answers.
fn abort<J: Naming, R: Wait>(rt: &R, client: &mut Client<'_, J>) -> Result<(), Refusal>
    ensures { InOpen client.old result client.new
        (Aborts J.origin client.old.phase client.old result client.new) }
{
    if !client.is_open() {
        return Err(Refusal::NoSuchTxn);
    }
    client.abort(rt)
}

// Whether the ticket is kept, if there is one.
fn is_kept<J: Naming>(client: &mut Client<'_, J>, ticket: Option<Ticket>) -> Option<bool>
    ensures { Looks client.old ticket result client.new }
{
    let ticket = ticket?;
    Some(client.kept(&ticket))
}

// Asks for an operation in an open transaction.
fn ask<J: Naming, R: Wait>(
    rt: &R,
    client: &mut Client<'_, J>,
    name: &Name,
    operation: &Operation,
) -> Result<Reply, Refusal>
    requires { IsOpen client.old.phase }
    ensures { AsksFor J.origin name.now operation.now client.old result client.new }
{
    match operation {
        Operation::Call(call) => client.call(rt, name.as_str(), call),
        Operation::Remove(key) => remove(rt, client, name.as_str(), *key),
    }
}

// Asks for a removal from a map, and where the collection is none from a set.
fn remove<J: Naming, R: Wait>(
    rt: &R,
    client: &mut Client<'_, J>,
    name: &str,
    key: u64,
) -> Result<Reply, Refusal>
    requires { IsOpen client.old.phase }
    ensures { AsksFor J.origin name.now (Operation.Remove key) client.old result client.new }
{
    let answer = client.call(rt, name, &Call::MapRemove(key));
    if is_of_another_kind(&answer) {
        drop(answer);
        return client.call(rt, name, &Call::SetRemove(key));
    }
    answer
}

// Whether a call was refused as one of another kind than its collection.
fn is_of_another_kind(answer: &Result<Reply, Refusal>) -> bool
    ensures { IsTrue result ↔ answer.now ≡ Err Refusal.WrongKind }
{
    matches!(answer, Err(Refusal::WrongKind))
}
