// Transactions that are tried until they go through.
ghost use Rattle.std.specs.Prelude.{◌≡◌, ◌↔◌, ◌⊎◌, ◌^◌, ◌-◌, List, Ok, Err, IfOk, IfErr, IsTrue};
ghost use Rattle.std.specs.Prelude.{OnOk};
ghost use Rattle.calls.specs.declared.refusal.Refusal.{Refusal};
ghost use Rattle.txn.specs.declared.actions.Action.{Action};
ghost use Rattle.clients.specs.declared.phase.Phase.{Phase};
ghost use Rattle.fizgaloms.specs.Transactions.{Tried, TakesBack, Begins, IsNotBegun, Stops};
ghost use Rattle.fizgaloms.specs.Transactions.{IsRefused, IsPassing, Ran, Transacts, Keeps};
ghost use Rattle.fizgaloms.specs.Transactions.{GoesThrough, IsKept};
ghost use Rattle.fizgaloms.specs.Works.{HasCommitted, IsKeptSo, KnowsStill};

use crate::pause::Pause;
use calls::Refusal;
use std::rt::Clock;
use std::sync::Wait;
use store::{Client, Naming, Ticket, Transaction};

/// Begins a transaction, makes its calls in an attempt and commits it. Answers what the calls gave,
/// and the ticket of the commit. Where another transaction is in the way (Busy), where too many are
/// live (TooManyLive), or too many records wait for the disk (Backlog), the attempt is taken back
/// and another is made, after a pause that grows up to 10 milliseconds, in which the thread sleeps.
/// A transaction that the client had open is taken back first, and so is one whose taking back
/// found too many records waiting.
///
/// Of the client's own steps behind the call, exactly one more transaction is committed, and its
/// calls are those of the attempt that went through, of which the output says what
/// `Transaction::says` says. Each attempt before it was ended by an abort.
///
/// Lost where keeping has failed before anything is tried, and where it is to be tried again:
/// nothing that would be committed could be kept. Each other refusal of a call, of the begin or of
/// the commit takes the transaction back and is answered; and so are those of `Client::abort`,
/// which leave it open. So the refusal is that of the last attempt, and each attempt before it was
/// refused as one that may go through later. Of a call's refusal `Transaction::refuses` says what
/// was done. No refusal leaves anything committed.
pub fn transact<T: Transaction, J: Naming, R: Wait + Clock>(
    rt: &R,
    client: &mut Client<'_, J>,
    transaction: &T,
) -> Result<(T::Output, Ticket), Refusal>
    ensures closed { OnOk result (client.new.phase ≡ Phase.Closed) }
    ensures committed { IfOk result (λ done. HasCommitted client.new done.1.place) }
    ensures transacts { Transacts J.origin (T.refuses transaction.now)
        (T.says transaction.now) (2 ^ 32 - 1) client.old result client.new }
{
    transact_within(rt, client, transaction, u32::MAX)
}

/// Runs a transaction as `transact` does, and makes no more than so many attempts, at least one.
///
/// The refusals of `transact`. Those behind which another attempt would be made, Busy, TooManyLive
/// and Backlog, are answered of the last one that may be made alone.
pub fn transact_within<T: Transaction, J: Naming, R: Wait + Clock>(
    rt: &R,
    client: &mut Client<'_, J>,
    transaction: &T,
    attempts: u32,
) -> Result<(T::Output, Ticket), Refusal>
    ensures closed { OnOk result (client.new.phase ≡ Phase.Closed) }
    ensures committed { IfOk result (λ done. HasCommitted client.new done.1.place) }
    ensures transacts { Transacts J.origin (T.refuses transaction.now)
        (T.says transaction.now) attempts client.old result client.new }
{
    if client.has_failed() {
        Err(Refusal::Lost)
    } else {
        try_within(rt, client, transaction, attempts)
    }
}

// Runs a transaction as `transact_within` does, whose keeping had not failed before.
fn try_within<T: Transaction, J: Naming, R: Wait + Clock>(
    rt: &R,
    client: &mut Client<'_, J>,
    transaction: &T,
    attempts: u32,
) -> Result<(T::Output, Ticket), Refusal>
    ensures closed { OnOk result (client.new.phase ≡ Phase.Closed) }
    ensures committed { IfOk result (λ done. HasCommitted client.new done.1.place) }
    ensures goes { GoesThrough J.origin (T.refuses transaction.now)
        (T.says transaction.now) attempts client.old result client.new }
{
    client.upheld();
    let mut pause = Pause::new();
    for _number in 1..attempts {
        match try_once(rt, client, transaction) {
            Ok(done) => return Ok(done),
            Err(refusal) if is_passing(refusal) => {}
            Err(refusal) => return Err(refusal),
        }
        if client.has_failed() {
            return Err(Refusal::Lost);
        }
        pause.pause(rt);
    }
    try_once(rt, client, transaction)
}

/// Commits a transaction as `transact` does, and waits until it is kept.
///
/// The refusals of `transact`. Lost also where keeping failed, with the transaction in effect.
pub fn keep<T: Transaction, J: Naming, R: Wait + Clock>(
    rt: &R,
    client: &mut Client<'_, J>,
    transaction: &T,
) -> Result<(T::Output, Ticket), Refusal>
    ensures closed { OnOk result (client.new.phase ≡ Phase.Closed) }
    ensures kept { IsKeptSo client.new result }
    ensures keeps { Keeps J.origin (T.refuses transaction.now)
        (T.says transaction.now) (2 ^ 32 - 1) client.old result client.new }
{
    keep_within(rt, client, transaction, u32::MAX)
}

/// Keeps a transaction as `keep` does, and makes no more than so many attempts, at least one.
///
/// The refusals of `keep`, and those of the last attempt, as at `transact_within`.
pub fn keep_within<T: Transaction, J: Naming, R: Wait + Clock>(
    rt: &R,
    client: &mut Client<'_, J>,
    transaction: &T,
    attempts: u32,
) -> Result<(T::Output, Ticket), Refusal>
    ensures closed { OnOk result (client.new.phase ≡ Phase.Closed) }
    ensures kept { IsKeptSo client.new result }
    ensures keeps { Keeps J.origin (T.refuses transaction.now)
        (T.says transaction.now) attempts client.old result client.new }
{
    if client.has_failed() {
        return Err(Refusal::Lost);
    }
    keep_tried(rt, client, transaction, attempts)
}

// Keeps a transaction as `keep_within` does, whose keeping had not failed before.
fn keep_tried<T: Transaction, J: Naming, R: Wait + Clock>(
    rt: &R,
    client: &mut Client<'_, J>,
    transaction: &T,
    attempts: u32,
) -> Result<(T::Output, Ticket), Refusal>
    ensures closed { OnOk result (client.new.phase ≡ Phase.Closed) }
    ensures kept { IsKeptSo client.new result }
    ensures keeps { IsKept J.origin (T.refuses transaction.now)
        (T.says transaction.now) attempts client.old result client.new }
{
    let (output, ticket) = try_within(rt, client, transaction, attempts)?;
    client.wait(rt, &ticket)?;
    Ok((output, ticket))
}

// How often a taking back that finds no memory is tried.
const LAST_TRIES: u32 = 100;

// Takes the open transaction back behind all work, if there is one. Where too many records wait for
// the disk, or no memory is there, it is tried again, unless keeping has failed: what stays open
// then is undone when the disk is opened again.
pub(crate) fn take_back_at_last<J: Naming, R: Wait + Clock>(rt: &R, client: &mut Client<'_, J>)
    ensures { KnowsStill client.old client.new }
{
    let mut pause = Pause::new();
    let mut tries = 0;
    for _ in rt.forever() {
        if is_over(rt, client, &mut tries) {
            return;
        }
        pause.pause(rt);
    }
}

// Tries to take the open transaction back. Whether there is none any more, or it has to stay.
fn is_over<J: Naming, R: Wait>(rt: &R, client: &mut Client<'_, J>, tries: &mut u32) -> bool
    ensures { KnowsStill client.old client.new }
{
    let taken_back = take_back(rt, client);
    let has_failed = client.has_failed();
    has_failed || !may_try_again(taken_back, tries)
}

// Whether a taking back is tried again. One that found no memory is counted.
fn may_try_again(taken_back: Result<(), Refusal>, tries: &mut u32) -> bool {
    match taken_back {
        Ok(()) => false,
        Err(Refusal::NoMemory) => {
            *tries = tries.saturating_add(1);
            *tries < LAST_TRIES
        }
        Err(_) => true,
    }
}

/// Whether a transaction that was refused so may go through later.
pub(crate) fn is_passing(refusal: Refusal) -> bool
    ensures { IsTrue result ↔ IsPassing refusal }
{
    matches!(
        refusal,
        Refusal::Busy(_) | Refusal::TooManyLive | Refusal::Backlog
    )
}

/// Runs a transaction once, and takes it back at a refusal. Where that is refused, it may be open.
pub(crate) fn try_once<T: Transaction, J: Naming, R: Wait>(
    rt: &R,
    client: &mut Client<'_, J>,
    transaction: &T,
) -> Result<(T::Output, Ticket), Refusal>
    ensures committed { IfOk result (λ done. HasCommitted client.new done.1.place) }
    ensures ran { IfOk result (λ done. Ran J.origin (T.refuses transaction.now) 1
        (T.says transaction.now done.0) client.old done.1.place client.new) }
    ensures tried { IfErr result (λ _. (tried : List Action) ×
        Tried J.origin client.old tried client.new) }
    ensures refused { IfErr result (λ e. IsRefused J.origin (T.refuses transaction.now)
        client.old e client.new) }
{
    match go_through(rt, client, transaction) {
        Ok(done) => Ok(done),
        Err(refusal) => Err(refused_by(rt, client, refusal)),
    }
}

// Takes an attempt back that was refused so. What it is answered: its own refusal, or that of the
// taking back.
fn refused_by<J: Naming, R: Wait>(rt: &R, client: &mut Client<'_, J>, refusal: Refusal) -> Refusal
    ensures taken_back { ((result ≡ refusal) ×
        TakesBack J.origin client.old (Ok tt) client.new)
        ⊎ TakesBack J.origin client.old (Err result) client.new }
    ensures tried { (tried : List Action) × Tried J.origin client.old tried client.new }
{
    match take_back(rt, client) {
        Ok(()) => refusal,
        Err(other) => other,
    }
}

// Runs a transaction once. At a refusal it may be open.
fn go_through<T: Transaction, J: Naming, R: Wait>(
    rt: &R,
    client: &mut Client<'_, J>,
    transaction: &T,
) -> Result<(T::Output, Ticket), Refusal>
    ensures committed { IfOk result (λ done. HasCommitted client.new done.1.place) }
    ensures ran { IfOk result (λ done. Ran J.origin (T.refuses transaction.now) 1
        (T.says transaction.now done.0) client.old done.1.place client.new) }
    ensures tried { IfErr result (λ _. (tried : List Action) ×
        Tried J.origin client.old tried client.new) }
    ensures stops { IfErr result (λ e. Stops J.origin (T.refuses transaction.now)
        client.old e client.new) }
{
    begin(rt, client)?;
    let output = client.attempt(rt, transaction)?;
    let ticket = client.commit(rt)?;
    Ok((output, ticket))
}

// Begins a transaction. One that is open is taken back first.
fn begin<J: Naming, R: Wait>(rt: &R, client: &mut Client<'_, J>) -> Result<(), Refusal>
    ensures begun { OnOk result (Begins J.origin client.old client.new) }
    ensures refused { IfErr result (λ e. IsNotBegun J.origin client.old e client.new) }
    ensures tried { (tried : List Action) × Tried J.origin client.old tried client.new }
{
    take_back(rt, client)?;
    let _number = client.begin()?;
    Ok(())
}

// Takes the open transaction back, if there is one.
fn take_back<J: Naming, R: Wait>(rt: &R, client: &mut Client<'_, J>) -> Result<(), Refusal>
    ensures closed { OnOk result (client.new.phase ≡ Phase.Closed) }
    ensures taken_back { TakesBack J.origin client.old result client.new }
    ensures tried { (tried : List Action) × Tried J.origin client.old tried client.new }
{
    client.upheld();
    if client.is_open() {
        client.abort(rt)
    } else {
        Ok(())
    }
}
