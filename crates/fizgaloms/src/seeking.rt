// Transactions that wait for what they look for.
ghost use Rattle.std.specs.Prelude.{◌≡◌, ℕ, OnOk, IfOk};
ghost use Rattle.clients.specs.declared.phase.Phase.{Phase};
ghost use Rattle.fizgaloms.specs.Transactions.{Transacts, Keeps, GoesThrough, IsKept};
ghost use Rattle.fizgaloms.specs.Works.{HasCommitted, IsKeptSo};

use crate::pause::Pause;
use crate::transacting::{is_passing, try_once};
use calls::Refusal;
use clients::Moment;
use std::rt::Clock;
use std::sync::Wait;
use std::time::Duration;
use store::{Client, Naming, Ticket, Transaction};

/// What `Transaction::make_calls` answers where its calls found nothing to do: Busy, as behind a
/// transaction that has no number.
pub const NOTHING_FOUND: Refusal = Refusal::Busy(0);

/// How a transaction waits for something to do.
#[derive(Clone, Copy)]
pub struct Patience {
    /// It waits for so long at most.
    pub longest: Duration,
    /// The number of what it looks for. Of those who wait for the same the one that came first is
    /// woken by a change, and the next one where that has found something. So transactions that
    /// make other calls have another number.
    pub alike: u64,
}

/// Runs a transaction as `transact` does, and sleeps while there is nothing to do for it: where an
/// attempt is refused Busy, or its calls answer `NOTHING_FOUND`. Such an attempt is taken back
/// whole, so who sleeps has no transaction and holds no lock. It is woken once the transaction that
/// was in the way has ended, or once another client has committed a change of a collection that the
/// calls asked for, and then makes another attempt. A change that comes while it makes one counts
/// too. Behind TooManyLive and Backlog it pauses as `transact` does. A line of those who wait has
/// 64 places; who finds none looks again and again, with a pause of 5 milliseconds.
///
/// The refusals of `transact`. Busy, TooManyLive and Backlog are answered where the time is over,
/// and so is `NOTHING_FOUND`. Who sleeps is not woken where keeping fails: Lost is answered in
/// place of the next attempt.
pub fn transact_waiting<T: Transaction, J: Naming, R: Wait + Clock>(
    rt: &R,
    client: &mut Client<'_, J>,
    transaction: &T,
    patience: Patience,
) -> Result<(T::Output, Ticket), Refusal>
    ensures closed { OnOk result (client.new.phase ≡ Phase.Closed) }
    ensures committed { IfOk result (λ done. HasCommitted client.new done.1.place) }
    ensures transacts { (bound : ℕ) × Transacts J.origin (T.refuses transaction.now)
        (T.says transaction.now) bound client.old result client.new }
{
    if client.has_failed() {
        return Err(Refusal::Lost);
    }
    seek(rt, client, transaction, patience)
}

/// Keeps a transaction as `keep` does, and sleeps while there is nothing to do for it, as
/// `transact_waiting` does.
///
/// The refusals of `keep`, and those that `transact_waiting` answers where the time is over.
pub fn keep_waiting<T: Transaction, J: Naming, R: Wait + Clock>(
    rt: &R,
    client: &mut Client<'_, J>,
    transaction: &T,
    patience: Patience,
) -> Result<(T::Output, Ticket), Refusal>
    ensures closed { OnOk result (client.new.phase ≡ Phase.Closed) }
    ensures kept { IsKeptSo client.new result }
    ensures keeps { (bound : ℕ) × Keeps J.origin (T.refuses transaction.now)
        (T.says transaction.now) bound client.old result client.new }
{
    if client.has_failed() {
        return Err(Refusal::Lost);
    }
    keep_sought(rt, client, transaction, patience)
}

// Keeps a transaction as `keep_waiting` does, whose keeping had not failed before.
fn keep_sought<T: Transaction, J: Naming, R: Wait + Clock>(
    rt: &R,
    client: &mut Client<'_, J>,
    transaction: &T,
    patience: Patience,
) -> Result<(T::Output, Ticket), Refusal>
    ensures closed { OnOk result (client.new.phase ≡ Phase.Closed) }
    ensures kept { IsKeptSo client.new result }
    ensures keeps { (bound : ℕ) × IsKept J.origin (T.refuses transaction.now)
        (T.says transaction.now) bound client.old result client.new }
{
    let (output, ticket) = seek(rt, client, transaction, patience)?;
    client.wait(rt, &ticket)?;
    Ok((output, ticket))
}

// Runs a transaction as `transact_waiting` does, whose keeping had not failed before: in line from
// before the first attempt on until the last one has ended.
fn seek<T: Transaction, J: Naming, R: Wait + Clock>(
    rt: &R,
    client: &mut Client<'_, J>,
    transaction: &T,
    patience: Patience,
) -> Result<(T::Output, Ticket), Refusal>
    ensures closed { OnOk result (client.new.phase ≡ Phase.Closed) }
    ensures committed { IfOk result (λ done. HasCommitted client.new done.1.place) }
    ensures goes { (bound : ℕ) × GoesThrough J.origin (T.refuses transaction.now)
        (T.says transaction.now) bound client.old result client.new }
{
    let until = Moment::within(rt, patience.longest);
    client.line_up(rt, patience.alike);
    let sought = try_until(rt, client, transaction, until);
    client.leave_line(rt);
    sought
}

// Makes attempts until one goes through, or until then.
fn try_until<T: Transaction, J: Naming, R: Wait + Clock>(
    rt: &R,
    client: &mut Client<'_, J>,
    transaction: &T,
    until: Moment,
) -> Result<(T::Output, Ticket), Refusal>
    ensures closed { OnOk result (client.new.phase ≡ Phase.Closed) }
    ensures committed { IfOk result (λ done. HasCommitted client.new done.1.place) }
    ensures goes { (bound : ℕ) × GoesThrough J.origin (T.refuses transaction.now)
        (T.says transaction.now) bound client.old result client.new }
{
    client.upheld();
    let mut pause = Pause::new();
    for _ in rt.forever() {
        match try_once(rt, client, transaction) {
            Ok(done) => return Ok(done),
            Err(refusal) if is_passing(refusal) => {
                if !rest(rt, client, refusal, &mut pause, until) {
                    return Err(refusal);
                }
            }
            Err(refusal) => return Err(refusal),
        }
        if client.has_failed() {
            return Err(Refusal::Lost);
        }
    }
    unreachable!()
}

// Sleeps behind an attempt that was refused so, until another one may be worth it, or until then.
// Whether one may be.
fn rest<J: Naming, R: Wait + Clock>(
    rt: &R,
    client: &mut Client<'_, J>,
    refusal: Refusal,
    pause: &mut Pause,
    until: Moment,
) -> bool
    ensures { client.new ≡ client.old }
{
    if let Refusal::Busy(_) = refusal {
        return client.await_change(rt, until);
    }
    if until.is_over(Moment::now(rt)) {
        return false;
    }
    pause.pause(rt);
    true
}
