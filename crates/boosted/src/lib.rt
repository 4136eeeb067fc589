//! Collections whose calls can be undone, and change places where their needs do not conflict.
//!
//! The trait `Boosted` is what Herlihy and Koskinen's transactional boosting (PPoPP 2008) asks of a
//! base object: what each call does, which calls commute, and the inverse of each. Its laws are all
//! that the layers above know of a collection.
#![tactic(auto)]

ghost use Rattle.std.specs.Prelude.{◌≡◌, ◌↔◌, IsTrue, OnOk, OnErr, IfOk, IfErr, IsOk, IsOkUnless};
ghost use Rattle.std.specs.Option.{option_to_list};
ghost use Rattle.calls.specs.declared.refusal.Refusal.{Refusal};
ghost use Rattle.calls.specs.Rules.{need_of, inverse_of, Askable, Disposable, left_by};
ghost use Rattle.calls.specs.Rules.{TakesNoMemory, AsksForValue, PutsNothingBack};
ghost use Rattle.calls.specs.Formats.{widest};
ghost use Rattle.boosted.specs.Meaning.{Meaning, HasReply, HasRoom, CanAsk, CanDefer, AskRefused};
ghost use Rattle.boosted.specs.Meaning.{DeferRefused};
ghost use Rattle.boosted.specs.Laws.{BoostedLaws};

use calls::{Call, Need, Refusal, Reply};

mod counter;
mod map;
mod pool;
mod queue;
mod quotas;
mod set;
mod stock;
mod table;

pub use table::{check_asked, check_deferred};

/// A collection, or many at their places, with calls that can be undone.
pub trait Boosted: Drop {
    /// Where a call goes: `()` for one collection, and a collection's number for many.
    type At: Copy;

    /// What the calls mean: their replies, what they leave, where they belong, and how far so many
    /// runs reach.
    ghost meaning: { Meaning Self Self.At };

    /// A reply that the call may get now. NoMemory only for a call whose reply may hold a value.
    fn look(&self, at: Self::At, call: &Call) -> Result<Reply, Refusal>
        requires place { meaning.belongs self.now at call.now }
        requires reply { HasReply meaning self.now at call.now }
        ensures ok { IfOk result (λ reply. meaning.answers self.now at call.now reply) }
        ensures refusal { IsOkUnless result Refusal.NoMemory }
        ensures value { OnErr result (AsksForValue call.now) };

    /// Whether the call may get this reply now. It takes no memory.
    fn fits(&self, at: Self::At, call: &Call, reply: &Reply) -> bool
        ensures { IsTrue result ↔ meaning.answers self.now at call.now reply.now };

    /// Makes the call, answered so. NoMemory leaves the content as before, and comes only for a
    /// call that puts something in: a SetAdd, a Put, a QueueAdd, a Draw, a QuotaFill or a Refund.
    fn run(&mut self, at: Self::At, call: &Call, reply: &Reply) -> Result<(), Refusal>
        requires can { meaning.answers self.old at call.now reply.now }
        requires room { HasRoom meaning self.old }
        ensures ok { OnOk result (self.new ≡ meaning.leaves self.old at call.now reply.now) }
        ensures err { OnErr result (self.new ≡ self.old) }
        ensures refusal { IsOkUnless result Refusal.NoMemory }
        ensures no_memory { TakesNoMemory call.now → IsOk result };

    /// Whether a client can ask for the call. Where not: the refusals of a call that is not of the
    /// place, then BadArg for one that a client cannot ask, then TooLong for a value over 1,024
    /// bytes, which no format has. It takes no memory.
    fn askable(&self, at: Self::At, call: &Call) -> Result<(), Refusal>
        ensures ok { IsOk result ↔ CanAsk meaning widest self.now at call.now }
        ensures err { IfErr result (AskRefused meaning widest self.now at call.now) };

    /// Whether a client can put the call off. Where not: the refusals of a call that is not of the
    /// place, then BadArg.
    /// It takes no memory.
    fn deferrable(&self, at: Self::At, call: &Call) -> Result<(), Refusal>
        ensures ok { IsOk result ↔ CanDefer meaning self.now at call.now }
        ensures err { IfErr result (DeferRefused meaning self.now at call.now) };

    /// Whether the call may run in a commit: a Bump, a Free, or a Fill.
    fn disposable(call: &Call) -> bool
        ensures { IsTrue result ↔ Disposable call.now }
    {
        call.is_disposable()
    }

    /// The keys that a call with its reply uses, and how.
    fn need(call: &Call, reply: &Reply) -> Need
        ensures { result ≡ need_of call.now reply.now }
    {
        call.need(reply)
    }

    /// The call that takes back what a call did, answered so; none where it changed nothing.
    /// NoMemory only for one that puts a value back.
    fn inverse(call: &Call, reply: &Reply) -> Result<Option<Call>, Refusal>
        requires { Askable call.now }
        ensures ok { IfOk result (λ back. back ≡ inverse_of call.now reply.now) }
        ensures refusal { IsOkUnless result Refusal.NoMemory }
        ensures value { OnErr result (PutsNothingBack call.now reply.now → ⊥) }
    {
        call.inverse(reply)
    }

    /// The later that a call, answered so, leaves to the commit.
    fn after(call: &Call, reply: &Reply) -> Option<Call>
        ensures { option_to_list result ≡ left_by call.now reply.now }
    {
        call.after(reply)
    }

    /// Calls are taken back by their inverses; those whose needs do not conflict commute, and a
    /// later moves left past them; one that only reads changes nothing; a run wears by one; what is
    /// deferred or left to the commit can run there.
    ghost laws: { BoostedLaws meaning };
}
