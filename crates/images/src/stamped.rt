// A copy of a collection, on which calls are repeated that came behind it.
ghost use Rattle.std.specs.Prelude.{◌≡◌, OnOk, OnErr, IsOkUnless};
ghost use Rattle.images.specs.Gathers.{with_effect, with_effect_at, CanRepeat, CanRepeatAt};
ghost use Rattle.images.specs.Views.{copy_of, copies_of};

use crate::Effect;
use calls::Refusal;
use catalog::Part;

/// A copy of a collection, and how many records came before it was taken.
#[derive(Drop)]
pub(crate) struct Stamped<P: Part> {
    pub(crate) part: P,
    pub(crate) stamp: u64,
}

impl<P: Part> Stamped<P> {
    // Runs the call on the copy too, if it came behind the copy. NoMemory leaves it as before.
    fn repeat(&mut self, effect: &Effect) -> Result<(), Refusal>
        requires { CanRepeat (copy_of P.collection self.old) effect.now }
        ensures ok { OnOk result (copy_of P.collection self.new ≡
            with_effect (copy_of P.collection self.old) effect.now) }
        ensures err { OnErr result (copy_of P.collection self.new ≡
            copy_of P.collection self.old) }
        ensures refusal { IsOkUnless result Refusal.NoMemory }
    {
        if self.stamp < effect.lsn {
            return self.part.run(&effect.call, &effect.reply);
        }
        Ok(())
    }
}

// Runs the call on the copy of its collection, if there is one and the call came behind it.
// NoMemory leaves the copies as before.
pub(crate) fn repeat<P: Part>(copies: &mut [Stamped<P>], effect: &Effect) -> Result<(), Refusal>
    requires { CanRepeatAt (copies_of P.collection copies.old) effect.now.collection effect.now }
    ensures ok { OnOk result (copies_of P.collection copies.new ≡
        with_effect_at (copies_of P.collection copies.old) effect.now.collection effect.now) }
    ensures err { OnErr result (copies_of P.collection copies.new ≡
        copies_of P.collection copies.old) }
    ensures refusal { IsOkUnless result Refusal.NoMemory }
{
    let at = usize::from(effect.collection);
    if at < copies.len() {
        return copies[at].repeat(effect);
    }
    Ok(())
}
