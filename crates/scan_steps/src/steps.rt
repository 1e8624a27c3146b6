// Small steps of tries.
ghost use Rattle.std.specs.Prelude.{◌≡◌, [], ◌∷◌, MatchOption};
ghost use Rattle.acts.specs.Prelude.{DoesAs, itself};
ghost use Rattle.body_meaning.specs.Prelude.{about, is_among, is_stall_among, known, nothing_known, waiting};

use acts::{Local, Trouble, again};
use body_meaning::{About, Known, Tried, Trigger};

/// The first of these, and the others.
pub fn split<X>(items: &[X]) -> Option<(&X, &[X])>
    ensures { MatchOption result (items.now ≡ []) (λ p. items.now ≡ p.0.now ∷ p.1.now) }
{
    items.split_first()
}

/// Whether the number is among these.
pub fn is_among(n: u16, numbers: &[u16]) -> bool
    ensures { result ≡ is_among n numbers.now }
{
    numbers.contains(&n)
}

/// Whether the machine's action for stalls is among these.
pub fn is_stall_among(actions: &[u16], stall: Option<u16>) -> bool
    ensures { result ≡ is_stall_among actions.now stall }
{
    match stall {
        None => false,
        Some(stall) => is_among(stall, actions),
    }
}

/// What a transition is about that was triggered so.
pub fn about(t: Trigger) -> About
    ensures { result ≡ about t }
{
    About {
        address: t.address,
        entry: t.entry,
        tbe: t.tbe,
    }
}

/// What is known of a transition that was triggered so, with its state where that is read already.
pub fn known(t: Trigger, state: Option<u16>) -> Known
    ensures { result ≡ known t state }
{
    Known {
        address: Some(t.address),
        state,
        event: Some(t.event),
    }
}

/// What is known of a transition while a port's body is done: nothing yet.
pub fn nothing_known() -> Known
    ensures { result ≡ nothing_known }
{
    Known {
        address: None,
        state: None,
        event: None,
    }
}

/// Does a stall: the controller wakes in the next cycle.
pub fn waiting<T: Local>(local: &mut T) -> Result<Tried, Trouble>
    ensures { DoesAs itself waiting result (T.view local.old) (T.view local.new) }
{
    again(local)?;
    Ok(Tried::Waits)
}
