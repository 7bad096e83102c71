// The object slots.
ghost use Rattle.std.specs.Prelude.{◌≡◌, [], ◌∷◌};
ghost use Rattle.laws.specs.Logic.{◌and◌};
ghost use Rattle.codec.specs.Bytes.{same};
ghost use Rattle.block.specs.Slot.{object_words, object_of};
ghost use Rattle.canonical.specs.Parts.{object_list, option?};
ghost use Rattle.canonical.specs.Kinds.{reset?, tick?};

use crate::head;
use crate::row::Canonical;
use block::slot::ObjectWords;
use types::object::Slot;

// Neither of the two last words.
fn no_times(w: ObjectWords) -> bool
    ensures { result ≡ same (w.x ∷ w.y ∷ []) (0 ∷ 0 ∷ []) }
{
    w.x == 0 && w.y == 0
}

// Nothing after two words.
fn two_words(w: ObjectWords) -> bool
    ensures { result ≡ same (w.c ∷ w.x ∷ w.y ∷ []) (0 ∷ 0 ∷ 0 ∷ []) }
{
    w.c == 0 && no_times(w)
}

// Nothing after one word.
fn one_word(w: ObjectWords) -> bool
    ensures { result ≡ same (w.b ∷ w.c ∷ w.x ∷ w.y ∷ []) (0 ∷ 0 ∷ 0 ∷ 0 ∷ []) }
{
    w.b == 0 && two_words(w)
}

fn no_word(w: ObjectWords) -> bool
    ensures { result ≡ same (w.a ∷ w.b ∷ w.c ∷ w.x ∷ w.y ∷ []) (0 ∷ 0 ∷ 0 ∷ 0 ∷ 0 ∷ []) }
{
    w.a == 0 && one_word(w)
}

// A reset type, and a mark.
fn reset_same(a: u32, b: u32) -> bool
    ensures { result ≡ reset? a b }
{
    a <= 2 && b < 2
}

fn event_same(w: ObjectWords) -> bool
    ensures { result ≡ (reset? w.a w.b and same (w.c ∷ w.x ∷ w.y ∷ []) (0 ∷ 0 ∷ 0 ∷ [])) }
{
    reset_same(w.a, w.b) && two_words(w)
}

fn mutex_same(w: ObjectWords) -> bool
    ensures { result ≡ (option? w.a w.b and same (w.x ∷ w.y ∷ []) (0 ∷ 0 ∷ [])) }
{
    head::same_option(w.a, w.b as u64) && no_times(w)
}

fn timer_same(w: ObjectWords) -> bool
    ensures { result ≡ (reset? w.a w.b and tick? w.c w.x) }
{
    reset_same(w.a, w.b) && head::same_option(w.c, w.x)
}

// Each kind by the words that it has: an object made from them and taken apart again would be compared word by word.
#[tactic(auto, using(crate::proofs::Tests::tests, crate::specs::Kinds::as_event, crate::specs::Kinds::as_timer))]
fn object_same(w: ObjectWords) -> bool
    ensures { result ≡ same (object_list w) (object_list (object_words (object_of w))) }
{
    match w.kind {
        0 | 1 | 6 => one_word(w),
        2 => event_same(w),
        3 => mutex_same(w),
        4 => two_words(w),
        5 => timer_same(w),
        7 | 8 => no_word(w),
        _ => false,
    }
}

impl Canonical for Slot {
    // Any count is the encoding of itself.
    fn canonical(s: &[u8]) -> bool {
        let w = block::slot::get_words(s);
        object_same(w) && codec::get32(s, 8) < 2
    }
}
