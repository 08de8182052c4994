//! What the words of links name.
ghost use Rattle.std.specs.Prelude.{◌≡◌, ◌⊎◌, ◌↔◌, IfSome, IsNone};
ghost use Rattle.pgas_base.specs.Pointers.{IsPointer, NamesPointer, word_of};

use pgas_base::Ptr;

/// What a link names: its word is 0 or a pointer's, and one comparison tells.
#[inline]
pub(crate) fn linked(word: u64) -> Option<Ptr>
    requires link { (word ≡ 0) ⊎ NamesPointer word }
    ensures some { IfSome result (λ pointer. word_of pointer ≡ word) }
    ensures pointer { IfSome result (λ pointer. IsPointer pointer) }
    ensures none { IsNone result ↔ ¬ NamesPointer word }
{
    if word == 0 {
        return None;
    }
    Some(Ptr::named(word))
}
