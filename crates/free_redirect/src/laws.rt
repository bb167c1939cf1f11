//! Laws of the piece. Each is the contract of a function that does nothing.
//!
//! A step law says what one step of a piece does, whatever other threads did before: `starts`, that
//! its fact holds at the start; `steps`, what a step does where the fact holds.
ghost use Rattle.std.specs.Prelude.{◌≡◌, ◌↔◌, ℕ, List, Err, bit_or};
ghost use Rattle.filc_num.specs.declared.reason.Reason.TheVariants.{Freed};
ghost use Rattle.heap_words.specs.Alone.{EndsAlone};
ghost use Rattle.heap_words.specs.declared.piece.Step.TheVariants.{Done};
ghost use Rattle.object_header.specs.Codings.{HasVoidBit, state_code};
ghost use Rattle.object_header.specs.Contents.{IsLaidOut};
ghost use Rattle.object_header.specs.WordMap.{Layout, Site, IsSite, place_of_site};
ghost use Rattle.object_header.specs.declared.codings.CellState.TheVariants.{Live, Void};
ghost use Rattle.object_header.specs.declared.codings.TheConstants.{VOID_BIT};
ghost use Rattle.free_redirect.specs.VoidObject.{void_object, void_work, OfObject, VoidSteps, VoidsAlone};
ghost use Rattle.free_redirect.specs.declared.void_object.VoidObject.{VoidObject};

/// The step of a `VoidObject` sets the void bit of the object's state, and changes no other word.
/// It tells `Freed` exactly where the bit was set. So a live object becomes void, and of one that
/// is void already no word changes. Its fact is of the piece alone, so others keep it.
pub fn void_object_step()
    ensures starts { (l : Layout) (site : Site) → IsSite l site →
        OfObject l site (void_object (place_of_site l site)) }
    ensures steps { (l : Layout) (words : List ℕ) (site : Site) (piece : VoidObject) →
        IsLaidOut l words → OfObject l site piece → VoidSteps l words site piece }
    ensures freed { (piece : VoidObject) (answer : ℕ) →
        (void_work.takes piece answer).told ≡ Done (Err Freed) ↔ HasVoidBit answer }
    ensures live { bit_or (state_code Live) VOID_BIT ≡ state_code Void }
    ensures void { bit_or (state_code Void) VOID_BIT ≡ state_code Void }
{}

/// Run alone, a `VoidObject` does the same.
pub fn void_object_alone()
    ensures { (l : Layout) (words : List ℕ) (site : Site) → IsLaidOut l words → IsSite l site →
        EndsAlone void_work 1 (void_object (place_of_site l site)) words
        (VoidsAlone l words site) }
{}
