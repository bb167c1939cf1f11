//! Laws of the pieces. Each is the contract of a function that does nothing.
//!
//! A step law says what one step of a piece does, whatever other threads did before: `starts`, that
//! its fact holds at the start; `steps`, what a step does where the fact holds; `keeps`, that what
//! others may change keeps the fact.
ghost use Rattle.std.specs.Prelude.{◌≡◌, ℕ, ◌+◌, ◌*◌, ◌^◌, ◌<◌, ◌≤◌, List, length, Option, None, Some};
ghost use Rattle.heap_words.specs.Alone.{EndsAlone};
ghost use Rattle.heap_words.specs.Answers.{TellsAfter, operations_at};
ghost use Rattle.object_header.specs.Contents.{IsLaidOut, ChangesWithin, IsPublished, KeepsSite};
ghost use Rattle.object_header.specs.WordMap.{Layout, Site, Cell, IsSite, IsWellFormed, class_at, payload_words, place_of_site};
ghost use Rattle.object_header.specs.declared.codings.Collect.{Collect};
ghost use Rattle.object_header.specs.declared.codings.Kind.{Kind};
ghost use Rattle.cell_alloc.specs.Claim.{claim, claim_work, ClaimSteps, OfClass};
ghost use Rattle.cell_alloc.specs.Claims.{ClaimsAlone, ClaimsCell, IsFirstFree, PassesOver, Wins};
ghost use Rattle.cell_alloc.specs.Publish.{publish, publish_work, IsFilled, OfSite, PublishSteps};
ghost use Rattle.cell_alloc.specs.declared.claim.Claim.{Claim};
ghost use Rattle.cell_alloc.specs.declared.publish.Publish.{Publish};

/// One step of a `Claim` is on the state word of the cell that it is at. It tells a place only
/// where its exchange made this cell a claimed one. A step that tells `None` changes no word. Where
/// nothing is ever collected, it tells `None` only at the last cell of its class, which this step
/// found not free. Its fact is of the piece alone, so others keep it.
pub fn claim_step()
    ensures starts { (l : Layout) (class : ℕ) (collect : Collect) → IsWellFormed l →
        class < length l.classes → OfClass l class (claim l class collect) }
    ensures steps { (l : Layout) (words : List ℕ) (class : ℕ) (piece : Claim) →
        IsLaidOut l words → OfClass l class piece → ClaimSteps l words class piece }
{}

/// Run alone, a `Claim` claims the first free cell of its class, tells its place, and changes no
/// other word. Where none is free and nothing is ever collected, it tells `None` and changes no
/// word at all.
pub fn claim_alone()
    ensures taken { (l : Layout) (words : List ℕ) (class cell : ℕ) (collect : Collect) →
        IsLaidOut l words → IsFirstFree l words class cell →
        EndsAlone claim_work ((class_at l.classes class).1 + 1) (claim l class collect) words
        (ClaimsCell l words class cell) }
    ensures never { (l : Layout) (words : List ℕ) (class : ℕ) → IsLaidOut l words →
        class < length l.classes →
        EndsAlone claim_work ((class_at l.classes class).1 + 1) (claim l class Collect.Never) words
        (ClaimsAlone l words class) }
{
    claim_step();
}

/// Whatever other threads do in between, a `Claim` that tells `None` where nothing is ever
/// collected has looked once at each cell of its class, in order: the load of its state showed that
/// it isn't free, or its exchange was lost. So none of its exchanges won. A `Claim` that tells a
/// place has passed over the cells before that one in the same way, and its last exchange won.
pub fn claim_with_any_answers()
    ensures none { (l : Layout) (class : ℕ) (answers : List ℕ) →
        IsWellFormed l → class < length l.classes →
        TellsAfter claim_work (claim l class Collect.Never) answers None →
        PassesOver l class (class_at l.classes class).1
        (operations_at claim_work (claim l class Collect.Never) answers) }
    ensures some { (l : Layout) (class place : ℕ) (collect : Collect) (answers : List ℕ) →
        IsWellFormed l → class < length l.classes →
        TellsAfter claim_work (claim l class collect) answers (Some place) →
        Wins l class place (operations_at claim_work (claim l class collect) answers) }
{
    claim_step();
}

/// One step of a `Publish` stores to a part of its cell. What it stored before still stands there
/// as long as nobody else changes the cell, so a cell that gets its mark names nothing, and one
/// that becomes live is published.
pub fn publish_step()
    ensures starts { (l : Layout) (words : List ℕ) (site : Site) (bytes colour : ℕ) (kind : Kind) →
        IsSite l site → bytes ≤ 8 * payload_words l site → bytes < 2 ^ 60 → colour < 2 ^ 64 →
        let piece = publish (payload_words l site) (place_of_site l site) bytes kind colour in
        OfSite l site piece × IsFilled l words site piece }
    ensures steps { (l : Layout) (words : List ℕ) (site : Site) (piece : Publish) →
        IsLaidOut l words → OfSite l site piece → IsFilled l words site piece →
        PublishSteps l words site piece }
    ensures keeps { (l : Layout) (old new : List ℕ) (site : Site) (piece : Publish) →
        OfSite l site piece → KeepsSite l old new site →
        IsFilled l old site piece → IsFilled l new site piece }
{}

/// Run alone, a `Publish` makes the cell a live one with these bytes, this kind and this colour,
/// with no table and no link, and with a payload that is all 0. It changes no word of another part.
pub fn publish_alone()
    ensures { (l : Layout) (words : List ℕ) (site : Site) (bytes colour : ℕ) (kind : Kind) →
        IsLaidOut l words → IsSite l site → bytes ≤ 8 * payload_words l site → bytes < 2 ^ 60 →
        colour < 2 ^ 64 →
        let piece = publish (payload_words l site) (place_of_site l site) bytes kind colour in
        EndsAlone publish_work (payload_words l site + 5) piece words (λ out left.
        IsPublished l left site bytes kind colour × ChangesWithin l words left site) }
{}
