//! Laws of the pieces. Each is the contract of a function that does nothing.
//!
//! A step law says what one step of a piece does, whatever other threads did before: `starts`, that
//! its fact holds at the start; `steps`, what a step does where the fact holds; `keeps`, that what
//! others may change keeps the fact.
ghost use Rattle.std.specs.Prelude.{◌≡◌, ◌≢◌, ℕ, ◌^◌, ◌<◌, ◌≤◌, List, Option, None, Some};
ghost use Rattle.heap_words.specs.Alone.{EndsAlone};
ghost use Rattle.object_header.specs.Contents.{IsLaidOut, ChangesOnly, word_at};
ghost use Rattle.object_header.specs.Halves.{table_of, IsHalf};
ghost use Rattle.object_header.specs.WordMap.{Layout, Site, Part, Header, Payload, IsPart, IsSite, payload_words, place_of_site};
ghost use Rattle.object_header.specs.declared.words.HeaderWord.TheVariants.{Table};
ghost use Rattle.aux_words.specs.HalfSteps.{OfWord, KeepsTable, HasHalf};
ghost use Rattle.aux_words.specs.Install.{install, install_work, OfInstall, Installs, InstallSteps};
ghost use Rattle.aux_words.specs.ReadHalf.{read_half, read_work, IsHalfWord, ReadSteps};
ghost use Rattle.aux_words.specs.WriteHalf.{write_half, write_work, OfWrite, SetsHalf, WriteSteps};
ghost use Rattle.aux_words.specs.declared.install.Install.{Install};
ghost use Rattle.aux_words.specs.declared.read_half.ReadHalf.{ReadHalf};
ghost use Rattle.aux_words.specs.declared.write_half.WriteHalf.{WriteHalf};

/// One step of a `ReadHalf` loads the object's table word, or the half in the table that it names.
/// A table that it has loaded stands while others leave the table of an object that has one.
pub fn read_half_step()
    ensures starts { (l : Layout) (words : List ℕ) (site : Site) (word : ℕ) →
        IsPart l (Payload site word) → OfWord l words site (place_of_site l site) word None }
    ensures steps { (l : Layout) (words : List ℕ) (site : Site) (half : Part) (piece : ReadHalf) →
        IsLaidOut l words → OfWord l words site piece.object piece.word piece.table →
        HasHalf l words site piece.word half → ReadSteps l words site half piece }
    ensures keeps { (l : Layout) (old new : List ℕ) (site : Site) (object word : ℕ)
        (table : Option ℕ) → KeepsTable l old new site → OfWord l old site object word table →
        OfWord l new site object word table }
{}

/// Run alone, a `ReadHalf` tells the word's half, and 0 where the object has no table. It changes
/// no word.
pub fn read_half_alone()
    ensures { (l : Layout) (words : List ℕ) (site : Site) (word : ℕ) (half : Part) →
        IsLaidOut l words → IsPart l (Payload site word) → HasHalf l words site word half →
        EndsAlone read_work 2 (read_half (place_of_site l site) word) words
        (λ out left. IsHalfWord l words site half out × (left ≡ words)) }
{}

/// One step of a `WriteHalf` loads the object's table word, or stores the half in the table that it
/// names. No integer of the object changes by that. It can also begin with a table that is known.
pub fn write_half_step()
    ensures starts { (l : Layout) (words : List ℕ) (site : Site) (word cap : ℕ) →
        IsPart l (Payload site word) → cap < 2 ^ 64 → (table_of l words site ≡ 0 → cap ≡ 0) →
        OfWrite l words site (write_half (place_of_site l site) word cap None) }
    ensures starts_at_table { (l : Layout) (words : List ℕ) (site : Site) (word cap : ℕ) →
        IsPart l (Payload site word) → cap < 2 ^ 64 → table_of l words site ≢ 0 →
        OfWrite l words site
        (write_half (place_of_site l site) word cap (Some (table_of l words site))) }
    ensures steps { (l : Layout) (words : List ℕ) (site : Site) (half : Part) (piece : WriteHalf) →
        IsLaidOut l words → OfWrite l words site piece → HasHalf l words site piece.word half →
        WriteSteps l words site half piece }
    ensures keeps { (l : Layout) (old new : List ℕ) (site : Site) (piece : WriteHalf) →
        KeepsTable l old new site → OfWrite l old site piece → OfWrite l new site piece }
    ensures integers { (l : Layout) (old new : List ℕ) (site : Site) (word cap other : ℕ)
        (half : Part) → IsHalf l old site word half → ChangesOnly l old new half cap →
        IsPart l (Payload site other) →
        word_at l new (Payload site other) ≡ word_at l old (Payload site other) }
{}

/// Run alone, a `WriteHalf` sets the word's half where the object has a table, and changes no other
/// word: a `ReadHalf` gets it then. Where the object has no table, it changes no word.
pub fn write_half_alone()
    ensures sets { (l : Layout) (words : List ℕ) (site : Site) (word cap : ℕ) (half : Part) →
        IsLaidOut l words → IsPart l (Payload site word) → cap < 2 ^ 64 →
        (table_of l words site ≡ 0 → cap ≡ 0) → HasHalf l words site word half →
        EndsAlone write_work 2 (write_half (place_of_site l site) word cap None) words
        (λ out left. SetsHalf l words left site half cap) }
    ensures got { (l : Layout) (old new : List ℕ) (site : Site) (word cap : ℕ) (half : Part) →
        IsLaidOut l old → IsPart l (Payload site word) → IsHalf l old site word half →
        ChangesOnly l old new half cap →
        EndsAlone read_work 2 (read_half (place_of_site l site) word) new
        (λ out left. (out ≡ cap) × (left ≡ new)) }
{}

/// The step of an `Install` tells the table that the object has then: its own, or the one that is
/// brought where it had none, and then each of its words has a half there. Its fact is of the piece
/// alone, so others keep it.
pub fn install_step()
    ensures starts { (l : Layout) (site table : Site) → IsSite l site → IsSite l table →
        table ≢ site → payload_words l site ≤ payload_words l table →
        OfInstall l site table (install (place_of_site l site) (place_of_site l table)) }
    ensures steps { (l : Layout) (words : List ℕ) (site table : Site) (piece : Install) →
        IsLaidOut l words → OfInstall l site table piece → InstallSteps l words site piece }
    ensures halves { (l : Layout) (old new : List ℕ) (site table : Site) (word : ℕ)
        (piece : Install) → OfInstall l site table piece → IsPart l (Payload site word) →
        ChangesOnly l old new (Header site Table) piece.table →
        IsHalf l new site word (Payload table word) }
{}

/// Run alone, an `Install` does the same.
pub fn install_alone()
    ensures { (l : Layout) (words : List ℕ) (site table : Site) → IsLaidOut l words →
        OfInstall l site table (install (place_of_site l site) (place_of_site l table)) →
        EndsAlone install_work 1 (install (place_of_site l site) (place_of_site l table)) words
        (λ out left. Installs l words left site (place_of_site l table) out) }
{}
