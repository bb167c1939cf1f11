//! Laws of the pieces. Each is the contract of a function that does nothing.
//!
//! A step law says what one step of a piece does, whatever other threads did before: `starts`, that
//! its fact holds at the start; `steps`, what a step does where the fact holds; `keeps`, that what
//! others may change keeps the fact.
ghost use Rattle.std.specs.Prelude.{◌≡◌, ◌≢◌, ◌↔◌, ℕ, ◌+◌, ◌^◌, ◌<◌, ◌≤◌, List, ◌∷◌, length, All, Ok, Err, None, true, false};
ghost use Rattle.std.specs.List.{Any};
ghost use Rattle.filc_num.specs.declared.reason.Reason.TheVariants.{OutputLimit};
ghost use Rattle.heap_words.specs.Alone.{EndsAlone};
ghost use Rattle.heap_words.specs.Answers.{TellsAfter, operations_at};
ghost use Rattle.heap_words.specs.declared.piece.Step.TheVariants.{Done};
ghost use Rattle.object_header.specs.Codings.{exit_code};
ghost use Rattle.object_header.specs.Contents.{IsLaidOut};
ghost use Rattle.object_header.specs.WordMap.{Layout};
ghost use Rattle.object_header.specs.declared.codings.ExitWord.TheVariants.{Unset};
ghost use Rattle.thread_slots.specs.BeginThread.{begin_thread, begin_work, beginning_in, BeginSteps, IsRunning, KeepsThread, OfSlot};
ghost use Rattle.thread_slots.specs.Finish.{finish, finish_work, FinishSteps, IsEnded, OfExit};
ghost use Rattle.thread_slots.specs.GetByte.{get_byte, get_work, GetsAlone, GetSteps, OfInput};
ghost use Rattle.thread_slots.specs.Output.{IsWritten};
ghost use Rattle.thread_slots.specs.PutByte.{put_byte, put_work, bytes_put, FoundTaken, LeavesWords, OfOutput, PutsAlone, PutsOnce, PutSteps};
ghost use Rattle.thread_slots.specs.declared.begin_thread.BeginThread.{BeginThread};
ghost use Rattle.thread_slots.specs.declared.finish.Finish.{Finish};
ghost use Rattle.thread_slots.specs.declared.get_byte.GetByte.{GetByte};
ghost use Rattle.thread_slots.specs.declared.put_byte.PutByte.{PutByte};

/// One step of a `PutByte` keeps the output in order and changes one word. A byte that it puts out
/// is its own, and the next one. `bytes_put` is 0 at its start, and each step adds what it puts
/// out. So it tells `Ok` where it has put out one byte, and gives up where it has put out none and
/// the output is full. What others do between two of its steps can only put more bytes out.
pub fn put_byte_step()
    ensures starts { (l : Layout) (bytes : List ℕ) (byte : ℕ) → byte < 256 →
        let piece = put_byte l.slots l.out_words byte in
        OfOutput l bytes piece × (bytes_put piece.stage ≡ 0) }
    ensures steps { (l : Layout) (words bytes : List ℕ) (piece : PutByte) → IsLaidOut l words →
        IsWritten l words bytes → OfOutput l bytes piece → PutSteps l words bytes piece }
    ensures keeps { (l : Layout) (bytes more : List ℕ) (piece : PutByte) →
        length bytes ≤ length more → OfOutput l bytes piece → OfOutput l more piece }
{}

/// Run alone, a `PutByte` writes its byte into the first output word that isn't taken, moves the
/// hint behind it, and changes no other word. Where all output words are taken it gives up, and
/// changes no word.
pub fn put_byte_alone()
    ensures { (l : Layout) (words bytes : List ℕ) (byte : ℕ) → IsLaidOut l words →
        IsWritten l words bytes →
        EndsAlone put_work (l.out_words + 3) (put_byte l.slots l.out_words byte) words
        (PutsAlone l words bytes byte) }
{}

/// Whatever other threads do in between, a `PutByte` that tells `Ok` has won one exchange, which put
/// its byte into a free output word, and has then stored the hint behind that word. It changed no
/// other word. One that gives up has changed no word at all, and a load or an exchange of its own
/// found each output word taken, from the hint that it loaded on.
pub fn put_byte_with_any_answers()
    ensures puts_once { (slots out_words byte : ℕ) (answers : List ℕ) →
        TellsAfter put_work (put_byte slots out_words byte) answers (Ok tt) →
        PutsOnce slots out_words byte
        (operations_at put_work (put_byte slots out_words byte) answers) }
    ensures puts_none { (slots out_words byte : ℕ) (answers : List ℕ) →
        TellsAfter put_work (put_byte slots out_words byte) answers (Err OutputLimit) →
        All LeavesWords (operations_at put_work (put_byte slots out_words byte) answers) }
    ensures found_taken { (slots out_words byte hint index : ℕ) (answers : List ℕ) →
        TellsAfter put_work (put_byte slots out_words byte) (hint ∷ answers) (Err OutputLimit) →
        hint ≤ index → index < out_words →
        Any (FoundTaken slots byte index)
        (operations_at put_work (put_byte slots out_words byte) (hint ∷ answers)) }
{}

/// One step of a `GetByte` tells the number of the next byte where its exchange wins, and `None`
/// exactly where its load shows that the input has ended. It begins again only where its exchange
/// was lost, and its length stays. Its fact is of the piece alone, so others keep it.
pub fn get_byte_step()
    ensures starts { (length : ℕ) → length < 2 ^ 64 → OfInput (get_byte length) }
    ensures steps { (l : Layout) (words : List ℕ) (piece : GetByte) → IsLaidOut l words →
        OfInput piece → GetSteps l words piece }
    ensures end { (piece : GetByte) (answer : ℕ) → (get_work.takes piece answer).told ≡ Done None
        ↔ ((piece.found ≡ None) × (piece.length ≤ answer)) }
{}

/// Run alone, a `GetByte` tells how many bytes were got where that is below the input's length.
/// Then it is one more, and no other word changes. At the input's end it tells `None`, and then no
/// word changes.
pub fn get_byte_alone()
    ensures { (l : Layout) (words : List ℕ) (length : ℕ) → IsLaidOut l words → length < 2 ^ 64 →
        EndsAlone get_work 2 (get_byte length) words (GetsAlone l words length) }
{}

/// The step of a `Finish` tells whether it ended the run. It didn't exactly where the exit word was
/// set. Its fact is of the piece alone, so others keep it.
pub fn finish_step()
    ensures starts { (word : ℕ) → word < 2 ^ 64 → word ≢ exit_code Unset → OfExit (finish word) }
    ensures steps { (l : Layout) (words : List ℕ) (piece : Finish) → IsLaidOut l words →
        OfExit piece → FinishSteps l words piece }
    ensures lost { (piece : Finish) (answer : ℕ) →
        (finish_work.takes piece answer).told ≡ Done false ↔ (answer ≢ exit_code Unset) }
{}

/// Run alone, a `Finish` tells `true` where the exit word was unset. Then the exit word is its own,
/// and no other word changes. It tells `false` where the exit word was set, and then no word
/// changes.
pub fn finish_alone()
    ensures { (l : Layout) (words : List ℕ) (word : ℕ) → IsLaidOut l words → OfExit (finish word) →
        EndsAlone finish_work 1 (finish word) words (λ out left. IsEnded l words left word out) }
{}

/// One step of a `BeginThread` loads a word of its slot. What it has loaded stands while others
/// leave the slot's state, function and address; the capability is the one of the last step.
pub fn begin_thread_step()
    ensures starts { (l : Layout) (words : List ℕ) (slot generation : ℕ) →
        IsRunning l words slot generation →
        OfSlot l words slot generation (begin_thread l.slots slot) }
    ensures steps { (l : Layout) (words : List ℕ) (slot generation : ℕ) (piece : BeginThread) →
        IsLaidOut l words → OfSlot l words slot generation piece →
        BeginSteps l words slot generation piece }
    ensures keeps { (l : Layout) (old new : List ℕ) (slot generation : ℕ) (piece : BeginThread) →
        KeepsThread l old new slot → OfSlot l old slot generation piece →
        OfSlot l new slot generation piece }
{}

/// Run alone, a `BeginThread` tells the id of the thread that runs in its slot, the function that
/// it begins with, and the argument's address and capability. It changes no word.
pub fn begin_thread_alone()
    ensures { (l : Layout) (words : List ℕ) (slot generation : ℕ) → IsLaidOut l words →
        IsRunning l words slot generation →
        EndsAlone begin_work 4 (begin_thread l.slots slot) words
        (λ out left. (out ≡ beginning_in l words slot generation) × (left ≡ words)) }
{}
