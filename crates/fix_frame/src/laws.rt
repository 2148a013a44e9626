//! What holds of all frames and streams, stated as contracts of functions that do nothing: so it is proved.
ghost use Rattle.std.specs.Prelude.{◌≡◌, ℕ, List, ◌++◌};
ghost use Rattle.std.specs.List.{AllByRecursion};
ghost use Rattle.fix_frame.specs.Grammar.{Field, IsField, IsBody, most_in, print_fields, frame_text, fields_of};
ghost use Rattle.fix_frame.specs.Stream.{Cut};
ghost use Rattle.fix_frame.specs.Framing.{IsFaultless};

/// A run of fields spells these fields and no others.
pub fn fields_are_spelled_once()
    ensures { (fs : List Field) → AllByRecursion IsField fs → fields_of (print_fields fs) ≡ fs }
{}

/// Two cuts of one stream are one, so its frames don't depend on the pieces in which it comes.
pub fn streams_are_cut_once() // promise 1
    ensures { (stream : List ℕ) (frames others : List (List Field)) (rest more : List ℕ) →
        Cut stream frames rest → Cut stream others more → (frames ≡ others) × (rest ≡ more) }
{}

/// A stream that begins with a frame has no fault: the next message is judged only once the frame was given.
pub fn frames_have_no_fault() // promise 1
    ensures { (fields : List Field) (more : List ℕ) → IsBody most_in fields →
        IsFaultless (frame_text fields ++ more) }
{}
