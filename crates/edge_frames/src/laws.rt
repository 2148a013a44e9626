//! What holds of all streams and messages, stated as contracts of functions that do nothing: so it is proved.
ghost use Rattle.std.specs.Prelude.{◌≡◌, ℕ, ◌≤◌, List, ◌++◌, length, map};
ghost use Rattle.std.specs.List.{AllByRecursion};
ghost use Rattle.fix_frame.specs.Grammar.{Field, IsField, IsFrame, most_in, print_fields};
ghost use Rattle.edge_frames.specs.Fields.{ended, piece_field};
ghost use Rattle.edge_frames.specs.Faults.{IsTaken};
ghost use Rattle.edge_frames.specs.Messages.{ComesOut};
ghost use Rattle.edge_frames.specs.Stream.{Come, Yields};
ghost use Rattle.edge_frames.specs.declared.verdict.Verdict.TheVariants.{Taken};

/// Two cuts of one stream are one: which messages come out of a stream is settled by its bytes.
pub fn streams_give_one_answer()
    ensures { (longest most : ℕ) (stream : List ℕ) (cs ds : List Come) (rest last : List ℕ) →
        Yields longest most stream cs rest → Yields longest most stream ds last → (cs ≡ ds) × (rest ≡ last) }
{}

/// What has come out stays, and what comes out of more bytes is found behind the rest: so the pieces in which a stream
/// comes make no difference.
pub fn streams_go_on()
    ensures { (longest most : ℕ) (stream more : List ℕ) (cs ds : List Come) (rest last : List ℕ) →
        Yields longest most stream cs rest → Yields longest most (rest ++ more) ds last →
        Yields longest most (stream ++ more) (cs ++ ds) last }
{}

/// Each message that the venue takes, of fields that the edge takes, comes out at the edge as taken.
pub fn messages_of_the_venue_come()
    ensures { (longest most : ℕ) (text : List ℕ) (fields : List Field) → IsFrame most_in text fields →
        AllByRecursion IsTaken fields → 320 ≤ longest → length fields ≤ most → ComesOut longest most text Taken }
{}

/// The fields that a run of the venue's spells are these for the edge too.
pub fn fields_are_the_venues()
    ensures { (fields : List Field) → AllByRecursion IsField fields →
        map piece_field (ended (print_fields fields)) ≡ fields }
{}
