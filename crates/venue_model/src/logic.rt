//! What the rings and the stages know of the book, and what the journal promises: traits without code.

/// The meaning of a history. The rings hand on entries, commands and outputs of whatever logic they are opened with.
pub trait Logic {
    ghost use Rattle.std.specs.Prelude.{◌≡◌, ℕ, ◌≤◌, List, [], ◌∷◌, ◌++◌, length};
    ghost use Rattle.venue_model.specs.History.{Message};
    ghost use Rattle.venue_model.specs.declared.commands.Command.{Command};
    ghost use Rattle.venue_model.specs.declared.outputs.Output.{Output};
    ghost use Rattle.venue_model.specs.Texts.{Text};

    /// The command of the entry at this sequence.
    ghost reads: { Self → ℕ → Message → Command };

    /// All outputs of a history, in order.
    ghost outputs: { Self → List Message → List Output };

    /// What the output at this place of the list of all outputs says to its client.
    ghost text: { Self → Output → ℕ → Text };

    /// Without entries there are no outputs.
    ghost nothing: { (logic : Self) → outputs logic [] ≡ [] };

    /// A longer history's outputs begin with the shorter's, and one more entry adds at most 8,194.
    ghost grows: { (logic : Self) (h : List Message) (e : Message) →
        (more : List Output) × (outputs logic (h ++ e ∷ []) ≡ outputs logic h ++ more) × (length more ≤ 8194) };
}

/// What outlives a crash.
pub trait Kept {
    ghost use Rattle.std.specs.Prelude.{List};
    ghost use Rattle.venue_model.specs.History.{Message};

    /// Each list of entries that a crash now may leave begins with this history.
    ghost keeps: { Self → List Message → Type 0 };
}
