//! Laws of the rule that holds between any two steps, in the words of those who read it: functions that do nothing,
//! whose contracts are the laws.
ghost use Rattle.std.specs.Prelude.{◌≡◌, ℕ, ◌%◌, ◌≤◌, length};
ghost use Rattle.atomic_table.specs.Table.{State};
ghost use Rattle.ring_words.specs.InUse.{IsInUse};
ghost use Rattle.ring_words.specs.Meeting.{IsPresent, HasSeenJournalled};
ghost use Rattle.ring_words.specs.Rule.{Lawful};
ghost use Rattle.ring_words.specs.Slots.{Boxed};
ghost use Rattle.ring_words.specs.Terms.{Terms};
ghost use Rattle.ring_words.specs.declared.view.Person.{Person};
ghost use Rattle.ring_words.specs.declared.view.Role.TheVariants.{Gateway, Journal};
ghost use Rattle.ring_words.specs.declared.view.View.{View};

use venue_model::Logic;

/// No gateway is ahead of the journal: between any two steps of all threads, what a gateway has seen is a beginning of
/// the entries that the journaller has handed on. So each message whose reports a gateway may take is journalled.
pub fn no_gateway_is_ahead_of_the_journal<L: Logic>() // promise 12
    ensures { (terms : Terms L) (s : State Boxed (View L)) (p q : Person) (k : ℕ) → Lawful terms s → IsPresent s p
        → IsPresent s q → p.role ≡ Gateway k → q.role ≡ Journal → q.sequence ≤ length q.seen
        → HasSeenJournalled p q }
{}

/// A row has one sequence in use: between any two steps of all threads, two sequences that are in use and have the same
/// row are one. So who claims a sequence writes into no row that is still read.
pub fn a_row_has_one_sequence_in_use<L: Logic>() // promise 4
    ensures { (terms : Terms L) (s : State Boxed (View L)) (one other : ℕ) → Lawful terms s → IsInUse s one → IsInUse s other
        → one % terms.rows ≡ other % terms.rows → one ≡ other }
{}
