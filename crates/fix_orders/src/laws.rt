//! Laws of the definitions: functions that do nothing, whose contracts are the laws.
ghost use Rattle.std.specs.Prelude.{◌≡◌, ℕ, Bool, false, IsTrue, List, Some};
ghost use Rattle.fix_frame.specs.Grammar.{Field, IsFrame, most_in};
ghost use Rattle.venue_model.specs.Step.{IsCommand};
ghost use Rattle.fix_orders.specs.Formats.{is_time, number_of_time, time_text};
ghost use Rattle.fix_orders.specs.RangeLaws.{AsksNoMarket};
ghost use Rattle.fix_orders.specs.Reading.{exact_fields, command_of, reads};

/// The test for exactly one frame finds the fields of a frame and nothing else.
pub fn exactly_one_frame() // promise 2
    ensures found { (bytes : List ℕ) (fields : List Field) →
        exact_fields bytes ≡ Some fields → IsFrame most_in bytes fields }
    ensures each { (bytes : List ℕ) (fields : List Field) →
        IsFrame most_in bytes fields → exact_fields bytes ≡ Some fields }
{}

/// A time is the text of its number: an output has SendingTime of the message that caused it.
pub fn times_are_kept() // promise 2
    ensures { (time : List ℕ) → IsTrue (is_time time) → time_text (number_of_time time) ≡ time }
{}

/// Whatever bytes come, the numbers of the command that they are read as are in range: ClOrdIDs 1 to
/// 999,999,999,999,999, prices and quantities 1 to 1,000,000. So are those of the command of any fields.
pub fn numbers_are_in_range() // promise 2
    ensures bytes { (market : Bool) (bytes : List ℕ) → IsCommand (reads market bytes) }
    ensures fields { (market : Bool) (fields : List Field) → IsCommand (command_of market fields) }
{}

/// Where market orders aren't read, no message is one: an entry of before keeps its meaning.
pub fn no_market_orders_before_the_cut() // promise 2
    ensures { (bytes : List ℕ) → AsksNoMarket (reads false bytes) }
{}
