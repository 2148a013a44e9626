//! Laws of matching, in the words of those who trade and audit: functions that do nothing, whose contracts are the
//! laws. They speak of the definitions that the book is proved to follow, so they hold of the book.
ghost use Rattle.std.specs.Prelude.{◌≡◌, ◌≢◌, ℕ, ◌+◌, ◌≤◌, ◌^◌, min, nat_lt, true, false, List, [], ◌∷◌, ◌++◌, Some, length, map, filter, sum_by};
ghost use Rattle.std.specs.List.{AllByRecursion};
ghost use Rattle.std.specs.List.Sorted.{IsPermutation};
ghost use Rattle.venue_model.specs.History.{History, IsMessage};
ghost use Rattle.venue_model.specs.declared.commands.Command.TheVariants.{Void};
ghost use Rattle.venue_model.specs.declared.commands.NewOrderSingle.{NewOrderSingle};
ghost use Rattle.venue_model.specs.declared.commands.OrdType.TheVariants.{Market};
ghost use Rattle.venue_model.specs.declared.commands.TimeInForce.TheVariants.{FillOrKill};
ghost use Rattle.venue_model.specs.declared.orders.Order.{Order};
ghost use Rattle.venue_model.specs.declared.orders.Side.TheVariants.{Buy, Sell};
ghost use Rattle.venue_model.specs.declared.outputs.Cause.{Cause};
ghost use Rattle.venue_model.specs.declared.outputs.OrdRejReason.TheVariants.{BookFull};
ghost use Rattle.venue_model.specs.Orders.{leaves, is_live, ahead};
ghost use Rattle.venue_model.specs.Match.{crossing, fill, settled, done, filled_orders, trades, can_fill, canceled_rest, matched, match_outputs};
ghost use Rattle.venue_model.specs.Requests.{Limits, Symbols, State, is_day, terms_of, new_refusal, entering};
ghost use Rattle.venue_model.specs.Step.{Request, step, state, outputs_from, outputs};
ghost use Rattle.book.specs.Histories.{state_of, outputs_of};
ghost use Rattle.price_levels.specs.Stamps.{InStamps};
ghost use Rattle.book.specs.Snapshots.{SnapshotOf, SpellsBoth};
ghost use Rattle.book.specs.Standing.{Rising, Below, InTime};
ghost use Rattle.book.specs.TrueSnapshots.{written_snapshot, SpellsItsState};
ghost use Rattle.venue_model.specs.Spelling.{AreSymbols};
ghost use Rattle.book.specs.Laws.{AnswersFirst, AreCrossed, GoesFirst, IsAheadOf, HasPrice, CrossesAnyPrice, KeepsLimit, KeepsPrice, KeepsTotal, IsFromGateway, Pairwise, IsOrderly, IsUncrossed, TellsFields, quantity_traded, money_traded};

/// What was told stays told: a history's outputs begin with the outputs of each of its beginnings, and each command
/// adds its own behind them. Its step begins at the state that those before it have left.
pub fn outputs_only_grow() // promise 3
    ensures begin { (symbols : Symbols) (rs more : List Request) →
        outputs symbols (rs ++ more) ≡ outputs symbols rs ++ outputs_from symbols (length rs) (state symbols rs) more }
    ensures one_more { (symbols : Symbols) (rs : List Request) (r : Request) →
        outputs symbols (rs ++ r ∷ []) ≡ outputs symbols rs ++ (step symbols (state symbols rs) (length rs) r).outputs }
    ensures state { (symbols : Symbols) (rs : List Request) (r : Request) →
        state symbols (rs ++ r ∷ []) ≡ (step symbols (state symbols rs) (length rs) r).state }
{}

/// Whatever is asked is answered, and first to who has asked: the first output of a command goes to the gateway that it
/// came through. Only a message that asks for nothing has none.
pub fn each_command_is_answered_first() // promise 3
    ensures { (symbols : Symbols) (s : State) (sequence : ℕ) (r : Request) → r.command ≢ Void
        → AnswersFirst r.gateway (step symbols s sequence r).outputs }
{}

/// After any history at most 4,096 orders rest, and a command has at most 8,194 outputs: that it was accepted, two for
/// a fill with each order that rests, and that what is left was canceled.
pub fn the_book_is_bounded() // promise 3
    ensures resting { (symbols : Symbols) (rs : List Request) → length (state symbols rs).orders ≤ 4096 }
    ensures outputs { (symbols : Symbols) (rs : List Request) (r : Request) →
        length (step symbols (state symbols rs) (length rs) r).outputs ≤ 8194 }
{}

/// No trade is worse than a limit: every fill that the venue ever tells of an order is at the order's limit price or a
/// better one, for the buyer and for the seller. Each trade of a match is one of the incoming order with a resting one
/// that it crosses, at the resting one's price, and is told of these two alone.
pub fn trades_keep_limits() // promise 3
    ensures limit { (symbols : Symbols) (rs : List Request) → AllByRecursion KeepsLimit (outputs symbols rs) }
    ensures price { (c : Cause) (incoming : Order) (orders : List Order) →
        AllByRecursion (KeepsPrice incoming orders) (trades c incoming orders) }
{}

/// Price-time priority: an order gets something from a match only where every resting order ahead of it got all that
/// it had left to fill. So while something is left of an order, no order behind it of its symbol and side is filled.
pub fn priority_holds() // promise 3
    ensures first { (incoming : Order) (orders : List Order) (o x : Order) → AreCrossed incoming orders o x →
        (quantity : ℕ) → GoesFirst quantity (crossing incoming orders) o x }
    ensures behind { (incoming : Order) (orders : List Order) (o x : Order) → IsAheadOf orders o x →
        is_live (settled incoming (crossing incoming orders) o) ≡ true → settled incoming (crossing incoming orders) x ≡ x }
{}

/// The fills of a match are told in the order of priority, each ahead of all that follow, and they are all that there
/// are, each once.
pub fn fills_come_in_order() // promise 3
    ensures order { (incoming : Order) (orders : List Order) (quantity : ℕ) → Rising orders
        → Pairwise (λ a b. ahead a b ≡ true) (filled_orders quantity (crossing incoming orders)) }
    ensures all { (quantity : ℕ) (queue : List Order) →
        IsPermutation (filter (λ o. nat_lt 0 (fill quantity queue o)) queue) (filled_orders quantity queue) }
{}

/// Nothing is made and nothing is lost in a match. What the incoming order gains, the resting orders gain in sum: in
/// quantity and in money. It is as much as both sides have, and no order is filled over its total, those included that
/// are filled whole and leave the book.
pub fn both_sides_trade_the_same() // promise 3
    ensures quantity { (incoming : Order) (orders : List Order) →
        sum_by (λ o. o.cum) (map (settled incoming (crossing incoming orders)) orders) + incoming.cum
        ≡ sum_by (λ o. o.cum) orders + (done incoming orders).cum }
    ensures money { (incoming : Order) (orders : List Order) →
        sum_by (λ o. o.notional) (map (settled incoming (crossing incoming orders)) orders) + incoming.notional
        ≡ sum_by (λ o. o.notional) orders + (done incoming orders).notional }
    ensures all { (incoming : Order) (orders : List Order) (quantity : ℕ) → Rising orders →
        sum_by (fill quantity (crossing incoming orders)) (crossing incoming orders)
        ≡ min quantity (sum_by leaves (crossing incoming orders)) }
    ensures most { (incoming : Order) (orders : List Order) → Rising orders →
        (done incoming orders).cum
        ≡ incoming.cum + min (leaves incoming) (sum_by leaves (crossing incoming orders)) }
    ensures incoming { (incoming : Order) (orders : List Order) → Rising orders →
        incoming.cum ≤ incoming.total → (done incoming orders).cum ≤ incoming.total }
    ensures resting { (incoming : Order) (orders : List Order) →
        AllByRecursion (λ o. o.cum ≤ o.total) orders
        → AllByRecursion (λ o. o.cum ≤ o.total) (map (settled incoming (crossing incoming orders)) orders) }
{}

/// Of each symbol as much was bought as was sold, and as much was paid as was received, in the fills that the venue has
/// told after any history.
pub fn what_is_bought_is_sold() // promise 3
    ensures quantity { (symbols : Symbols) (rs : List Request) (symbol : List ℕ) →
        quantity_traded Buy symbol (outputs symbols rs) ≡ quantity_traded Sell symbol (outputs symbols rs) }
    ensures money { (symbols : Symbols) (rs : List Request) (symbol : List ℕ) →
        money_traded Buy symbol (outputs symbols rs) ≡ money_traded Sell symbol (outputs symbols rs) }
{}

/// A fill-or-kill order is filled whole, or it is canceled and the book is as it was.
pub fn fill_or_kill_is_whole() // promise 3
    ensures whole { (incoming : Order) (orders : List Order) → Rising orders →
        can_fill incoming orders ≡ true → leaves (done incoming orders) ≡ 0 }
    ensures untouched { (incoming : Order) (orders : List Order) →
        can_fill incoming orders ≡ false → matched FillOrKill incoming orders ≡ orders }
    ensures told { (c : Cause) (incoming : Order) (orders : List Order) →
        can_fill incoming orders ≡ false → match_outputs c FillOrKill incoming orders ≡ canceled_rest c incoming }
{}

/// The book is never crossed: after any commands of the eight gateways, so after any history of their messages, no
/// resting buy meets a resting sell of its symbol. The resting orders stand in the order of their stamps, each with
/// something left, and no client has two under one name; each command keeps all this.
pub fn the_book_is_never_crossed() // promise 3
    ensures uncrossed { (symbols : Symbols) (rs : List Request) → AllByRecursion IsFromGateway rs
        → IsUncrossed (state symbols rs).orders }
    ensures history { (limits : Limits) (h : History) → AllByRecursion IsMessage h
        → IsUncrossed (state_of limits h).orders }
    ensures rising { (symbols : Symbols) (rs : List Request) → AllByRecursion IsFromGateway rs
        → Rising (state symbols rs).orders }
    ensures orderly { (symbols : Symbols) (rs : List Request) → AllByRecursion IsFromGateway rs
        → IsOrderly (length rs) (state symbols rs) }
    ensures kept { (symbols : Symbols) (sequence : ℕ) (s : State) (r : Request) → IsFromGateway r →
        IsOrderly sequence s → IsOrderly (sequence + 1) (step symbols s sequence r).state }
{}

/// No order is ever overfilled: whatever the venue tells of an order, its CumQty is at most its OrderQty.
pub fn no_order_is_overfilled() // promise 3
    ensures { (symbols : Symbols) (rs : List Request) → AllByRecursion IsFromGateway rs
        → AllByRecursion KeepsTotal (outputs symbols rs) }
{}

/// A market order takes what there is: it crosses each order that rests just where their symbols are one and their
/// sides are two, whatever the price. It never comes in to rest; all that rest after any history have a price. And a
/// full book doesn't refuse it.
pub fn market_orders_take_what_there_is() // promise 3
    ensures crosses { (limits : Limits) (h : History) (c : Cause) (n : NewOrderSingle) → n.ord_type ≡ Market
        → AllByRecursion (CrossesAnyPrice (entering c n)) (state_of limits h).orders }
    ensures terms { (n : NewOrderSingle) → n.ord_type ≡ Market → is_day (terms_of n) ≡ false }
    ensures rests { (limits : Limits) (h : History) → AllByRecursion HasPrice (state_of limits h).orders }
    ensures room { (symbols : Symbols) (s : State) (client : ℕ) (n : NewOrderSingle) → n.ord_type ≡ Market
        → new_refusal symbols s client n ≢ Some BookFull }
{}

/// The stamp of a resting order is the sequence of a command of the history: after so many commands, or after a history
/// of so many messages, all stamps are below their number. So the next command's sequence is behind them all.
pub fn stamps_are_sequences() // promise 3
    ensures commands { (symbols : Symbols) (rs : List Request) → Below (length rs) (state symbols rs).orders }
    ensures history { (limits : Limits) (h : History) → Below (length h) (state_of limits h).orders }
{}

/// The state after any history of at most 2^48 messages can be a snapshot, with the counts of its commands and outputs:
/// each number of each resting order, and each greatest ClOrdID, is one that a snapshot may have. So the snapshot of a
/// venue's own state is never refused.
pub fn a_state_can_be_a_snapshot() // promises 3, 15
    ensures { (limits : Limits) (h : History) → AreSymbols limits.symbols → AllByRecursion IsMessage h
        → length h ≤ 2 ^ 48 → SpellsItsState limits h }
{}

/// A snapshot spells one state. The counts and the greatest ClOrdIDs of any two states that it is the snapshot of are
/// the same, and so are their orders, which may stand in another order where some have one stamp; where stamps rise in
/// the one and don't fall in the other, both are one. And a state has one snapshot with these counts, if stamps rise
/// within each of its price levels: the one that the book writes.
pub fn a_snapshot_spells_one_state() // promises 3, 15
    ensures counts { (symbols : Symbols) (bytes : List ℕ) (s r : State) → (both : SpellsBoth symbols bytes s r)
        → (both.its_commands ≡ both.commands) × (both.its_told ≡ both.told) }
    ensures orders { (symbols : Symbols) (bytes : List ℕ) (s r : State) → SpellsBoth symbols bytes s r
        → (r.greatest ≡ s.greatest) × IsPermutation s.orders r.orders }
    ensures state { (symbols : Symbols) (bytes : List ℕ) (s r : State) → SpellsBoth symbols bytes s r
        → Rising s.orders → InStamps r.orders → r ≡ s }
    ensures bytes { (symbols : Symbols) (s : State) (commands told : ℕ) (bytes : List ℕ) → AreSymbols symbols → InTime s.orders
        → SnapshotOf symbols s commands told bytes → bytes ≡ written_snapshot symbols commands told s }
{}

/// Each output's text is fields, whatever messages the history has: so who takes an output can write it as a frame.
pub fn every_text_is_fields() // promise 3
    ensures { (limits : Limits) (h : History) → AllByRecursion TellsFields (outputs_of limits h) }
{}
