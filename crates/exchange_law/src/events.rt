//! The events of a history as calls of two sides.
ghost use Rattle.std.specs.Prelude.{List};
ghost use Rattle.exchange_law.specs.Worlds.{Event};
ghost use Rattle.exchange_law.specs.Steps.{CallsHappen, CallsSend, EventsAreCalls, JudgingsAdd};
ghost use Rattle.exchange_law.specs.History.{BeginsOnce, ClosesOnce, HasOneSeed, IsReplayed, JudgesOnce, TakesRulings};

/// Each event of a history is a call of one side or a judging, and each such call may be an event.
///
/// So the world of `history_theorem` is the one in which calls are made: each side is where its calls lead, and what it
/// hears was sent. It does nothing when it runs. Its contract is proved of every history.
pub fn events_theorem()
    // No side hears an offer with another seed than its own, so none finishes by one.
    ensures one_seed { (history : List Event) → HasOneSeed history }
    // So the tables, the lists and the words of a number are the only ones.
    ensures begins_once { (history : List Event) → BeginsOnce history }
    ensures closes_once { (history : List Event) → ClosesOnce history }
    ensures judges_once { (history : List Event) → JudgesOnce history }
    // The tests of a side reject no ruling that was made for it.
    ensures told { (history : List Event) → TakesRulings history }
    // Each event leaves both sides as the call that it is, and sends what the call sends.
    ensures calls { (history : List Event) → EventsAreCalls history }
    ensures sends { (history : List Event) → CallsSend history }
    // Each call that is handed nothing or a message that was sent may be the next event, and each clash may be judged.
    ensures happen { (history : List Event) → CallsHappen history }
    ensures judgings { (history : List Event) → JudgingsAdd history }
    // So each side is one that a list of calls leads to.
    ensures replayed { (history : List Event) → IsReplayed history }
{}
