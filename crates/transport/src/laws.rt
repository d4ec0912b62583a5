//! What holds of a session that is driven or served, and of a server after any list of its calls, as theorems: functions that do
//! nothing, whose clauses say it.
ghost use Rattle.transport.specs.Laws as law;
ghost use Rattle.transport.specs.Reaching.{DrivingLeads, DrivingTells, ServingLeads, ServingTells};

/// Whatever comes over wires and doors, and wherever memory runs out: what a session represents after it was driven or served is what
/// events, and slices that found no memory, lead to from what it represented before.
pub fn what_is_driven_and_served_is_reached()
    ensures driven { DrivingLeads }
    ensures served { ServingLeads }
{}

/// Whatever comes over wires and doors: the events that a recorder was told lead from what a session represented before it was driven or
/// served to what it represents then, unless no memory was left.
pub fn what_is_told_is_what_happened()
    ensures driven { DrivingTells }
    ensures served { ServingTells }
{}

/// Whatever calls are made of a server, its writer gets the frames of the messages that succeeded, with
/// the numbers that follow those of the messages before it, from 1 for a new one, and after a fault of the
/// writer a part of one more.
pub fn messages_are_framed_in_order()
    ensures { law.MessagesAreFramedInOrder }
{}
