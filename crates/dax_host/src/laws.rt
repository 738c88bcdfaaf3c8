ghost use Rattle.dax_host.specs.Rounds.{CarriedIsRead, GivenUpIsIdle, FreshIsIdle, QueueForHasRoom};

/// What goes through a queue in which nothing is offered is read on its other side: the device finds the
/// chain and the bytes that were offered, and the driver the answer that was written. A queue is such a
/// one at first, and again when a request was carried or given up, and the one that a request goes through
/// takes both of its parts.
///
/// It does nothing: its clauses are laws of the words in which the contracts of
/// [`SoloWire`](crate::SoloWire) and [`HostWire`](crate::HostWire) speak of their queues.
#[tactic(auto, using(crate::proofs::Rounds::given_up_idle, crate::proofs::Rounds::fresh_idle, crate::proofs::Rounds::queue_for_has_room))]
pub fn requests_go_through()
    ensures carried { CarriedIsRead }
    ensures given_up { GivenUpIsIdle }
    ensures fresh { FreshIsIdle }
    ensures room { QueueForHasRoom }
{}
