ghost use Rattle.vring.specs.Driver.{IsQueueSize};
ghost use Rattle.vring.specs.BothSides.{OfferedIsPopped, OfferedIsGathered, PushedIsTaken, ScatteredIsWritten, RoomIsOffered, DriverAreasAreAllowed};

/// The chain that a driver offers is the one that the device pops which has seen as many: one
/// readable piece of the offered bytes' number, one writable piece of the offered room.
///
/// Like each function here it does nothing: its clause is a law of the definitions in which the
/// contracts of [`Ring`](crate::Ring) and [`DriverRing`](crate::DriverRing) speak. It holds for
/// every memory, whatever stood in it before.
#[tactic(auto, using(crate::proofs::Offers::offer_found))]
pub fn offered_is_popped()
    ensures { OfferedIsPopped }
{}

/// The bytes that the device gathers of that chain are those that were offered.
#[tactic(auto, using(crate::proofs::Offers::offer_gathered))]
pub fn offered_is_gathered()
    ensures { OfferedIsGathered }
{}

/// What the device pushes for that chain, with a length up to its room, the driver takes back with
/// this length.
pub fn pushed_is_taken()
    ensures { PushedIsTaken }
{}

/// What the device scattered into the room before it pushed the chain, the driver finds there.
pub fn scattered_is_written()
    ensures { ScatteredIsWritten }
{}

/// The device accepts the driver's areas.
#[tactic(auto, unfolding(crate::specs::Layout::is_allowed))]
pub fn driver_areas_are_allowed()
    ensures { DriverAreasAreAllowed }
{}

/// The writable pieces of that chain take as many bytes as the offered room, so that scattering up to
/// as many is never refused.
#[tactic(auto, using(crate::proofs::Offers::room_offered))]
pub fn room_is_offered()
    ensures { RoomIsOffered }
{}

/// The powers of two from 4 to 1,024 are the sizes that a driver's ring may have: by it a caller has
/// the condition of [`DriverRing::new`](crate::DriverRing::new) at a number that is written out.
pub fn powers_of_two_are_queue_sizes()
    ensures size_4 { IsQueueSize 4 }
    ensures size_8 { IsQueueSize 8 }
    ensures size_16 { IsQueueSize 16 }
    ensures size_32 { IsQueueSize 32 }
    ensures size_64 { IsQueueSize 64 }
    ensures size_128 { IsQueueSize 128 }
    ensures size_256 { IsQueueSize 256 }
    ensures size_512 { IsQueueSize 512 }
    ensures size_1024 { IsQueueSize 1024 }
{}
