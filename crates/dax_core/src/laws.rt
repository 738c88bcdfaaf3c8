ghost use Rattle.dax_core.specs.Laws.{DecidedByHalves, GoodByHalves, OneOutcome, OnlyGrows, OtherHalfStays, StartIsGood, StaysGood};

/// What holds of the core under every schedule of any guests.
///
/// It does nothing: its clauses are laws of the definitions in which the other contracts speak. A core in which nothing
/// was done yet is good; each deed that is allowed keeps it good, and lets histories and logs grow at most. A good core
/// leaves an event one outcome. By the law of halves a core is good exactly where both halves are; the half that a deed
/// is of decides alone whether it is allowed and what it changes, and the other half stays as it is.
pub fn dax_core_laws()
    ensures start { StartIsGood }
    ensures good { StaysGood }
    ensures grows { OnlyGrows }
    ensures one_outcome { OneOutcome }
    ensures good_by_halves { GoodByHalves }
    ensures decided_by_halves { DecidedByHalves }
    ensures other_half { OtherHalfStays }
{}
