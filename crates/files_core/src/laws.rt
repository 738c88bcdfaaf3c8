ghost use Rattle.files_core.specs.Shown.{OthersSeeTheSame};
ghost use Rattle.files_core.specs.Laws.{HistoriesGrow, LeasesHold, StartIsGood, StaysGood};

/// What holds of the files' half of the core, whatever guests do.
///
/// It does nothing: its clauses are laws of the definitions in which the other contracts speak. Files to which
/// nothing was done yet are good. Each deed that is allowed keeps them good and lets their histories grow at most, and
/// each other guest is shown the same after it. While a guest has a lease, the size isn't below what it noted under it.
pub fn files_core_laws()
    ensures start { StartIsGood }
    ensures good { StaysGood }
    ensures others { OthersSeeTheSame }
    ensures leases { LeasesHold }
    ensures histories { HistoriesGrow }
{}
