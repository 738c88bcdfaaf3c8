ghost use Rattle.window_core.specs.Shown.{OthersSeeTheSame};
ghost use Rattle.window_core.specs.Laws.{LiveIsPlaced, LogsGrow, PinsHold, PlacedIsLive, SizesStay, StartIsGood, StaysGood};

/// What holds of the window's half of the core, whatever guests do.
///
/// It does nothing: its clauses are laws of the definitions in which the other contracts speak. A window in which
/// nothing was done yet is good. Each deed that is allowed keeps it good and lets the logs grow at most; the numbers of
/// ranges and files stay, and each other guest is shown the same after it. While a guest has a pin, its range's pages are
/// those of the pin's file and chunk. What is placed at a sound log's end is live there, and may be written exactly where it is
/// writable there; what is live at a sound log's end is placed there.
pub fn window_core_laws()
    ensures start { StartIsGood }
    ensures good { StaysGood }
    ensures logs { LogsGrow }
    ensures sizes { SizesStay }
    ensures others { OthersSeeTheSame }
    ensures pins { PinsHold }
    ensures placed { PlacedIsLive }
    ensures live { LiveIsPlaced }
{}
