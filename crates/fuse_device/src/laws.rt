//! What follows from the definitions alone, stated as contracts of functions that do nothing.

ghost use Rattle.std.specs.Prelude.{◌≡◌, ◌≤◌, ℕ, List, ◌++◌, length, true, false};
ghost use Rattle.page_map.specs.Board.{Shows, NamesFiles};
ghost use Rattle.page_map.specs.Window.{Act};
ghost use Rattle.plain_file.specs.Board.{BoardView, may_apply};
ghost use Rattle.plain_file.specs.declared.operations.Op.TheVariants as ops;
ghost use Rattle.fuse_device.specs.State.{World};
ghost use Rattle.fuse_device.specs.Steps.{device_step};
ghost use Rattle.fuse_device.specs.DataSteps.{data_step};
ghost use Rattle.fuse_device.specs.Plans.{plan, is_forget_chain, plan_step, whole_plan_step};
ghost use Rattle.fuse_device.specs.Acts.{acts_of};

/// What is done by the plan of a chain is the step on the chain: of a daemon that stays as it is always, and
/// of a whole one but on a FORGET or BATCH_FORGET.
#[tactic(auto, using(crate::proofs::Planning::data_step_planned, crate::proofs::Planning::device_step_planned))]
pub fn plans_are_steps()
    ensures data { (w : World) (readable : List ℕ) (room : ℕ) → data_step w readable room ≡ plan_step w (plan readable room) room }
    ensures whole { (w : World) (readable : List ℕ) (room : ℕ) → is_forget_chain readable ≡ false → device_step w readable room ≡ whole_plan_step w (plan readable room) room }
{}

/// Whatever a chain asks, its answer has at most as many bytes as it was given room for, and the window shows
/// what it showed and then what the request does.
#[tactic(auto, using(crate::proofs::Answering::device_step_fits, crate::proofs::Acting::device_step_shows))]
pub fn steps_fit_and_add_acts()
    ensures fits { (w : World) (readable : List ℕ) (room : ℕ) → length (device_step w readable room).1 ≤ room }
    ensures shows { (w : World) (readable : List ℕ) (room : ℕ) (before : List Act) → length w.map.table ≡ w.state.pages → Shows w.map before → Shows (device_step w readable room).0.map (before ++ acts_of w readable room) }
{}

/// Every board lets a file's size be asked for.
#[tactic(auto, using(crate::proofs::Allowed::may_apply_size))]
pub fn sizes_are_allowed()
    ensures { (v : BoardView) (file : ℕ) → may_apply v file ops.Size ≡ true }
{}
