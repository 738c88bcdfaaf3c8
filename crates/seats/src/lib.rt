//! Passes with guests' numbers, over any table of words and slots that shows a core.
//!
//! A table of `atomic_table` has a rule, and each step on it must keep it. Here the rule is: there is a good core, and each
//! word, each value at home and each pass's view is a function of it. What a core is, says a record of functions, and what must
//! hold of it, a record of laws; then each step is a deed of one guest, passes are split and joined, and the table is
//! opened and closed, by lemmas that are proved once for all cores. The definitions stand in `specs/`: `Views` (what a
//! pass knows, and what becomes of guests' numbers), `Seats` (the record of functions, the rule, what a step tells, the laws).
//! The lemmas stand in `proofs/Seating`: `event` and `exchanged` for a step, `splits`, `joins`, `opens`, `all_back`.
#![tactic(auto)]

use std::marker::Brand;

/// The number that a split gives out, which its operands don't tell.
pub trait Naming {
    ghost use Rattle.std.specs.Prelude.{ℕ};

    /// The guest's number.
    ghost guest: { ℕ };
}

impl Naming for Brand {
    ghost guest = { 0 };
}
