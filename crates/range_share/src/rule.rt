use atomic_table::{Join, Play, Split, TableRule};
use range_tree::Tree;
use seats::Naming;
use std::marker::{Brand, Model, PhantomData};

/// What a pass knows. It is a value of contracts alone: nobody makes one.
pub struct View;

impl Model for View {
    ghost use Rattle.range_share.specs.Table.{Knows, nobody};

    ghost Value = { Knows };

    ghost view = { λ _. nobody };
}

/// What a table is opened with.
#[derive(Clone, Copy)]
pub struct Sizes {
    /// How many ranges the window has.
    pub ranges: u32,
    /// How many files there are.
    pub files: u32,
    /// Guests with numbers below this one may move ranges and pin them.
    pub movers: u32,
}

/// The rule of a table of ranges.
pub struct Ranges;

impl TableRule<Option<Tree>, View, Sizes> for Ranges {
    ghost use Rattle.seats.specs.Seats.{Shows};
    ghost use Rattle.range_share.specs.Table.{opener, window_kit};

    ghost holds = { λ _. Shows window_kit };

    ghost first = { λ k. opener k.ranges k.files k.movers };
}

/// What a load notes, which its operands don't tell.
pub(crate) trait Noting {
    ghost use Rattle.range_share.specs.Table.{Noted};

    ghost noted: { Noted };
}

impl Noting for Brand {
    ghost use Rattle.range_share.specs.Table.{blank};

    ghost noted = { blank };
}

pub(crate) struct Enter;

impl Play<Option<Tree>, View> for Enter {
    ghost use Rattle.range_share.specs.Steps.{tries_enter};

    ghost then = { tries_enter };
}

pub(crate) struct Leave;

impl Play<Option<Tree>, View> for Leave {
    ghost use Rattle.range_share.specs.Steps.{leaves};

    ghost then = { leaves };
}

pub(crate) struct LookAt;

impl Play<Option<Tree>, View> for LookAt {
    ghost use Rattle.range_share.specs.Steps.{looks_at};

    ghost then = { looks_at };
}

pub(crate) struct PeekAt;

impl Play<Option<Tree>, View> for PeekAt {
    ghost use Rattle.range_share.specs.Steps.{peeks_at};

    ghost then = { peeks_at };
}

pub(crate) struct Take;

impl Play<Option<Tree>, View> for Take {
    ghost use Rattle.range_share.specs.Steps.{tries_take};

    ghost then = { tries_take };
}

pub(crate) struct SetMap;

impl Play<Option<Tree>, View> for SetMap {
    ghost use Rattle.range_share.specs.Steps.{sets_map};

    ghost then = { sets_map };
}

pub(crate) struct SettleMapped;

impl Play<Option<Tree>, View> for SettleMapped {
    ghost use Rattle.range_share.specs.Steps.{settles};

    ghost then = { settles };
}

pub(crate) struct SettleFree;

impl Play<Option<Tree>, View> for SettleFree {
    ghost use Rattle.range_share.specs.Steps.{frees};

    ghost then = { frees };
}

pub(crate) struct AddPin;

impl Play<Option<Tree>, View> for AddPin {
    ghost use Rattle.range_share.specs.Steps.{pins_one};

    ghost then = { pins_one };
}

pub(crate) struct DropPin;

impl Play<Option<Tree>, View> for DropPin {
    ghost use Rattle.range_share.specs.Steps.{unpins_one};

    ghost then = { unpins_one };
}

pub(crate) struct Raise;

impl Play<Option<Tree>, View> for Raise {
    ghost use Rattle.range_share.specs.Steps.{upgrades};

    ghost then = { upgrades };
}

pub(crate) struct Point;

impl Play<Option<Tree>, View> for Point {
    ghost use Rattle.range_share.specs.Steps.{aims_at};

    ghost then = { aims_at };
}

pub(crate) struct Compare;

impl Play<Option<Tree>, View> for Compare {
    ghost use Rattle.range_share.specs.Steps.{compares};

    ghost then = { compares };
}

pub(crate) struct Note<J> {
    noting: PhantomData<J>,
}

impl<J: Noting> Play<Option<Tree>, View> for Note<J> {
    ghost use Rattle.range_share.specs.Steps.{notes};

    ghost then = { notes J.noted };
}

pub(crate) struct Cut<J> {
    naming: PhantomData<J>,
}

impl<J: Naming> Split<View> for Cut<J> {
    ghost use Rattle.seats.specs.Views.{child, parent};
    ghost use Rattle.range_share.specs.Table.{blank, just_seen};

    ghost left = { λ v. parent v J.guest };

    ghost right = { λ v. child just_seen blank v J.guest };
}

pub(crate) struct Merge;

impl Join<View> for Merge {
    ghost use Rattle.seats.specs.Views.{joined};
    ghost use Rattle.range_share.specs.Table.{merged, nobody};

    ghost both = { λ v w. joined merged v w };

    ghost spent = { nobody };
}
