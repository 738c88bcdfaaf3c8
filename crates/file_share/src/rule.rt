use atomic_table::{Join, Play, Split, TableRule};
use plain_file::{Body, First, List};
use seats::Naming;
use std::marker::{Brand, Model, PhantomData};

/// What a pass knows. It is a value of contracts alone: nobody makes one.
pub struct View;

impl Model for View {
    ghost use Rattle.file_share.specs.Table.{Knows, nobody};

    ghost Value = { Knows };

    ghost view = { λ _. nobody };
}

/// What a table is opened with: what each file begins with, and how many guests may lease.
#[derive(Drop)]
pub struct Opening {
    /// What each file begins with.
    pub firsts: List<First>,
    /// Guests with numbers below this one may lease.
    pub leasers: u32,
}

/// The rule of a table of files.
pub struct Files;

impl TableRule<Option<Body>, View, Opening> for Files {
    ghost use Rattle.seats.specs.Seats.{Shows};
    ghost use Rattle.file_share.specs.Table.{files_kit, opener};

    ghost holds = { λ _. Shows files_kit };

    ghost first = { λ o. opener o.firsts o.leasers };
}

/// The entry that a step applies, which its operands don't tell.
pub(crate) trait Applying {
    ghost use Rattle.plain_file.specs.declared.operations.Entry.{Entry};

    ghost entry: { Entry };
}

impl Applying for Brand {
    ghost use Rattle.file_share.specs.Table.{no_entry};

    ghost entry = { no_entry };
}

pub(crate) struct TakeTurn;

impl Play<Option<Body>, View> for TakeTurn {
    ghost use Rattle.file_share.specs.Steps.{tries_turn};

    ghost then = { tries_turn };
}

pub(crate) struct SetSize<J> {
    applying: PhantomData<J>,
}

impl<J: Applying> Play<Option<Body>, View> for SetSize<J> {
    ghost use Rattle.file_share.specs.Steps.{sets};

    ghost then = { sets J.entry };
}

pub(crate) struct GiveTurn;

impl Play<Option<Body>, View> for GiveTurn {
    ghost use Rattle.file_share.specs.Steps.{gives_turn};

    ghost then = { gives_turn };
}

pub(crate) struct NoteSize;

impl Play<Option<Body>, View> for NoteSize {
    ghost use Rattle.file_share.specs.Steps.{notes_size};

    ghost then = { notes_size };
}

pub(crate) struct TryLease;

impl Play<Option<Body>, View> for TryLease {
    ghost use Rattle.file_share.specs.Steps.{tries_lease};

    ghost then = { tries_lease };
}

pub(crate) struct DropLease;

impl Play<Option<Body>, View> for DropLease {
    ghost use Rattle.file_share.specs.Steps.{drops_lease};

    ghost then = { drops_lease };
}

pub(crate) struct TryBar;

impl Play<Option<Body>, View> for TryBar {
    ghost use Rattle.file_share.specs.Steps.{tries_bar};

    ghost then = { tries_bar };
}

pub(crate) struct DropBar;

impl Play<Option<Body>, View> for DropBar {
    ghost use Rattle.file_share.specs.Steps.{drops_bar};

    ghost then = { drops_bar };
}

pub(crate) struct Compare;

impl Play<Option<Body>, View> for Compare {
    ghost use Rattle.file_share.specs.Steps.{compares};

    ghost then = { compares };
}

pub(crate) struct Cut<J> {
    naming: PhantomData<J>,
}

impl<J: Naming> Split<View> for Cut<J> {
    ghost use Rattle.std.specs.Prelude.{[]};
    ghost use Rattle.seats.specs.Views.{child, parent};
    ghost use Rattle.file_share.specs.Table.{just_seen};

    ghost left = { λ v. parent v J.guest };

    ghost right = { λ v. child just_seen [] v J.guest };
}

pub(crate) struct Merge;

impl Join<View> for Merge {
    ghost use Rattle.seats.specs.Views.{joined};
    ghost use Rattle.file_share.specs.Table.{merged, nobody};

    ghost both = { λ v w. joined merged v w };

    ghost spent = { nobody };
}
