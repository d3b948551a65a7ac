//! What each step tells. These types are for the proofs alone.
ghost use Rattle.std.specs.Prelude.{ℕ, ◌-◌};
ghost use Rattle.foreign_list.specs.declared.piece_id.PieceId.{PieceId};
ghost use Rattle.foreign_list.specs.declared.views.View.TheVariants.{Pass};
ghost use Rattle.foreign_list.specs.inside.Views.{carry, lending, no_piece};
ghost use Rattle.foreign_list.specs.inside.Plays.{of_pass, first_look, look_again, link, Swung, of_owner, SawList, TookWhole, WalkedOn, go_home};

use crate::views::View;
use atomic_table::{Play, Split};
use raw_range::Deposit;
use std::marker::{Brand, PhantomData};

/// Which ticket is lent and with what. A call at `Brand` picks it from its `requires`.
pub(crate) trait Lending {
    ghost ticket: { ℕ };

    ghost piece_id: { PieceId };
}

impl Lending for Brand {
    ghost ticket = { 0 };

    ghost piece_id = { no_piece };
}

pub(crate) struct Lend<L> {
    marker: PhantomData<L>,
}

impl<L: Lending> Split<View> for Lend<L> {
    ghost left = { λ v. lending L.ticket L.piece_id v };

    ghost right = { λ v. Pass (carry L.ticket L.piece_id) };
}

pub(crate) struct FirstLook;

impl Play<Deposit, View> for FirstLook {
    ghost then = { λ s m found n. of_pass first_look m.0 m found n };
}

pub(crate) struct LookAgain;

impl Play<Deposit, View> for LookAgain {
    ghost then = { λ s m found n. of_pass look_again m.0 m found n };
}

pub(crate) struct Link;

impl Play<Deposit, View> for Link {
    ghost then = { λ s m found n. of_pass link m.0 m found n };
}

pub(crate) struct Swing;

impl Play<Deposit, View> for Swing {
    ghost then = { λ s m found n. of_pass (Swung s.first) m.0 m found n };
}

pub(crate) struct TakeWhole;

impl Play<Deposit, View> for TakeWhole {
    ghost then = { λ s m found n. of_owner TookWhole m.0 m found n };
}

pub(crate) struct See;

impl Play<Deposit, View> for See {
    ghost then = { λ s m found n. of_owner SawList m.0 m found n };
}

pub(crate) struct Walk;

impl Play<Deposit, View> for Walk {
    ghost then = { λ s m found n. of_owner (WalkedOn (s.word - 1)) m.0 m found n };
}

pub(crate) struct Home;

impl Play<Deposit, View> for Home {
    ghost then = { λ s m found n. of_owner (λ d. go_home d.hand d) m.0 m found n };
}
