//! A piece apart from the right to its bytes.
ghost use Rattle.std.specs.Prelude.{◌≡◌, Some, None};
ghost use Rattle.raw_range.specs.Memory.{Lent, site_of};

use crate::memory::{Base, Held};
use crate::parts::{dislodge_run, lodge_run};
use crate::piece::Piece;
use std::marker::Model;

/// Where a piece lies: its range, that one's owner, and its place and length there, in bytes. It gives no right to the bytes.
#[derive(Clone, Copy)]
pub struct Site {
    base: Base,
    owner: u32,
    at: u32,
    len: u32,
}

impl Model for Site {
    ghost use Rattle.raw_range.specs.Memory.{PieceSite, site_code};

    ghost Value = { PieceSite };

    ghost coded = { site_code };

    ghost view = { λ s. record { home = s.base.ptr; owner = s.owner; at = s.at; len = s.len } };

    ghost inverse = { λ v. record { base = record { ptr = v.home }; owner = v.owner; at = v.at; len = v.len } };
}

/// Room for the right to the bytes of one piece. Who has it is the only one who can reach them. It takes no memory, and one
/// that is dropped loses the right for good.
#[derive(Drop)]
pub struct Deposit {
    held: Held,
}

impl Model for Deposit {
    ghost use Rattle.std.specs.Prelude.{◌<◌, ◌^◌, Option, IfSome, length};
    ghost use Rattle.std.specs.Coded.{coded_option};
    ghost use Rattle.raw_range.specs.Memory.{Lent, lent_code};

    ghost Value = { Option Lent };

    ghost coded = { coded_option lent_code };

    ghost view = { λ d. d.held.piece };

    ghost invariant = { λ d. IfSome d.held.piece (λ piece. (0 < length piece.bytes) × (length piece.bytes < 2 ^ 32)) };
}

impl Deposit {
    /// Room with no right.
    pub fn empty() -> Deposit
        ensures { result ≡ None }
    {
        Deposit { held: Held::none() }
    }
}

impl Piece {
    /// Where it lies.
    pub fn site(&self) -> Site
        ensures { result ≡ site_of self.now }
    {
        Site {
            base: self.base,
            owner: self.owner,
            at: self.at,
            len: self.memory.len() as u32,
        }
    }

    /// The right to its bytes, apart from where they lie. [`Site::join`] makes the piece of the two again.
    pub fn into_deposit(self) -> Deposit
        ensures { result ≡ Some self }
    {
        let Piece {
            memory,
            base,
            at,
            owner,
        } = self;
        Deposit {
            held: Held::keep(base.ptr, owner, at, dislodge_run(memory)),
        }
    }
}

impl Site {
    /// The piece that lies here, with the right to its bytes.
    pub fn join(self, deposit: Deposit) -> Piece
        requires { (piece : Lent) × (deposit ≡ Some piece) × (self ≡ site_of piece) }
        ensures { deposit ≡ Some result }
    {
        let Site {
            base,
            owner,
            at,
            len,
        } = self;
        let start = unsafe { base.ptr.byte_add(at as usize) };
        Piece {
            memory: lodge_run(start, len as usize, deposit.held.take()),
            base,
            at,
            owner,
        }
    }
}
