//! Pairs: what an atomic pointer stores at once.

use ideal_machine::Half;
use std::marker::Model;

/// An address and a half that were stored at once.
#[derive(Clone, Copy, Debug)]
pub struct Pair {
    pub address: u64,
    pub half: Half,
}

impl Model for Pair {
    ghost use Rattle.ideal_machine.specs.Memory.{Pair};

    ghost Value = { Pair };

    ghost view = { λ p. record { address = p.address; half = p.half } };

    ghost inverse = { λ p. record { address = p.address; half = p.half } };
}
