//! Words of C that every layer shares: the integer types, the operators, the bytes of a word, static
//! objects, the registers of a frame, and the reasons why a file is refused or a run stops.
//!
//! The crate sees no memory and no text. `specs/Integers.antt` says in plain integers what a value of a
//! type is and what each operator gives, `specs/Gives.antt` what it means that a call gives the answer
//! of a definition.
#![tactic(auto)]

mod c_int_type;
mod conversion;
mod integer;
pub mod laws;
mod operation;
mod reason;
mod registers;
mod statics;
mod told;
mod word_bytes;

pub use c_int_type::CIntType;
pub use conversion::convert;
pub use integer::{ArithFault, BinOp, IntType};
pub use operation::binary;
pub use reason::Reason;
pub use registers::{REGISTERS, SPARE_REGISTERS};
pub use statics::{StaticDef, StaticHalf};
pub use told::Told;
pub use word_bytes::{get_bytes, is_width, put_bytes};

#[cfg(test)]
mod tests;
