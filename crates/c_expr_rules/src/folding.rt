//! What is known of the value of an operator before a run (C11 6.6).

ghost use Rattle.std.specs.Prelude.{◌≡◌};
ghost use Rattle.c_expr_rules.specs.Constants.{known_as, known_truth, decides, known_logic, is_known, known_chosen, known_choice, is_zero};

use crate::known::Known;
use filc_num::{IntType, convert};

/// The value after conversion to an integer type: no pointer becomes an integer before a run.
pub fn convert_known(to: IntType, known: Known) -> Known
    ensures { result ≡ known_as to known }
{
    match known {
        Known::Integer(value) => Known::Integer(convert(value, to)),
        Known::Fault => Known::Fault,
        Known::Nothing | Known::Address(..) => Known::Nothing,
    }
}

/// Whether the value isn't zero, as an int.
fn truth(known: Known) -> Known
    ensures { result ≡ known_truth known }
{
    match known {
        Known::Integer(value) => Known::Integer(if value == 0 { 0 } else { 1 }),
        Known::Fault => Known::Fault,
        Known::Nothing | Known::Address(..) => Known::Nothing,
    }
}

/// Whether an operand of `&&` (`all`) or `||` decides alone.
fn is_decided(all: bool, value: u64) -> bool
    ensures { result ≡ decides all value }
{
    if all { value == 0 } else { value != 0 }
}

/// What `&&` (`all`) or `||` gives. An operand that isn't evaluated is a constant in form too.
pub fn logic(all: bool, before: Known, operand: Known) -> Known
    ensures { result ≡ known_logic all before operand }
{
    match (before, operand) {
        (Known::Integer(value), Known::Integer(_) | Known::Fault) => {
            if is_decided(all, value) {
                truth(before)
            } else {
                truth(operand)
            }
        }
        (Known::Fault, Known::Integer(_) | Known::Fault) => Known::Fault,
        _ => Known::Nothing,
    }
}

fn is_some(known: Known) -> bool
    ensures { result ≡ is_known known }
{
    match known {
        Known::Nothing => false,
        Known::Integer(_) | Known::Fault | Known::Address(..) => true,
    }
}

/// What `?:` gives: only the chosen operand is evaluated, and all three are constants.
pub fn choice(test: Known, then: Known, otherwise: Known) -> Known
    ensures { result ≡ known_choice test then otherwise }
{
    if !(is_some(then) && is_some(otherwise)) {
        return Known::Nothing;
    }
    match test {
        Known::Integer(0) => otherwise,
        Known::Integer(_) => then,
        Known::Fault => Known::Fault,
        Known::Nothing | Known::Address(..) => Known::Nothing,
    }
}
