//! Operator-precedence parsing: a condition is read one item after another, each looked at once.
//!
//! 1. What is read is whole up to a level: an operand with its signs up to the highest, both sides of an
//!    operator up to its own, a choice up to 0. Operators up to that level may go on with it.
//! 2. Shift: an operator that is above what the innermost frame waits for takes what was read as its left
//!    side, and waits in a frame of its own for the right one.
//! 3. Reduce: any other punctuator ends what the innermost frame waits for, which makes one value of it.
//!
//! Frames stand on the heap, so a condition may be nested as deep as it is long.

ghost use Rattle.std.specs.Prelude.{◌≡◌, reverse, IfOk};
ghost use Rattle.std.specs.Option.{option_map, option_and_then};
ghost use Rattle.c_preproc.specs.Condition.{is_question, truth, truth_of_items};
ghost use Rattle.c_preproc.specs.Expansion.{items_of};
ghost use Rattle.c_preproc.specs.Code.Reading.{begin, close, end_of, floor_of, go_on, reduce, reduce_all, shift, shift_choice, shift_first, shift_joint, shift_open, state, take_item, top_floor};

use crate::condition_item::{Item, Joint, Punctuator, Separator, Sign, Value, item_of, precedence};
use crate::condition_value::{truth, value_of_choice, value_of_joint, value_of_sign};
use c_lexer::Token;
use std::alloc::{AllocError, Global};

/// No operator is above this level: that of `*`.
const HIGHEST_LEVEL: u8 = 11;

/// A part of the condition that waits for what is read next.
#[derive(Clone, Copy)]
pub enum Frame {
    /// A sign waits for its operand.
    Sign(Sign),
    /// A parenthesis waits for what stands between it and its end.
    Parenthesis,
    /// What joins two operands and the left one wait for the right one.
    Right(Joint, Value),
    /// A choice waits for its first side.
    Yes(Option<bool>),
    /// A choice and its first side wait for its second.
    No(Option<bool>, Value),
}

/// A value that is read whole up to this level.
#[derive(Clone, Copy)]
pub struct Whole {
    pub level: u8,
    pub value: Value,
}

/// What is to come next: an operand, or what stands behind a value.
#[derive(Clone, Copy)]
pub enum Mode {
    Wanted,
    Behind(Whole),
}

impl Frame {
    /// Operators above this level belong to what the frame waits for.
    fn floor(self) -> u8
        ensures { result ≡ floor_of self }
    {
        match self {
            Frame::Sign(_) => HIGHEST_LEVEL,
            Frame::Right(joint, _) => precedence(joint),
            Frame::Parenthesis | Frame::Yes(_) | Frame::No(_, _) => 0,
        }
    }

    /// What the frame makes of the value that it waited for; None where it waits for a separator too.
    fn reduce(self, value: Value) -> Option<Whole>
        ensures { result ≡ reduce self value }
    {
        match self {
            Frame::Sign(sign) => Some(Whole {
                level: HIGHEST_LEVEL,
                value: value_of_sign(sign, value),
            }),
            Frame::Right(joint, left) => Some(Whole {
                level: precedence(joint),
                value: value_of_joint(joint, left, value),
            }),
            Frame::No(holds, yes) => Some(Whole {
                level: 0,
                value: value_of_choice(holds, yes, value),
            }),
            Frame::Parenthesis | Frame::Yes(_) => None,
        }
    }
}

/// Operators above this level belong to what the innermost frame waits for, or to the whole condition.
fn top_floor(frames: &[Frame]) -> u8
    ensures { result ≡ top_floor (reverse frames.now) }
{
    match frames.last() {
        None => 0,
        Some(frame) => frame.floor(),
    }
}

/// The frame that a punctuator opens behind a value.
fn shift(floor: u8, whole: Whole, punctuator: Punctuator) -> Option<Frame>
    ensures { result ≡ shift floor whole punctuator }
{
    match shift_joint(floor, whole, punctuator.joint) {
        Some(frame) => Some(frame),
        None => shift_choice(floor, whole, punctuator.separator),
    }
}

fn shift_joint(floor: u8, whole: Whole, joint: Option<Joint>) -> Option<Frame>
    ensures { result ≡ shift_joint floor whole joint }
{
    let joint = joint?;
    let level = precedence(joint);
    if floor < level && level <= whole.level {
        Some(Frame::Right(joint, whole.value))
    } else {
        None
    }
}

fn shift_choice(floor: u8, whole: Whole, separator: Option<Separator>) -> Option<Frame>
    ensures { result ≡ shift_choice floor whole separator }
{
    if is_question(separator) && floor == 0 && whole.level > 0 {
        Some(Frame::Yes(truth(whole.value.bits)))
    } else {
        None
    }
}

fn is_question(separator: Option<Separator>) -> bool
    ensures { result ≡ is_question separator }
{
    matches!(separator, Some(Separator::Question))
}

/// The frame that a punctuator opens where an operand begins.
fn shift_first(punctuator: Punctuator) -> Option<Frame>
    ensures { result ≡ shift_first punctuator }
{
    match punctuator.sign {
        Some(sign) => Some(Frame::Sign(sign)),
        None => shift_open(punctuator.separator),
    }
}

fn shift_open(separator: Option<Separator>) -> Option<Frame>
    ensures { result ≡ shift_open separator }
{
    match separator {
        Some(Separator::Open) => Some(Frame::Parenthesis),
        _ => None,
    }
}

/// Takes an item where an operand begins. None where none begins with it.
fn begin(frames: &mut Vec<Frame>, item: Item) -> Result<Option<Mode>, AllocError>
    ensures { IfOk result (λ mode. option_map (state (reverse frames.new.items)) mode
        ≡ begin (reverse frames.old.items) item) }
{
    match item {
        Item::Operand(value) => Ok(Some(Mode::Behind(Whole {
            level: HIGHEST_LEVEL,
            value,
        }))),
        Item::Punctuator(punctuator) => match shift_first(punctuator) {
            Some(frame) => {
                frames.push(frame)?;
                Ok(Some(Mode::Wanted))
            }
            None => Ok(None),
        },
    }
}

/// Gives a frame that was just taken off the value and the separator that it waited for. None where the
/// separator is another.
fn close(
    frames: &mut Vec<Frame>,
    frame: Frame,
    value: Value,
    separator: Option<Separator>,
) -> Result<Option<Mode>, AllocError>
    ensures { IfOk result (λ mode. option_map (state (reverse frames.new.items)) mode
        ≡ close (reverse frames.old.items) frame value separator) }
{
    match (frame, separator) {
        (Frame::Parenthesis, Some(Separator::Close)) => Ok(Some(Mode::Behind(Whole {
            level: HIGHEST_LEVEL,
            value,
        }))),
        (Frame::Yes(holds), Some(Separator::Colon)) => {
            frames.push(Frame::No(holds, value))?;
            Ok(Some(Mode::Wanted))
        }
        _ => Ok(None),
    }
}

/// Takes a punctuator behind a value. None where no expression goes on with it.
fn go_on(
    frames: &mut Vec<Frame>,
    mut whole: Whole,
    punctuator: Punctuator,
) -> Result<Option<Mode>, AllocError>
    ensures { IfOk result (λ mode. option_map (state (reverse frames.new.items)) mode
        ≡ go_on (reverse frames.old.items) whole punctuator) }
{
    loop {
        if let Some(frame) = shift(top_floor(frames), whole, punctuator) {
            frames.push(frame)?;
            return Ok(Some(Mode::Wanted));
        }
        let Some(frame) = frames.pop() else {
            return Ok(None);
        };
        match frame.reduce(whole.value) {
            Some(next) => whole = next,
            None => return close(frames, frame, whole.value, punctuator.separator),
        }
    }
}

/// Takes the next item. None where no expression goes on with it.
fn take_item(frames: &mut Vec<Frame>, mode: Mode, item: Item) -> Result<Option<Mode>, AllocError>
    ensures { IfOk result (λ mode'. option_map (state (reverse frames.new.items)) mode'
        ≡ take_item (state (reverse frames.old.items) mode) item) }
{
    match (mode, item) {
        (Mode::Wanted, _) => begin(frames, item),
        (Mode::Behind(whole), Item::Punctuator(punctuator)) => go_on(frames, whole, punctuator),
        (Mode::Behind(_), Item::Operand(_)) => Ok(None),
    }
}

/// The value of a condition whose items were all taken. None where it isn't whole.
fn finish(frames: Vec<Frame>, mode: Mode) -> Option<Value>
    ensures { result ≡ end_of (state (reverse frames.items) mode) }
{
    match mode {
        Mode::Wanted => None,
        Mode::Behind(whole) => reduce_all(frames, whole.value),
    }
}

fn reduce_all(mut frames: Vec<Frame>, mut value: Value) -> Option<Value>
    ensures { result ≡ reduce_all (reverse frames.items) value }
{
    while let Some(frame) = frames.pop() {
        let whole = frame.reduce(value)?;
        value = whole.value;
    }
    Some(value)
}

fn truth_at_end(frames: Vec<Frame>, mode: Mode) -> Option<bool>
    ensures { result ≡ option_and_then
        (λ value. truth value.bits) (end_of (state (reverse frames.items) mode)) }
{
    let value = finish(frames, mode)?;
    truth(value.bits)
}

/// Whether a condition holds: None where its tokens are no expression, or where it has no value.
///
/// Memory is taken for each part that is open, so the depth of the parts isn't limited.
pub fn holds(alloc: Global, bytes: &[u8], tokens: &[Token]) -> Result<Option<bool>, AllocError>
    ensures { IfOk result (λ holds. holds
        ≡ option_and_then truth_of_items (items_of bytes.now tokens.now)) }
{
    let mut frames = Vec::new(alloc);
    let mut mode = Mode::Wanted;
    for token in tokens {
        let Some(item) = item_of(bytes, *token) else {
            return Ok(None);
        };
        match take_item(&mut frames, mode, item)? {
            Some(next) => mode = next,
            None => return Ok(None),
        }
    }
    Ok(truth_at_end(frames, mode))
}
