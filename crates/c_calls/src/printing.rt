//! `printf`, which stands in place with a literal as its format.
//!
//! The format is read byte by byte. A directive takes the next value and becomes a piece that puts it out.

ghost use Rattle.std.specs.Prelude.{◌≡◌, [], ◌∷◌, ◌++◌, IfOk, OnOk};
ghost use Rattle.c_tree.specs.declared.operation.Piece.TheVariants as piece;
ghost use Rattle.c_expr_rules.specs.Outcomes as o;
ghost use Rattle.c_expr_rules.specs.Calls as c;
ghost use Rattle.c_expr_rules.specs.declared.printer.Printer.{Printer};
ghost use Rattle.c_expr_rules.specs.declared.arguments.Arguments.{Arguments};
ghost use Rattle.c_expr_rules.specs.Calls.{is_char, is_text_part, directive, long_directive, printout, is_not_printed, print_made, print_call, bad_print};
ghost use Rattle.c_expr_rules.specs.declared.printer.Mode.TheVariants.{Text, Percent};
ghost use Rattle.c_calls.specs.Printouts.{takes_value, given_value, piece_of, put_by, seen_directive, seen_printout, rest_of, TakesValue, TakesByte};
ghost use Rattle.c_expr_rules.specs.Views.{seen_state, checked};

use bitflags::Flags;
use c_expr_rules::{
    Arguments, Found, Known, Made, Mode, Printer, State, Typed, by_rules, integer_as, is_integer,
    kind_of_value, kind_value, last_first, leaf, made_of, pointed_part, rank, tree_of, type_at,
};
use c_rules::Rule;
use c_tree::{Expr, Operation, Piece};
use c_types::{CType, Part};
use filc_num::CIntType;
use sqlite_items::Items;
use std::alloc::{AllocError, Global};

/// Which values a directive takes, and as what.
#[derive(Clone, Copy, Debug, PartialEq, Eq)]
pub enum Taken {
    /// An integer of at most the rank of an int, as one of this kind.
    Small(CIntType),
    /// An integer of a greater rank.
    Great(CIntType),
    /// A pointer to char, plain or const.
    Text,
}

/// How a directive puts out its value.
#[derive(Clone, Copy, Debug, PartialEq, Eq)]
pub enum Output {
    /// Its low byte.
    Byte,
    /// By a library function.
    By { function: u32, radix: Option<u8> },
}

/// A directive.
#[derive(Clone, Copy, Debug, PartialEq, Eq)]
pub struct Directive {
    pub taken: Taken,
    pub output: Output,
}

/// The operands and the pieces of what is printed, without the lock.
#[derive(Drop)]
pub struct Printout {
    pub operands: Items<Expr>,
    pub pieces: Items<Piece>,
}

/// Whether a part is char, plain or const.
fn is_text_part(state: &State, part: Option<Part>) -> bool
    ensures { result ≡ is_text_part (seen_state state.now) part }
{
    match part {
        None => false,
        Some(to) => { is_char(type_at(state, to.number)) && (to.qualifiers.bits() | 1) == 1 }
    }
}

fn is_char(ty: CType) -> bool
    ensures { result ≡ is_char ty }
{
    matches!(ty, CType::Integer(CIntType::Char))
}

/// Whether a directive takes a value.
fn takes(state: &State, taken: Taken, typed: &Typed) -> bool
    ensures { result ≡ takes_value (seen_state state.now) taken typed.now }
{
    match taken {
        Taken::Small(_) => is_integer(typed.ty) && rank(kind_of_value(typed)) <= 3,
        Taken::Great(_) => is_integer(typed.ty) && 3 < rank(kind_of_value(typed)),
        Taken::Text => is_text_part(state, pointed_part(typed.ty)),
    }
}

/// A value as a directive takes it.
fn directive_value(alloc: Global, taken: Taken, typed: Typed) -> Result<Typed, AllocError>
    ensures { IfOk result (λ t. t ≡ given_value taken typed) }
{
    match taken {
        Taken::Small(kind) | Taken::Great(kind) => {
            let from = kind_of_value(&typed);
            integer_as(alloc, CType::Integer(kind), kind, from, typed)
        }
        Taken::Text => Ok(typed),
    }
}

/// The piece that puts out the operand of this number.
fn piece_of(output: Output, operand: u32) -> Piece
    ensures { result ≡ piece_of output operand }
{
    match output {
        Output::Byte => Piece::Out(operand),
        Output::By { function, radix } => Piece::Put {
            function,
            operand,
            radix,
        },
    }
}

/// A directive whose value a library function puts out.
fn put_by(taken: Taken, function: u32, radix: Option<u8>) -> Option<Directive>
    ensures { result ≡ put_by taken function radix }
{
    let output = Output::By { function, radix };
    Some(Directive { taken, output })
}

/// The directive of a letter behind `%`.
fn directive_of(printer: Printer, letter: u8) -> Option<Directive>
    ensures { (s : o.State) → seen_directive s result ≡ directive s printer letter }
{
    match letter {
        b'd' => put_by(Taken::Small(CIntType::Int), printer.signed, None),
        b'u' => put_by(
            Taken::Small(CIntType::UnsignedInt),
            printer.unsigned,
            Some(10),
        ),
        b'x' => put_by(
            Taken::Small(CIntType::UnsignedInt),
            printer.unsigned,
            Some(16),
        ),
        b'c' => Some(Directive {
            taken: Taken::Small(CIntType::Int),
            output: Output::Byte,
        }),
        b's' => put_by(Taken::Text, printer.text, None),
        _ => None,
    }
}

/// The directive of a letter behind `%l`.
fn long_directive(printer: Printer, letter: u8) -> Option<Directive>
    ensures { (s : o.State) → seen_directive s result
        ≡ long_directive printer letter }
{
    match letter {
        b'd' => put_by(Taken::Great(CIntType::Long), printer.signed, None),
        b'u' => put_by(
            Taken::Great(CIntType::UnsignedLong),
            printer.unsigned,
            Some(10),
        ),
        b'x' => put_by(
            Taken::Great(CIntType::UnsignedLong),
            printer.unsigned,
            Some(16),
        ),
        _ => None,
    }
}

/// A format as far as it is read: what it prints, where in it, and the number of the next operand. The values that are
/// left stand in `pending`, the next one last.
#[derive(Drop)]
pub struct Reading {
    pub printed: Printout,
    pub mode: Mode,
    pub operand_number: u32,
    pub pending: Items<Typed>,
}

/// What a byte of a format does.
#[derive(Clone, Copy, Debug, PartialEq, Eq)]
pub enum Progress {
    /// The format goes on.
    On,
    /// It ends here, at a NUL.
    Ends,
    /// It is bad.
    Bad,
}

impl Reading {
    /// A directive takes the next value.
    fn take(
        &mut self,
        alloc: Global,
        state: &State,
        directive: Option<Directive>,
    ) -> Result<Progress, AllocError>
        ensures { IfOk result (TakesValue (seen_state state.now) directive self.old self.new) }
    {
        let Some(Directive { taken, output }) = directive else {
            return Ok(Progress::Bad);
        };
        let Some(typed) = self.pending.pop() else {
            return Ok(Progress::Bad);
        };
        if !takes(state, taken, &typed) {
            return Ok(Progress::Bad);
        }
        let Some(following) = self.operand_number.checked_add(1) else {
            return Err(AllocError);
        };
        let value = directive_value(alloc, taken, typed)?;
        let operand = tree_of(alloc, value.made)?;
        self.printed.operands.push(operand)?;
        self.printed
            .pieces
            .push(piece_of(output, self.operand_number))?;
        self.operand_number = following;
        self.mode = Mode::Text;
        Ok(Progress::On)
    }

    /// A byte that is printed itself.
    fn put(&mut self, byte: u8) -> Result<(), AllocError>
        ensures { OnOk result (self.new ≡ record self.old {
          printed = record self.old.printed {
            pieces = self.old.printed.pieces ++ piece.Byte byte ∷ [];
          };
          mode = Text;
        }) }
    {
        self.printed.pieces.push(Piece::Byte(byte))?;
        self.mode = Mode::Text;
        Ok(())
    }

    /// A byte of the format's text.
    fn read_text(&mut self, byte: u8) -> Result<Progress, AllocError>
        requires { self.old.mode ≡ Text }
        ensures { IfOk result (λ progress. (s : o.State) (f : Printer)
            → TakesByte s f byte self.old self.new progress) }
    {
        if byte == 0 {
            return Ok(Progress::Ends);
        }
        if byte == b'%' {
            self.mode = Mode::Percent;
            return Ok(Progress::On);
        }
        self.put(byte)?;
        Ok(Progress::On)
    }

    /// A byte behind `%`.
    fn read_directive(
        &mut self,
        alloc: Global,
        state: &State,
        printer: Printer,
        byte: u8,
    ) -> Result<Progress, AllocError>
        requires { self.old.mode ≡ Percent }
        ensures { IfOk result (TakesByte (seen_state state.now) printer byte
            self.old self.new) }
    {
        if byte == b'%' {
            self.put(byte)?;
            return Ok(Progress::On);
        }
        if byte == b'l' {
            self.mode = Mode::Long;
            return Ok(Progress::On);
        }
        self.take(alloc, state, directive_of(printer, byte))
    }

    /// The next byte of the format.
    fn read_byte(
        &mut self,
        alloc: Global,
        state: &State,
        printer: Printer,
        byte: u8,
    ) -> Result<Progress, AllocError>
        ensures { IfOk result (TakesByte (seen_state state.now) printer byte
            self.old self.new) }
    {
        match self.mode {
            Mode::Text => self.read_text(byte),
            Mode::Percent => self.read_directive(alloc, state, printer, byte),
            Mode::Long => self.take(alloc, state, long_directive(printer, byte)),
        }
    }

    /// What is printed, where the format may end here and no value is left.
    fn end(self) -> Option<Printout>
        ensures { (s : o.State) (f : Printer) → seen_printout result ≡ rest_of s f self [] }
    {
        let Reading {
            printed,
            mode,
            pending,
            ..
        } = self;
        if !pending.is_empty() {
            return None;
        }
        match mode {
            Mode::Text => Some(printed),
            Mode::Percent | Mode::Long => None,
        }
    }
}

/// What a format prints of these values, or None where it is bad.
fn printout_of(
    alloc: Global,
    state: &State,
    printer: Printer,
    format: &[u8],
    values: Items<Typed>,
) -> Result<Option<Printout>, AllocError>
    ensures { IfOk result (λ p. seen_printout p ≡ printout (seen_state state.now)
        printer Text format.now 1 values) }
{
    let pending = Items::from_vec(last_first(alloc, values)?);
    let mut reading = Reading {
        printed: Printout {
            operands: Items::new(alloc),
            pieces: Items::new(alloc),
        },
        mode: Mode::Text,
        operand_number: 1,
        pending,
    };
    for byte in format {
        match reading.read_byte(alloc, state, printer, *byte)? {
            Progress::On => {}
            Progress::Ends => return Ok(reading.end()),
            Progress::Bad => return Ok(None),
        }
    }
    Ok(reading.end())
}

/// The tree of a call of `printf`, or of none where its format is bad.
fn print_made(
    alloc: Global,
    line: u32,
    printer: Printer,
    printed: Option<Printout>,
) -> Result<Made, AllocError>
    ensures { IfOk result (λ m. m
        ≡ print_made line printer (seen_printout printed)) }
{
    let Some(
        Printout {
            operands: more,
            pieces,
        },
    ) = printed
    else {
        return Ok(leaf(alloc, line, Operation::Abort));
    };
    let mut operands = Items::new(alloc);
    operands.push(Expr::Apply {
        line,
        op: Operation::Static(printer.lock),
        operands: Items::new(alloc),
    })?;
    operands.append(more)?;
    let tree = Expr::Print {
        line,
        operands,
        pieces,
    };
    Ok(made_of(alloc, line, tree))
}

/// Whether a format is bad.
fn is_not_printed(printed: &Option<Printout>) -> bool
    ensures { result ≡ is_not_printed (seen_printout printed.now) }
{
    match printed {
        None => true,
        Some(_) => false,
    }
}

/// A call of `printf` with this format. It gives the number of bytes.
pub fn print_call(
    alloc: Global,
    state: &State,
    printer: Printer,
    line: u32,
    format: &[u8],
    arguments: Arguments,
) -> Result<Found<Typed>, AllocError>
    ensures { IfOk result (λ found. let s = seen_state state.now in checked s found
        ≡ print_call line printer format.now s arguments) }
{
    let Arguments { values, .. } = arguments;
    let printed = printout_of(alloc, state, printer, format, values)?;
    let rules = [(Rule::BadFormat, is_not_printed(&printed))];
    let made = print_made(alloc, line, printer, printed)?;
    let found = kind_value(CIntType::Int, line, made, Known::Nothing);
    Ok(by_rules(line, &rules, found))
}

/// A call of `printf` with anything else.
pub fn bad_print(alloc: Global, line: u32) -> Found<Typed>
    ensures { (s : o.State) (f : Printer) (a : Arguments)
        → checked s result ≡ bad_print line f s a }
{
    let none = leaf(alloc, line, Operation::Abort);
    let found = kind_value(CIntType::Int, line, none, Known::Nothing);
    by_rules(line, &[(Rule::BadFormat, true)], found)
}
