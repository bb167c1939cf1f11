//! The rules of the checker: what is wrong with a file that the grammar takes.

ghost use Rattle.std.specs.Prelude.{◌≡◌, ◌≤◌};
ghost use Rattle.c_rules.specs.Rules.{number_of, text_of, lower_of, rules_of_a_file};

use thiserror::Error;

/// A rule, by the text that tells it. Of several that one construct breaks, the first in this order decides.
#[derive(Clone, Copy, Debug, PartialEq, Eq, Error)]
pub enum Rule {
    /// A name has no visible declaration.
    #[error("unknown name")]
    UnknownName,
    /// Two declarations in one scope and name space, other than equal typedefs, and equal declarations
    /// with linkage of which one at most has a body or an initialiser (C11 6.7p3).
    #[error("declared again")]
    DeclaredAgain,
    /// The words name no type, or there are two storage classes, or one that may not stand there (C11
    /// 6.7.1, 6.7.2).
    #[error("bad specifiers")]
    BadSpecifiers,
    /// An object, a member, an element or an operand of `sizeof` has no size.
    #[error("incomplete type")]
    IncompleteType,
    /// A type has over 131,072 bytes.
    #[error("object too large")]
    ObjectTooLarge,
    /// An array's size is no integer constant, or below 1, or absent without an initialiser (C11
    /// 6.7.6.2).
    #[error("bad array size")]
    BadArraySize,
    /// A result is a function, an array, a structure or a union, a parameter a structure or a union, or
    /// a body stands after a declarator that makes no function by a list of parameters of its own (C11
    /// 6.7.6.3, 6.9.1p2).
    #[error("bad function type")]
    BadFunctionType,
    /// A member is a function, two have one name, or a list of members has none (C11 6.7.2.1).
    #[error("bad member")]
    BadMember,
    /// The structure has no such member (C11 6.5.2.3).
    #[error("unknown member")]
    UnknownMember,
    /// No integer constant, or one with an overflow, a zero divisor or a shift out of range, or an
    /// enumeration's that `int` doesn't hold (C11 6.6).
    #[error("bad constant")]
    BadConstant,
    /// Too many items, braces where a scalar stands, none for an aggregate, not constant for a static
    /// object, or one where none may stand (C11 6.7.9).
    #[error("bad initialiser")]
    BadInitialiser,
    /// A place is needed (C11 6.3.2.1).
    #[error("not an lvalue")]
    NotAnLvalue,
    /// What is const, an array, or a structure with a const member is assigned (C11 6.5.16).
    #[error("not modifiable")]
    NotModifiable,
    /// The address of a register object, or of no place (C11 6.5.3.2).
    #[error("bad address")]
    BadAddress,
    /// `*`, `[]` or `->` on no pointer.
    #[error("not a pointer")]
    NotAPointer,
    /// `.` or `->` on no structure or union.
    #[error("not a structure")]
    NotAStructure,
    /// An operator's types are none that it takes (C11 6.5).
    #[error("bad operand")]
    BadOperand,
    /// A value doesn't convert to what is assigned, passed, initialised or returned (C11 6.5.16.1).
    #[error("bad conversion")]
    BadConversion,
    /// A cast other than between scalars, or to void (C11 6.5.4).
    #[error("bad cast")]
    BadCast,
    /// What is called is neither a function nor a pointer to one (C11 6.5.2.2).
    #[error("not callable")]
    NotCallable,
    /// A call has more or fewer arguments than its function has parameters (C11 6.5.2.2).
    #[error("argument count")]
    ArgumentCount,
    /// `printf` without a literal format, with an unknown directive, another count, or another
    /// argument.
    #[error("bad format")]
    BadFormat,
    /// An atomic call on other operands, or `_Atomic` on what it may not stand on (C11 6.7.2.4).
    #[error("bad atomic")]
    BadAtomic,
    /// A condition is no scalar.
    #[error("not a scalar")]
    NotAScalar,
    /// The value of a `switch` is no integer.
    #[error("not an integer")]
    NotAnInteger,
    /// Two equal case constants (C11 6.8.4.2).
    #[error("case again")]
    CaseAgain,
    /// Two defaults in one `switch` (C11 6.8.4.2).
    #[error("two defaults")]
    TwoDefaults,
    /// `break` outside of loop and `switch` (C11 6.8.6.3).
    #[error("break outside")]
    BreakOutside,
    /// `continue` outside of a loop (C11 6.8.6.2).
    #[error("continue outside")]
    ContinueOutside,
    /// A value in a function that gives none, or none in another (C11 6.8.6.4).
    #[error("bad return")]
    BadReturn,
    /// A tag of another kind, or an enumeration's before its names (C11 6.7.2.3).
    #[error("wrong tag")]
    WrongTag,
    /// The constant of a static assertion is 0 (C11 6.7.10).
    #[error("static assertion")]
    StaticAssertion,
    /// `main` isn't a function from nothing to `int` (C11 5.1.2.2.1).
    #[error("bad main")]
    BadMain,
    /// A function is used and has no body (C11 6.9p5). The line is that of its first declaration.
    #[error("undefined function")]
    UndefinedFunction,
    /// An extern object is used and never defined (C11 6.9p5). The line is that of its first
    /// declaration.
    #[error("undefined object")]
    UndefinedObject,
    /// A function's values pass 256. The line is its first.
    #[error("too many values")]
    TooManyValues,
    /// Over 4,000 functions. The line is 1.
    #[error("too many functions")]
    TooManyFunctions,
    /// Over 262,144 words of static objects. The line is 1.
    #[error("statics too large")]
    StaticsTooLarge,
    /// There is no `main`. The line is 1.
    #[error("no main")]
    NoMain,
    /// A declaration has no declarator, tag or enumeration constant (C11 6.7p2).
    #[error("nothing declared")]
    NothingDeclared,
}

impl Rule {
    /// The rules of a whole file, in the order in which they are looked at after all of its constructs.
    pub fn of_a_file() -> [Rule; 6]
        ensures { result ≡ rules_of_a_file }
    {
        [
            Rule::UndefinedFunction,
            Rule::UndefinedObject,
            Rule::NoMain,
            Rule::TooManyFunctions,
            Rule::StaticsTooLarge,
            Rule::TooManyValues,
        ]
    }

    /// The rule's number, from 1 to 40.
    pub fn number(self) -> u8
        ensures number { result ≡ number_of self }
        ensures least { 1 ≤ result }
        ensures most { result ≤ 40 }
    {
        match self {
            Rule::UnknownName => 1,
            Rule::DeclaredAgain => 2,
            Rule::BadSpecifiers => 3,
            Rule::IncompleteType => 4,
            Rule::ObjectTooLarge => 5,
            Rule::BadArraySize => 6,
            Rule::BadFunctionType => 7,
            Rule::BadMember => 8,
            Rule::UnknownMember => 9,
            Rule::BadConstant => 10,
            Rule::BadInitialiser => 11,
            Rule::NotAnLvalue => 12,
            Rule::NotModifiable => 13,
            Rule::BadAddress => 14,
            Rule::NotAPointer => 15,
            Rule::NotAStructure => 16,
            Rule::BadOperand => 17,
            Rule::BadConversion => 18,
            Rule::BadCast => 19,
            Rule::NotCallable => 20,
            Rule::ArgumentCount => 21,
            Rule::BadFormat => 22,
            Rule::BadAtomic => 23,
            Rule::NotAScalar => 24,
            Rule::NotAnInteger => 25,
            Rule::CaseAgain => 26,
            Rule::TwoDefaults => 27,
            Rule::BreakOutside => 28,
            Rule::ContinueOutside => 29,
            Rule::BadReturn => 30,
            Rule::WrongTag => 31,
            Rule::StaticAssertion => 32,
            Rule::BadMain => 33,
            Rule::UndefinedFunction => 34,
            Rule::UndefinedObject => 35,
            Rule::TooManyValues => 36,
            Rule::TooManyFunctions => 37,
            Rule::StaticsTooLarge => 38,
            Rule::NoMain => 39,
            Rule::NothingDeclared => 40,
        }
    }

    /// The rule's text.
    pub fn text(self) -> &'static str
        ensures { result.now ≡ text_of self }
    {
        match self {
            Rule::UnknownName => "unknown name",
            Rule::DeclaredAgain => "declared again",
            Rule::BadSpecifiers => "bad specifiers",
            Rule::IncompleteType => "incomplete type",
            Rule::ObjectTooLarge => "object too large",
            Rule::BadArraySize => "bad array size",
            Rule::BadFunctionType => "bad function type",
            Rule::BadMember => "bad member",
            Rule::UnknownMember => "unknown member",
            Rule::BadConstant => "bad constant",
            Rule::BadInitialiser => "bad initialiser",
            Rule::NotAnLvalue => "not an lvalue",
            Rule::NotModifiable => "not modifiable",
            Rule::BadAddress => "bad address",
            Rule::NotAPointer => "not a pointer",
            Rule::NotAStructure => "not a structure",
            Rule::BadOperand => "bad operand",
            Rule::BadConversion => "bad conversion",
            Rule::BadCast => "bad cast",
            Rule::NotCallable => "not callable",
            Rule::ArgumentCount => "argument count",
            Rule::BadFormat => "bad format",
            Rule::BadAtomic => "bad atomic",
            Rule::NotAScalar => "not a scalar",
            Rule::NotAnInteger => "not an integer",
            Rule::CaseAgain => "case again",
            Rule::TwoDefaults => "two defaults",
            Rule::BreakOutside => "break outside",
            Rule::ContinueOutside => "continue outside",
            Rule::BadReturn => "bad return",
            Rule::WrongTag => "wrong tag",
            Rule::StaticAssertion => "static assertion",
            Rule::BadMain => "bad main",
            Rule::UndefinedFunction => "undefined function",
            Rule::UndefinedObject => "undefined object",
            Rule::TooManyValues => "too many values",
            Rule::TooManyFunctions => "too many functions",
            Rule::StaticsTooLarge => "statics too large",
            Rule::NoMain => "no main",
            Rule::NothingDeclared => "nothing declared",
        }
    }

    /// The one of two rules that decides: that with the lower number.
    pub fn lower_of(self, other: Rule) -> Rule
        ensures { result ≡ lower_of self other }
    {
        if other.number() < self.number() {
            other
        } else {
            self
        }
    }
}
