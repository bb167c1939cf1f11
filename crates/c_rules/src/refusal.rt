//! Why a file is refused, and the text of each reason.

ghost use Rattle.std.specs.Prelude.{◌≡◌, Some};
ghost use Rattle.c_rules.specs.Refusals.{refusal_text, refusal_at_line};

use crate::rule::Rule;
use std::fmt;

/// Why a file is refused, and the line where, counted from 1.
#[derive(Clone, Copy, Debug, PartialEq, Eq)]
pub struct Refusal {
    pub kind: RefusalKind,
    pub line: u32,
}

/// Why a file is refused, in the order in which the reasons count.
#[derive(Clone, Copy, Debug, PartialEq, Eq)]
pub enum RefusalKind {
    /// A byte that begins no token.
    Bad,
    /// A comment, character or text without its end.
    Unclosed,
    /// A number, character or text that has no value.
    Literal,
    /// More bytes than a file may have.
    TooLong,
    /// A directive that is none.
    Directive,
    /// A header that is not there.
    Header,
    /// A conditional group without its other half.
    Unbalanced,
    /// More tokens than a file may expand to.
    Expanded,
    /// No tree is spelled so.
    Syntax,
    /// Brackets, prefix operators or statements nest too deep.
    Deep,
    /// A rule of the language is broken.
    Rule(Rule),
    /// The functions and objects of a file that breaks no rule don't keep what a program keeps. No file is
    /// known to be so.
    Unfit,
    /// filc does not run such a file yet.
    NotBuilt,
}

impl RefusalKind {
    /// The text of the reason, as it stands in the line of a refusal.
    pub fn text(self) -> &'static str
        ensures { result.now ≡ refusal_text self }
    {
        match self {
            RefusalKind::Bad => "bad character",
            RefusalKind::Unclosed => "unclosed",
            RefusalKind::Literal => "bad literal",
            RefusalKind::TooLong => "file too long",
            RefusalKind::Directive => "bad directive",
            RefusalKind::Header => "unknown header",
            RefusalKind::Unbalanced => "unbalanced conditional",
            RefusalKind::Expanded => "too many tokens",
            RefusalKind::Syntax => "syntax",
            RefusalKind::Deep => "too deep",
            RefusalKind::Rule(rule) => rule.text(),
            RefusalKind::Unfit => "unfit program",
            RefusalKind::NotBuilt => "not built",
        }
    }
}

impl fmt::Display for Refusal {
    ghost output = { λ refusal. Some (refusal_at_line refusal) };

    fn fmt<W: fmt::Write>(&self, f: &mut fmt::Formatter<W>) -> fmt::Result {
        let text = self.kind.text();
        let line = self.line;
        write!(f, "{text} at line {line}")
    }
}
