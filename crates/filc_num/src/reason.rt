//! Why a run is trapped.

ghost use Rattle.std.specs.Prelude.{◌≡◌, ◌≢◌, IfSome, IfNone};
ghost use Rattle.filc_num.specs.Reasons.{number_of, text_of};
ghost use Rattle.filc_num.specs.declared.reason.Reason.{Reason};

/// Why a run is trapped. The first six are those of an access, in the order in which they count.
#[derive(Clone, Copy, Debug, PartialEq, Eq)]
pub enum Reason {
    /// The pointer has no capability.
    NoCapability,
    /// The capability names a function, and data was wanted.
    FunctionData,
    /// The object was freed.
    Freed,
    /// Some byte of the access is outside the object.
    Bounds,
    /// The address is no multiple of the access's width.
    Alignment,
    /// A write to a string literal.
    ReadOnly,
    /// A call through a capability that names no function.
    NotFunction,
    /// The function's type isn't that of the call.
    FunctionType,
    /// `free` or `realloc` of what no allocation gave.
    BadFree,
    /// No cell was left for a table, a box or a home.
    NoCell,
    /// A zero divisor, or the least value divided by -1.
    Divide,
    /// A shift count outside of the width.
    Shift,
    /// A byte was put out where the output was full.
    OutputLimit,
    /// A call would pass the greatest depth.
    CallDepth,
    /// `abort` was called.
    Abort,
}

impl Reason {
    /// The number of the reason, from 1 to 15.
    pub fn number(self) -> u32
        ensures { result ≡ number_of self }
    {
        match self {
            Reason::NoCapability => 1,
            Reason::FunctionData => 2,
            Reason::Freed => 3,
            Reason::Bounds => 4,
            Reason::Alignment => 5,
            Reason::ReadOnly => 6,
            Reason::NotFunction => 7,
            Reason::FunctionType => 8,
            Reason::BadFree => 9,
            Reason::NoCell => 10,
            Reason::Divide => 11,
            Reason::Shift => 12,
            Reason::OutputLimit => 13,
            Reason::CallDepth => 14,
            Reason::Abort => 15,
        }
    }

    /// The reason that has a number, if one has.
    pub fn with_number(number: u32) -> Option<Reason>
        ensures found { IfSome result (λ r. number_of r ≡ number) }
        ensures none { IfNone result ((r : Reason) → number_of r ≢ number) }
    {
        let reason = match number {
            1 => Reason::NoCapability,
            2 => Reason::FunctionData,
            3 => Reason::Freed,
            4 => Reason::Bounds,
            5 => Reason::Alignment,
            6 => Reason::ReadOnly,
            7 => Reason::NotFunction,
            8 => Reason::FunctionType,
            9 => Reason::BadFree,
            10 => Reason::NoCell,
            11 => Reason::Divide,
            12 => Reason::Shift,
            13 => Reason::OutputLimit,
            14 => Reason::CallDepth,
            15 => Reason::Abort,
            _ => return None,
        };
        Some(reason)
    }

    /// The words that the line of a trap has.
    #[tactic(auto, unfolding(crate::specs::Reasons::text_of))]
    pub fn text(self) -> &'static str
        ensures { result.now ≡ text_of self }
    {
        match self {
            Reason::NoCapability => "no capability",
            Reason::FunctionData => "function used as data",
            Reason::Freed => "freed",
            Reason::Bounds => "out of bounds",
            Reason::Alignment => "misaligned",
            Reason::ReadOnly => "read-only",
            Reason::NotFunction => "not a function",
            Reason::FunctionType => "function type",
            Reason::BadFree => "bad free",
            Reason::NoCell => "no cell",
            Reason::Divide => "division",
            Reason::Shift => "shift count",
            Reason::OutputLimit => "output limit",
            Reason::CallDepth => "call depth",
            Reason::Abort => "abort",
        }
    }
}
