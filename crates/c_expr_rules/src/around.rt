//! What is round the expressions of a file: what tokens mean, which locals have homes, and which types are made.
//!
//! A trait, since the declarations of a file know it and stand above this crate.

ghost use Rattle.std.specs.Prelude.{◌≡◌, IfOk, OnOk};
ghost use Rattle.c_expr_rules.specs.Views.{Passes, Grows, seen_state};

use crate::found::Fault;
use crate::printer::Printer;
use crate::state::State;
use c_syntax::TypeName;
use c_tree::Operation;
use c_types::{Part, Qualifiers, Types};
use filc_num::CIntType;
use sqlite_items::Items;
use std::alloc::{AllocError, Global};

/// What is round expressions.
pub trait Surroundings {
    ghost use Rattle.c_expr_rules.specs.Expressions.{Around};

    // What the definition is told.
    ghost told: { Self → Around };

    // Whether a type name may be named. It has expressions in it, which are checked by this trait's user, so that only who
    // stands above both knows that the way down ends.
    ghost fit: { Self → Type 0 };

    /// The type and the value of a number, by its token's number.
    fn number(&self, token: u32) -> (CIntType, u64)
        ensures { result ≡ (told self.now).number token };

    /// The value of a character, by its token's number.
    fn character(&self, token: u32) -> u64
        ensures { result ≡ (told self.now).character token };

    /// The bytes of the texts from one token to another, which are one, without the zero behind them.
    fn text(&self, alloc: Global, first: u32, last: u32) -> Result<Items<u8>, AllocError>
        ensures { IfOk result (λ bytes. bytes ≡ (told self.now).text first last) };

    /// The letters of a name.
    fn spelling(&self, name: u32) -> &[u8]
        ensures { result.now ≡ (told self.now).spelling name };

    /// Whether the address of a local is taken somewhere in its function.
    fn has_home(&self, local: u32) -> bool
        ensures { result ≡ (told self.now).has_home local };

    /// The number of a function's type among those of functions, by its number in the table.
    fn kind_of(&self, ty: u32) -> u32
        ensures { result ≡ (told self.now).kind_of ty };

    /// The operation that a function is, where it is one.
    fn intrinsic(&self, function: u32) -> Option<Operation>
        ensures { result ≡ (told self.now).intrinsic function };

    /// What `printf` stands for, where it is there.
    fn printer(&self) -> Option<Printer>
        ensures { result ≡ (told self.now).printer };

    /// The number of the type of an array of so many char.
    fn char_array(&self, alloc: Global, types: &mut Types, count: u64) -> Result<u32, AllocError>
        ensures { IfOk result (λ number.
            (types.new, number) ≡ (told self.now).char_array types.old count) };

    /// An array's type where its innermost elements have these qualifiers too.
    fn qualified_array(
        &self,
        alloc: Global,
        types: &mut Types,
        part: Part,
        quals: Qualifiers,
    ) -> Result<Part, AllocError>
        ensures { IfOk result (λ made.
            (types.new, made) ≡ (told self.now).qualified_array types.old part quals.0) };

    /// The type that a type name names. What it declares is declared then.
    fn named_type(&self, alloc: Global, state: &mut State, name: &TypeName) -> Result<Part, Fault>
        requires { fit self.now }
        ensures found { Passes (seen_state state.new) result
            ((told self.now).named_type (seen_state state.old) name.now) }
        ensures grows { OnOk result (Grows state.old state.new) };
}
