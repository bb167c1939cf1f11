//! What is round the expressions of a file, and the type that a type name in them names.
//!
//! A type name has expressions in it, which are checked by a crate below this one, and those have
//! type names again. So what names a type is handed down as a function value, with how many more
//! may nest. A file nests 200 constructs at most.

ghost use Rattle.std.specs.Prelude.{OnOk};
ghost use Rattle.c_expr_rules.specs.Views.{seen_state, Passes, Grows};
ghost use Rattle.c_check.specs.Rounds.{bare_here};
ghost use Rattle.c_file_rules.specs.Specifiers.{around_at};
ghost use Rattle.c_check.specs.Tokens.{plain_tokens};

use crate::tokens::{character, number, spelling, text};
use c_expr_rules::{Fault, Printer, State, Surroundings};
use c_file_rules::{obey, part_of};
use c_lexer::Tokens;
use c_names::{Facts, Scene, char_array, operation_at, qualified};
use c_rules::Rule;
use c_syntax::TypeName;
use c_tree::Operation;
use c_type_names::type_named;
use c_types::{Part, Qualifiers, Types};
use filc_num::CIntType;
use sqlite_items::Items;
use std::alloc::{AllocError, Global};

/// How many type names may nest.
pub const MOST_ROOM: u32 = 201;

/// What is round the expressions of a file: what is told of the file, its tokens, how many more
/// type names may nest, and what names their types.
#[derive(Drop)]
pub struct Round<'a, F> {
    pub facts: &'a Facts,
    pub tokens: &'a Tokens,
    pub room: u32,
    pub named: F,
}

impl<F: Fn(&Facts, &Tokens, &mut State, u32, &TypeName) -> Result<Part, Fault>> Surroundings
    for Round<'_, F> {
    ghost use Rattle.c_check.specs.Rounds.{round_at, NamesTypes};
    ghost use Rattle.c_check.specs.Tokens.{plain_tokens};

    ghost told = { λ r. round_at (plain_tokens r.tokens.now) r.facts.now r.room };

    ghost fit = { λ r. NamesTypes r.room (F.pre r.named) (F.post r.named) };

    fn number(&self, token: u32) -> (CIntType, u64) {
        number(self.tokens, token)
    }

    fn character(&self, token: u32) -> u64 {
        character(self.tokens, token)
    }

    fn text(&self, alloc: Global, first: u32, last: u32) -> Result<Items<u8>, AllocError> {
        text(alloc, self.tokens, first, last)
    }

    fn spelling(&self, name: u32) -> &[u8] {
        spelling(self.tokens, name)
    }

    fn has_home(&self, _: u32) -> bool {
        false
    }

    fn kind_of(&self, ty: u32) -> u32 {
        self.facts.kinds.number_of(ty)
    }

    fn intrinsic(&self, function: u32) -> Option<Operation> {
        operation_at(self.facts.bodies.len(), function)
    }

    fn printer(&self) -> Option<Printer> {
        self.facts.printer
    }

    fn char_array(&self, _: Global, types: &mut Types, count: u64) -> Result<u32, AllocError> {
        char_array(types, count)
    }

    fn qualified_array(
        &self,
        alloc: Global,
        types: &mut Types,
        part: Part,
        quals: Qualifiers,
    ) -> Result<Part, AllocError> {
        qualified(alloc, types, part, quals)
    }

    fn named_type(&self, _: Global, state: &mut State, name: &TypeName) -> Result<Part, Fault> {
        (self.named)(self.facts, self.tokens, state, self.room, name)
    }
}

/// The type that a type name names, where so many type names may nest, itself among them.
#[tactic(auto, using(crate::proofs::Rooms::no_room, crate::proofs::Rooms::one_room))]
pub fn named_type(
    facts: &Facts,
    tokens: &Tokens,
    state: &mut State,
    room: u32,
    name: &TypeName,
) -> Result<Part, Fault>
    ensures found { Passes (seen_state state.new) result
        ((around_at room (bare_here (plain_tokens tokens.now) facts.now)).named_type
        (seen_state state.old) name.now) }
    ensures grows { OnOk result (Grows state.old state.new) }
{
    if room == 0 {
        return obey(name.span.line, &[(Rule::BadSpecifiers, true)], part_of(0));
    }
    let around = Round {
        facts,
        tokens,
        room: room - 1,
        named: named_type,
    };
    let scene = Scene {
        facts,
        around: &around,
    };
    type_named(&scene, state, name)
}
