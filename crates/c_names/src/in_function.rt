//! What is round the expressions of a function: some of its locals have homes.

use c_expr_rules::{Fault, Printer, State, Surroundings};
use c_file_rules::Homes;
use c_syntax::TypeName;
use c_tree::Operation;
use c_types::{Part, Qualifiers, Types};
use filc_num::CIntType;
use sqlite_items::Items;
use std::alloc::{AllocError, Global};

/// What is round the expressions of a function whose locals with a home are these.
#[derive(Drop)]
pub struct InFunction<'a, S> {
    pub outside: &'a S,
    pub homes: &'a Homes,
}

impl<S: Surroundings> Surroundings for InFunction<'_, S> {
    ghost use Rattle.c_names.specs.Around.{with_homes};

    ghost told = { λ f. with_homes f.homes.now (S.told f.outside.now) };

    ghost fit = { λ f. S.fit f.outside.now };

    fn number(&self, token: u32) -> (CIntType, u64) {
        self.outside.number(token)
    }

    fn character(&self, token: u32) -> u64 {
        self.outside.character(token)
    }

    fn text(&self, alloc: Global, first: u32, last: u32) -> Result<Items<u8>, AllocError> {
        self.outside.text(alloc, first, last)
    }

    fn spelling(&self, name: u32) -> &[u8] {
        self.outside.spelling(name)
    }

    fn has_home(&self, local: u32) -> bool {
        self.homes.has(local)
    }

    fn kind_of(&self, ty: u32) -> u32 {
        self.outside.kind_of(ty)
    }

    fn intrinsic(&self, function: u32) -> Option<Operation> {
        self.outside.intrinsic(function)
    }

    fn printer(&self) -> Option<Printer> {
        self.outside.printer()
    }

    fn char_array(&self, alloc: Global, types: &mut Types, count: u64) -> Result<u32, AllocError> {
        self.outside.char_array(alloc, types, count)
    }

    fn qualified_array(
        &self,
        alloc: Global,
        types: &mut Types,
        part: Part,
        quals: Qualifiers,
    ) -> Result<Part, AllocError> {
        self.outside.qualified_array(alloc, types, part, quals)
    }

    fn named_type(&self, alloc: Global, state: &mut State, name: &TypeName) -> Result<Part, Fault> {
        self.outside.named_type(alloc, state, name)
    }
}
