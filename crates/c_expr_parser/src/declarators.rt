//! Specifiers and declarators: what a type name, a member and a parameter consist of.

ghost use Rattle.std.specs.Prelude.{◌≡◌};
ghost use Rattle.c_parts.specs.Production as production;
ghost use Rattle.c_parts.specs.Production.{◌&◌, sign};
ghost use Rattle.c_parts.specs.declared.terminal.Terminal.TheVariants as terminal;
ghost use Rattle.c_syntax.specs.Grammar as spec;
ghost use Rattle.c_syntax.specs.Grammar.{inner};
ghost use Rattle.c_syntax.specs.Values as values;
ghost use Rattle.c_expr_parser.specs.Reads.{Reads};
ghost use Rattle.c_expr_parser.specs.Nests.{Nests};

use crate::grammar::Grammar;
use crate::nodes::{declarator, declare_name, is_type, is_typedef, keep, list_of};
use crate::opened::{Opened, What};
use crate::pointers::{pointer, pointers};
use crate::sets::{
    ABSTRACT_INSIDE, ANY_NAME, BASIC_WORDS, DECLARED_NAME, EXPRESSION_STARTS, MEMBERS,
    PARAMETER_CORE, PARAMETER_INSIDE, QUALIFIER_WORDS, SPECIFIED, SPECIFIERS, STORAGE_WORDS,
};
use c_cursor::{Cursor, Fault};
use c_parts::{Binding, Terminal};
use c_syntax::{
    Assertion, Core, Declarator, EnumConstant, Expr, Member, Parameter, Pointer, Qualifier,
    Specifier, SpecifierKind, Specifiers, Suffix, SuffixKind, TypeName, basic_of, function_of,
    qualifier_of, record_of, storage_of,
};
use sqlite_items::{Boxed, Items};
use std::alloc::Global;

/// A name at a declarator's core.
fn name_core(cursor: &mut Cursor<'_>, names: &[Terminal]) -> Result<Core, Fault>
    ensures { Reads (spec.named names.now) cursor.old result cursor.new }
{
    let start = cursor.start();
    let name = cursor.take(names)?.name;
    let span = cursor.span(start);
    Ok(Core::Name { span, name })
}

/// An expression that declares its value's name.
fn constant_name(cursor: &mut Cursor<'_>) -> Result<u32, Fault>
    ensures { Reads (production.token spec.any_name values.name_of) cursor.old result cursor.new }
{
    Ok(cursor.take(&ANY_NAME)?.name)
}

impl<F: Fn(Global, &mut Cursor<'_>, u32, What) -> Result<Opened, Fault>> Grammar<F> {
    pub fn assertion(&self, cursor: &mut Cursor<'_>) -> Result<Assertion, Fault>
        requires { Nests self.now.room (F.pre self.now.inner) (F.post self.now.inner) }
        ensures { Reads (spec.assertion (inner self.now.room)) cursor.old result cursor.new }
    {
        let start = cursor.start();
        cursor.sign(Terminal::StaticAssert)?;
        let (condition, text) = self.assertion_parts(cursor)?;
        cursor.sign(Terminal::Semicolon)?;
        let span = cursor.span(start);
        Ok(Assertion {
            span,
            condition,
            text,
        })
    }

    /// A tag and members, of which one may be missing.
    fn record_body(
        &self,
        cursor: &mut Cursor<'_>,
    ) -> Result<(Option<u32>, Option<Items<Member>>), Fault>
        requires { Nests self.now.room (F.pre self.now.inner) (F.post self.now.inner) }
        ensures { Reads (spec.record_body (inner self.now.room)) cursor.old result cursor.new }
    {
        if !cursor.next_is(&ANY_NAME) {
            return Ok((None, Some(self.members(cursor)?)));
        }
        let tag = constant_name(cursor)?;
        let members = self.optional_members(cursor)?;
        Ok((Some(tag), members))
    }

    fn optional_members(&self, cursor: &mut Cursor<'_>) -> Result<Option<Items<Member>>, Fault>
        requires { Nests self.now.room (F.pre self.now.inner) (F.post self.now.inner) }
        ensures { Reads (spec.optional_members (inner self.now.room)) cursor.old result cursor.new }
    {
        if cursor.next_is(&[Terminal::LeftBrace]) {
            Ok(Some(self.members(cursor)?))
        } else {
            Ok(None)
        }
    }

    fn record_type(&self, cursor: &mut Cursor<'_>) -> Result<SpecifierKind, Fault>
        requires { Nests self.now.room (F.pre self.now.inner) (F.post self.now.inner) }
        ensures { Reads (spec.record_type (inner self.now.room)) cursor.old result cursor.new }
    {
        let kind = record_of(cursor.take(&[Terminal::Struct, Terminal::Union])?.terminal);
        let (tag, members) = self.record_body(cursor)?;
        Ok(SpecifierKind::Record { kind, tag, members })
    }

    /// A tag and constants, of which one may be missing.
    fn enum_body(
        &self,
        cursor: &mut Cursor<'_>,
    ) -> Result<(Option<u32>, Option<Items<EnumConstant>>), Fault>
        requires { Nests self.now.room (F.pre self.now.inner) (F.post self.now.inner) }
        ensures { Reads (spec.enum_body (inner self.now.room)) cursor.old result cursor.new }
    {
        if !cursor.next_is(&ANY_NAME) {
            return Ok((None, Some(self.constants(cursor)?)));
        }
        let tag = constant_name(cursor)?;
        let constants = self.optional_constants(cursor)?;
        Ok((Some(tag), constants))
    }

    fn optional_constants(
        &self,
        cursor: &mut Cursor<'_>,
    ) -> Result<Option<Items<EnumConstant>>, Fault>
        requires { Nests self.now.room (F.pre self.now.inner) (F.post self.now.inner) }
        ensures { Reads (spec.optional_constants (inner self.now.room))
            cursor.old result cursor.new }
    {
        if cursor.next_is(&[Terminal::LeftBrace]) {
            Ok(Some(self.constants(cursor)?))
        } else {
            Ok(None)
        }
    }

    fn enum_type(&self, cursor: &mut Cursor<'_>) -> Result<SpecifierKind, Fault>
        requires { Nests self.now.room (F.pre self.now.inner) (F.post self.now.inner) }
        ensures { Reads (spec.enum_type (inner self.now.room)) cursor.old result cursor.new }
    {
        cursor.sign(Terminal::Enum)?;
        let (tag, constants) = self.enum_body(cursor)?;
        Ok(SpecifierKind::Enum { tag, constants })
    }

    /// `_Atomic`, with a type in parentheses or alone.
    fn atomic(&self, cursor: &mut Cursor<'_>) -> Result<SpecifierKind, Fault>
        requires { Nests self.now.room (F.pre self.now.inner) (F.post self.now.inner) }
        ensures { Reads (spec.atomic_type (inner self.now.room)) cursor.old result cursor.new }
    {
        cursor.sign(Terminal::Atomic)?;
        if cursor.next_is(&[Terminal::AtomicParen]) {
            let ty = self.atomic_parens(cursor)?;
            Ok(SpecifierKind::Atomic(Boxed::new(self.alloc, ty)?))
        } else {
            Ok(SpecifierKind::Qualifier(Qualifier::Atomic))
        }
    }

    fn specifier_kind(&self, cursor: &mut Cursor<'_>) -> Result<SpecifierKind, Fault>
        requires { Nests self.now.room (F.pre self.now.inner) (F.post self.now.inner) }
        ensures { Reads (spec.specifier_kind (inner self.now.room)) cursor.old result cursor.new }
    {
        if cursor.next_is(&STORAGE_WORDS) {
            return Ok(SpecifierKind::Storage(storage_of(cursor.take(&STORAGE_WORDS)?.terminal)));
        }
        if cursor.next_is(&[Terminal::Inline, Terminal::NoReturn]) {
            return Ok(SpecifierKind::Function(function_of(
                cursor
                    .take(&[Terminal::Inline, Terminal::NoReturn])?
                    .terminal,
            )));
        }
        if cursor.next_is(&QUALIFIER_WORDS) {
            return Ok(SpecifierKind::Qualifier(qualifier_of(
                cursor.take(&QUALIFIER_WORDS)?.terminal,
            )));
        }
        if cursor.next_is(&BASIC_WORDS) {
            return Ok(SpecifierKind::Basic(basic_of(cursor.take(&BASIC_WORDS)?.terminal)));
        }
        if cursor.next_is(&[Terminal::TypedefName]) {
            return Ok(SpecifierKind::TypedefName(cursor.take(&[Terminal::TypedefName])?.name));
        }
        if cursor.next_is(&[Terminal::Atomic]) {
            return self.atomic(cursor);
        }
        if cursor.next_is(&[Terminal::Struct, Terminal::Union]) {
            return self.record_type(cursor);
        }
        self.enum_type(cursor)
    }

    fn specifier(&self, cursor: &mut Cursor<'_>) -> Result<Specifier, Fault>
        requires { Nests self.now.room (F.pre self.now.inner) (F.post self.now.inner) }
        ensures { Reads (spec.specifier (inner self.now.room)) cursor.old result cursor.new }
    {
        let start = cursor.start();
        let kind = self.specifier_kind(cursor)?;
        let span = cursor.span(start);
        cursor.specify(is_type(&kind), is_typedef(&kind));
        Ok(Specifier { span, kind })
    }

    /// Any number of specifiers.
    fn more_specifiers(&self, cursor: &mut Cursor<'_>) -> Result<Items<Specifier>, Fault>
        requires { Nests self.now.room (F.pre self.now.inner) (F.post self.now.inner) }
        ensures { Reads (production.many (spec.specifier (inner self.now.room)))
            cursor.old result cursor.new }
    {
        let mut list = Items::new(self.alloc);
        'list: for _turn in 0..cursor.remaining() {
            if !cursor.next_is(&SPECIFIERS) {
                return Ok(list);
            }
            let one = self.specifier(cursor)?;
            list.push(one)?;
        }
        Ok(list)
    }

    /// Specifiers, at least one.
    pub fn specifiers(&self, cursor: &mut Cursor<'_>) -> Result<Specifiers, Fault>
        requires { Nests self.now.room (F.pre self.now.inner) (F.post self.now.inner) }
        ensures { Reads (spec.specifiers (inner self.now.room)) cursor.old result cursor.new }
    {
        let start = cursor.start();
        let first = self.specifier(cursor)?;
        let more = self.more_specifiers(cursor)?;
        let span = cursor.span(start);
        let list = list_of(self.alloc, first, more)?;
        Ok(Specifiers { span, list })
    }

    /// `= value`, or nothing.
    fn optional_value(&self, cursor: &mut Cursor<'_>) -> Result<Option<Expr>, Fault>
        requires { Nests self.now.room (F.pre self.now.inner) (F.post self.now.inner) }
        ensures { Reads (spec.optional_value (inner self.now.room)) cursor.old result cursor.new }
    {
        if cursor.next_is(&[Terminal::Equal]) {
            cursor.sign(Terminal::Equal)?;
            Ok(Some(self.conditional(cursor)?))
        } else {
            Ok(None)
        }
    }

    /// A constant of an enumeration, which is in scope behind it.
    fn constant(&self, cursor: &mut Cursor<'_>) -> Result<EnumConstant, Fault>
        requires { Nests self.now.room (F.pre self.now.inner) (F.post self.now.inner) }
        ensures { Reads (spec.constant (inner self.now.room)) cursor.old result cursor.new }
    {
        let start = cursor.start();
        let name = constant_name(cursor)?;
        let value = self.optional_value(cursor)?;
        let span = cursor.span(start);
        cursor.declare(Binding {
            name,
            is_typedef: false,
        })?;
        Ok(EnumConstant { span, name, value })
    }

    fn suffix_kind(&self, cursor: &mut Cursor<'_>) -> Result<SuffixKind, Fault>
        requires { Nests self.now.room (F.pre self.now.inner) (F.post self.now.inner) }
        ensures { Reads (spec.suffix_kind (inner self.now.room)) cursor.old result cursor.new }
    {
        if cursor.next_is(&[Terminal::LeftBracket]) {
            return Ok(SuffixKind::Array(self.array(cursor)?));
        }
        let (parameters, scope) = self.function(cursor)?;
        Ok(SuffixKind::Function { parameters, scope })
    }

    fn suffix(&self, cursor: &mut Cursor<'_>) -> Result<Suffix, Fault>
        requires { Nests self.now.room (F.pre self.now.inner) (F.post self.now.inner) }
        ensures { Reads (spec.suffix_part (inner self.now.room)) cursor.old result cursor.new }
    {
        let start = cursor.start();
        let kind = self.suffix_kind(cursor)?;
        let span = cursor.span(start);
        Ok(Suffix { span, kind })
    }

    /// Any number of suffixes.
    fn suffixes(&self, cursor: &mut Cursor<'_>) -> Result<Items<Suffix>, Fault>
        requires { Nests self.now.room (F.pre self.now.inner) (F.post self.now.inner) }
        ensures { Reads (production.many (spec.suffix_part (inner self.now.room)))
            cursor.old result cursor.new }
    {
        let mut list = Items::new(self.alloc);
        'list: for _turn in 0..cursor.remaining() {
            if !cursor.next_is(&[Terminal::LeftBracket, Terminal::LeftParen]) {
                return Ok(list);
            }
            let one = self.suffix(cursor)?;
            list.push(one)?;
        }
        Ok(list)
    }

    fn declarator_core(&self, cursor: &mut Cursor<'_>) -> Result<Core, Fault>
        requires { Nests self.now.room (F.pre self.now.inner) (F.post self.now.inner) }
        ensures { Reads (spec.declarator_core (inner self.now.room)) cursor.old result cursor.new }
    {
        if cursor.next_is(&DECLARED_NAME) {
            return name_core(cursor, &DECLARED_NAME);
        }
        let inner = self.declarator_parens(cursor)?;
        Ok(Core::Parens(Boxed::new(self.alloc, inner)?))
    }

    pub fn declarator(&self, cursor: &mut Cursor<'_>) -> Result<Declarator, Fault>
        requires { Nests self.now.room (F.pre self.now.inner) (F.post self.now.inner) }
        ensures { Reads (spec.declarator (inner self.now.room)) cursor.old result cursor.new }
    {
        let start = cursor.start();
        let pointers = pointers(self.alloc, cursor)?;
        let core = self.declarator_core(cursor)?;
        let suffixes = self.suffixes(cursor)?;
        Ok(declarator(cursor.span(start), pointers, core, suffixes))
    }

    /// Suffixes, at least one, round nothing.
    fn some_suffixes(&self, cursor: &mut Cursor<'_>) -> Result<(Core, Items<Suffix>), Fault>
        requires { Nests self.now.room (F.pre self.now.inner) (F.post self.now.inner) }
        ensures { Reads (spec.some_suffixes (inner self.now.room)) cursor.old result cursor.new }
    {
        let first = self.suffix(cursor)?;
        let more = self.suffixes(cursor)?;
        Ok((Core::Nothing, list_of(self.alloc, first, more)?))
    }

    /// `( abstract )` and suffixes.
    fn round_abstract(&self, cursor: &mut Cursor<'_>) -> Result<(Core, Items<Suffix>), Fault>
        requires { Nests self.now.room (F.pre self.now.inner) (F.post self.now.inner) }
        ensures { Reads (spec.round_abstract (inner self.now.room)) cursor.old result cursor.new }
    {
        let inner = self.abstract_parens(cursor)?;
        let core = Core::Parens(Boxed::new(self.alloc, inner)?);
        let suffixes = self.suffixes(cursor)?;
        Ok((core, suffixes))
    }

    fn abstract_core(&self, cursor: &mut Cursor<'_>) -> Result<(Core, Items<Suffix>), Fault>
        requires { Nests self.now.room (F.pre self.now.inner) (F.post self.now.inner) }
        ensures { Reads (spec.abstract_core (inner self.now.room)) cursor.old result cursor.new }
    {
        if cursor.next_two_are(&[Terminal::LeftParen], &ABSTRACT_INSIDE) {
            self.round_abstract(cursor)
        } else {
            self.some_suffixes(cursor)
        }
    }

    fn abstract_tail(&self, cursor: &mut Cursor<'_>) -> Result<(Core, Items<Suffix>), Fault>
        requires { Nests self.now.room (F.pre self.now.inner) (F.post self.now.inner) }
        ensures { Reads (spec.abstract_tail (inner self.now.room)) cursor.old result cursor.new }
    {
        if cursor.next_is(&[Terminal::LeftBracket, Terminal::LeftParen]) {
            self.abstract_core(cursor)
        } else {
            Ok((Core::Nothing, Items::new(self.alloc)))
        }
    }

    pub fn abstract_declarator(&self, cursor: &mut Cursor<'_>) -> Result<Declarator, Fault>
        requires { Nests self.now.room (F.pre self.now.inner) (F.post self.now.inner) }
        ensures { Reads (spec.abstract (inner self.now.room)) cursor.old result cursor.new }
    {
        let start = cursor.start();
        let pointers = pointers(self.alloc, cursor)?;
        let (core, suffixes) = self.abstract_tail(cursor)?;
        Ok(declarator(cursor.span(start), pointers, core, suffixes))
    }

    fn some_abstract_parts(
        &self,
        cursor: &mut Cursor<'_>,
    ) -> Result<(Items<Pointer>, (Core, Items<Suffix>)), Fault>
        requires { Nests self.now.room (F.pre self.now.inner) (F.post self.now.inner) }
        ensures { Reads (spec.some_abstract_parts (inner self.now.room))
            cursor.old result cursor.new }
    {
        if !cursor.next_is(&[Terminal::Star]) {
            let tail = self.abstract_core(cursor)?;
            return Ok((Items::new(self.alloc), tail));
        }
        let first = pointer(self.alloc, cursor)?;
        let more = pointers(self.alloc, cursor)?;
        let tail = self.abstract_tail(cursor)?;
        Ok((list_of(self.alloc, first, more)?, tail))
    }

    /// An abstract declarator that isn't empty.
    pub fn some_abstract(&self, cursor: &mut Cursor<'_>) -> Result<Declarator, Fault>
        requires { Nests self.now.room (F.pre self.now.inner) (F.post self.now.inner) }
        ensures { Reads (spec.some_abstract (inner self.now.room)) cursor.old result cursor.new }
    {
        let start = cursor.start();
        let (pointers, (core, suffixes)) = self.some_abstract_parts(cursor)?;
        Ok(declarator(cursor.span(start), pointers, core, suffixes))
    }

    /// `( declarator or abstract )` and suffixes.
    fn round_parameter(&self, cursor: &mut Cursor<'_>) -> Result<(Core, Items<Suffix>), Fault>
        requires { Nests self.now.room (F.pre self.now.inner) (F.post self.now.inner) }
        ensures { Reads (spec.round_parameter (inner self.now.room)) cursor.old result cursor.new }
    {
        let inner = self.parameter_parens(cursor)?;
        let core = Core::Parens(Boxed::new(self.alloc, inner)?);
        let suffixes = self.suffixes(cursor)?;
        Ok((core, suffixes))
    }

    fn parameter_core(&self, cursor: &mut Cursor<'_>) -> Result<(Core, Items<Suffix>), Fault>
        requires { Nests self.now.room (F.pre self.now.inner) (F.post self.now.inner) }
        ensures { Reads (spec.parameter_core (inner self.now.room)) cursor.old result cursor.new }
    {
        if cursor.next_two_are(&[Terminal::LeftParen], &PARAMETER_INSIDE) {
            self.round_parameter(cursor)
        } else {
            self.some_suffixes(cursor)
        }
    }

    /// What a parameter has behind its pointers, with a name of these kinds or without.
    fn named_core(
        &self,
        cursor: &mut Cursor<'_>,
        names: &[Terminal],
    ) -> Result<(Core, Items<Suffix>), Fault>
        requires { Nests self.now.room (F.pre self.now.inner) (F.post self.now.inner) }
        ensures { Reads (spec.named_core names.now (inner self.now.room))
            cursor.old result cursor.new }
    {
        if !cursor.next_is(names) {
            return self.parameter_core(cursor);
        }
        let core = name_core(cursor, names)?;
        let suffixes = self.suffixes(cursor)?;
        Ok((core, suffixes))
    }

    fn parameter_tail(&self, cursor: &mut Cursor<'_>) -> Result<(Core, Items<Suffix>), Fault>
        requires { Nests self.now.room (F.pre self.now.inner) (F.post self.now.inner) }
        ensures { Reads (spec.parameter_tail (inner self.now.room)) cursor.old result cursor.new }
    {
        if cursor.next_is(&PARAMETER_CORE) {
            self.named_core(cursor, &DECLARED_NAME)
        } else {
            Ok((Core::Nothing, Items::new(self.alloc)))
        }
    }

    fn parameter_declarator(&self, cursor: &mut Cursor<'_>) -> Result<Declarator, Fault>
        requires { Nests self.now.room (F.pre self.now.inner) (F.post self.now.inner) }
        ensures { Reads (spec.parameter_declarator (inner self.now.room))
            cursor.old result cursor.new }
    {
        let start = cursor.start();
        let pointers = pointers(self.alloc, cursor)?;
        let (core, suffixes) = self.parameter_tail(cursor)?;
        Ok(declarator(cursor.span(start), pointers, core, suffixes))
    }

    fn inner_parameter_parts(
        &self,
        cursor: &mut Cursor<'_>,
    ) -> Result<(Items<Pointer>, (Core, Items<Suffix>)), Fault>
        requires { Nests self.now.room (F.pre self.now.inner) (F.post self.now.inner) }
        ensures { Reads (spec.inner_parameter_parts (inner self.now.room))
            cursor.old result cursor.new }
    {
        if !cursor.next_is(&[Terminal::Star]) {
            let tail = self.named_core(cursor, &[Terminal::Name])?;
            return Ok((Items::new(self.alloc), tail));
        }
        let first = pointer(self.alloc, cursor)?;
        let more = pointers(self.alloc, cursor)?;
        let tail = self.parameter_tail(cursor)?;
        Ok((list_of(self.alloc, first, more)?, tail))
    }

    /// A parameter's declarator in parentheses, abstract or not.
    pub fn inner_parameter(&self, cursor: &mut Cursor<'_>) -> Result<Declarator, Fault>
        requires { Nests self.now.room (F.pre self.now.inner) (F.post self.now.inner) }
        ensures { Reads (spec.inner_parameter (inner self.now.room)) cursor.old result cursor.new }
    {
        let start = cursor.start();
        let (pointers, (core, suffixes)) = self.inner_parameter_parts(cursor)?;
        Ok(declarator(cursor.span(start), pointers, core, suffixes))
    }

    /// Specifiers and a declarator, whose name is in scope behind it.
    fn parameter_parts(&self, cursor: &mut Cursor<'_>) -> Result<(Specifiers, Declarator), Fault>
        requires { Nests self.now.room (F.pre self.now.inner) (F.post self.now.inner) }
        ensures { Reads (spec.parameter_parts (inner self.now.room)) cursor.old result cursor.new }
    {
        let specifiers = self.specifiers(cursor)?;
        let declarator = self.parameter_declarator(cursor)?;
        declare_name(cursor, declarator.name)?;
        Ok((specifiers, declarator))
    }

    fn parameter(&self, cursor: &mut Cursor<'_>) -> Result<Parameter, Fault>
        requires { Nests self.now.room (F.pre self.now.inner) (F.post self.now.inner) }
        ensures { Reads (spec.parameter (inner self.now.room)) cursor.old result cursor.new }
    {
        let start = cursor.start();
        let before = cursor.begin_specifiers();
        let (specifiers, declarator) = self.parameter_parts(cursor)?;
        cursor.end_specifiers(before);
        let span = cursor.span(start);
        Ok(Parameter {
            span,
            specifiers,
            declarator,
        })
    }

    fn next_parameter(&self, cursor: &mut Cursor<'_>) -> Result<Parameter, Fault>
        requires { Nests self.now.room (F.pre self.now.inner) (F.post self.now.inner) }
        ensures { Reads (spec.comma_and (spec.parameter (inner self.now.room)))
            cursor.old result cursor.new }
    {
        cursor.sign(Terminal::Comma)?;
        self.parameter(cursor)
    }

    /// `, parameter`, any number.
    fn more_parameters(&self, cursor: &mut Cursor<'_>) -> Result<Items<Parameter>, Fault>
        requires { Nests self.now.room (F.pre self.now.inner) (F.post self.now.inner) }
        ensures { Reads (spec.commas (spec.parameter (inner self.now.room)))
            cursor.old result cursor.new }
    {
        let mut more = Items::new(self.alloc);
        'more: for _turn in 0..cursor.remaining() {
            if !cursor.next_is(&[Terminal::Comma]) {
                return Ok(more);
            }
            let one = self.next_parameter(cursor)?;
            more.push(one)?;
        }
        Ok(more)
    }

    fn parameters(&self, cursor: &mut Cursor<'_>) -> Result<Items<Parameter>, Fault>
        requires { Nests self.now.room (F.pre self.now.inner) (F.post self.now.inner) }
        ensures { Reads (spec.parameters (inner self.now.room)) cursor.old result cursor.new }
    {
        let first = self.parameter(cursor)?;
        let more = self.more_parameters(cursor)?;
        Ok(list_of(self.alloc, first, more)?)
    }

    fn typename_parts(&self, cursor: &mut Cursor<'_>) -> Result<(Specifiers, Declarator), Fault>
        requires { Nests self.now.room (F.pre self.now.inner) (F.post self.now.inner) }
        ensures { Reads (spec.specifiers (inner self.now.room)
            & spec.abstract (inner self.now.room))
            cursor.old result cursor.new }
    {
        let specifiers = self.specifiers(cursor)?;
        let declarator = self.abstract_declarator(cursor)?;
        Ok((specifiers, declarator))
    }

    /// Specifiers and an abstract declarator.
    pub fn typename(&self, cursor: &mut Cursor<'_>) -> Result<TypeName, Fault>
        requires { Nests self.now.room (F.pre self.now.inner) (F.post self.now.inner) }
        ensures { Reads (spec.typename (inner self.now.room)) cursor.old result cursor.new }
    {
        let start = cursor.start();
        let before = cursor.begin_specifiers();
        let (specifiers, declarator) = self.typename_parts(cursor)?;
        cursor.end_specifiers(before);
        let span = cursor.span(start);
        Ok(TypeName {
            span,
            specifiers,
            declarator,
        })
    }

    fn next_declarator(&self, cursor: &mut Cursor<'_>) -> Result<Declarator, Fault>
        requires { Nests self.now.room (F.pre self.now.inner) (F.post self.now.inner) }
        ensures { Reads (spec.comma_and (spec.declarator (inner self.now.room)))
            cursor.old result cursor.new }
    {
        cursor.sign(Terminal::Comma)?;
        self.declarator(cursor)
    }

    /// `, declarator`, any number.
    fn more_declarators(&self, cursor: &mut Cursor<'_>) -> Result<Items<Declarator>, Fault>
        requires { Nests self.now.room (F.pre self.now.inner) (F.post self.now.inner) }
        ensures { Reads (spec.commas (spec.declarator (inner self.now.room)))
            cursor.old result cursor.new }
    {
        let mut more = Items::new(self.alloc);
        'more: for _turn in 0..cursor.remaining() {
            if !cursor.next_is(&[Terminal::Comma]) {
                return Ok(more);
            }
            let one = self.next_declarator(cursor)?;
            more.push(one)?;
        }
        Ok(more)
    }

    /// The declarators of a member, at least one.
    fn member_declarators(&self, cursor: &mut Cursor<'_>) -> Result<Items<Declarator>, Fault>
        requires { Nests self.now.room (F.pre self.now.inner) (F.post self.now.inner) }
        ensures { Reads (spec.member_declarators (inner self.now.room))
            cursor.old result cursor.new }
    {
        let first = self.declarator(cursor)?;
        let more = self.more_declarators(cursor)?;
        Ok(list_of(self.alloc, first, more)?)
    }

    fn member_parts(
        &self,
        cursor: &mut Cursor<'_>,
    ) -> Result<(Specifiers, (Items<Declarator>, ())), Fault>
        requires { Nests self.now.room (F.pre self.now.inner) (F.post self.now.inner) }
        ensures { Reads (spec.specifiers (inner self.now.room)
            & (spec.member_declarators (inner self.now.room) & sign terminal.Semicolon))
            cursor.old result cursor.new }
    {
        let specifiers = self.specifiers(cursor)?;
        let declarators = self.member_declarators(cursor)?;
        cursor.sign(Terminal::Semicolon)?;
        Ok((specifiers, (declarators, ())))
    }

    fn declaring_member(&self, cursor: &mut Cursor<'_>) -> Result<Member, Fault>
        requires { Nests self.now.room (F.pre self.now.inner) (F.post self.now.inner) }
        ensures { Reads (spec.declaring_member (inner self.now.room)) cursor.old result cursor.new }
    {
        let start = cursor.start();
        let before = cursor.begin_specifiers();
        let (specifiers, (declarators, ())) = self.member_parts(cursor)?;
        cursor.end_specifiers(before);
        let span = cursor.span(start);
        Ok(Member::Declares {
            span,
            specifiers,
            declarators,
        })
    }

    fn member(&self, cursor: &mut Cursor<'_>) -> Result<Member, Fault>
        requires { Nests self.now.room (F.pre self.now.inner) (F.post self.now.inner) }
        ensures { Reads (spec.member (inner self.now.room)) cursor.old result cursor.new }
    {
        if cursor.next_is(&SPECIFIED) {
            return self.declaring_member(cursor);
        }
        Ok(Member::Asserts(self.assertion(cursor)?))
    }

    /// Any number of members.
    fn more_members(&self, cursor: &mut Cursor<'_>) -> Result<Items<Member>, Fault>
        requires { Nests self.now.room (F.pre self.now.inner) (F.post self.now.inner) }
        ensures { Reads (production.many (spec.member (inner self.now.room)))
            cursor.old result cursor.new }
    {
        let mut more = Items::new(self.alloc);
        'more: for _turn in 0..cursor.remaining() {
            if !cursor.next_is(&MEMBERS) {
                return Ok(more);
            }
            let one = self.member(cursor)?;
            more.push(one)?;
        }
        Ok(more)
    }

    fn optional_constant(&self, cursor: &mut Cursor<'_>) -> Result<Option<EnumConstant>, Fault>
        requires { Nests self.now.room (F.pre self.now.inner) (F.post self.now.inner) }
        ensures { Reads (spec.optional_constant (inner self.now.room))
            cursor.old result cursor.new }
    {
        if cursor.next_is(&ANY_NAME) {
            Ok(Some(self.constant(cursor)?))
        } else {
            Ok(None)
        }
    }

    fn next_constant(&self, cursor: &mut Cursor<'_>) -> Result<Option<EnumConstant>, Fault>
        requires { Nests self.now.room (F.pre self.now.inner) (F.post self.now.inner) }
        ensures { Reads (spec.comma_and (spec.optional_constant (inner self.now.room)))
            cursor.old result cursor.new }
    {
        cursor.sign(Terminal::Comma)?;
        self.optional_constant(cursor)
    }

    /// `, constant` or `,`, any number; a comma behind a comma is none.
    fn more_constants(&self, cursor: &mut Cursor<'_>) -> Result<Items<EnumConstant>, Fault>
        requires { Nests self.now.room (F.pre self.now.inner) (F.post self.now.inner) }
        ensures { Reads (spec.more_constants (inner self.now.room)) cursor.old result cursor.new }
    {
        let mut more = Items::new(self.alloc);
        'more: for _turn in 0..cursor.remaining() {
            if !cursor.next_is(&[Terminal::Comma]) {
                return Ok(more);
            }
            let one = self.next_constant(cursor)?;
            keep(&mut more, one)?;
        }
        Ok(more)
    }

    /// Members, at least one.
    pub fn some_members(&self, cursor: &mut Cursor<'_>) -> Result<Items<Member>, Fault>
        requires { Nests self.now.room (F.pre self.now.inner) (F.post self.now.inner) }
        ensures { Reads (spec.some_members (inner self.now.room)) cursor.old result cursor.new }
    {
        let first = self.member(cursor)?;
        let more = self.more_members(cursor)?;
        Ok(list_of(self.alloc, first, more)?)
    }

    /// Constants, at least one.
    pub fn some_constants(&self, cursor: &mut Cursor<'_>) -> Result<Items<EnumConstant>, Fault>
        requires { Nests self.now.room (F.pre self.now.inner) (F.post self.now.inner) }
        ensures { Reads (spec.some_constants (inner self.now.room)) cursor.old result cursor.new }
    {
        let first = self.constant(cursor)?;
        let more = self.more_constants(cursor)?;
        Ok(list_of(self.alloc, first, more)?)
    }

    /// An array's size, which may be missing.
    pub fn optional_size(&self, cursor: &mut Cursor<'_>) -> Result<Option<Expr>, Fault>
        requires { Nests self.now.room (F.pre self.now.inner) (F.post self.now.inner) }
        ensures { Reads (spec.optional_size (inner self.now.room)) cursor.old result cursor.new }
    {
        if cursor.next_is(&EXPRESSION_STARTS) {
            Ok(Some(self.conditional(cursor)?))
        } else {
            Ok(None)
        }
    }

    /// Parameters, or none.
    fn optional_parameters(&self, cursor: &mut Cursor<'_>) -> Result<Items<Parameter>, Fault>
        requires { Nests self.now.room (F.pre self.now.inner) (F.post self.now.inner) }
        ensures { Reads (spec.optional_parameters (inner self.now.room))
            cursor.old result cursor.new }
    {
        if cursor.next_is(&SPECIFIED) {
            self.parameters(cursor)
        } else {
            Ok(Items::new(self.alloc))
        }
    }

    /// Parameters, or none, in a scope of their own, with what they declare.
    pub fn collected_parameters(
        &self,
        cursor: &mut Cursor<'_>,
    ) -> Result<(Items<Parameter>, Items<Binding>), Fault>
        requires { Nests self.now.room (F.pre self.now.inner) (F.post self.now.inner) }
        ensures { Reads (spec.collected_parameters (inner self.now.room))
            cursor.old result cursor.new }
    {
        cursor.enter()?;
        let parameters = self.optional_parameters(cursor)?;
        let scope = cursor.close(self.alloc)?;
        Ok((parameters, scope))
    }
}
