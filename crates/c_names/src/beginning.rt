//! The state before a file: the types and the names of the functions that are one operation each.

ghost use Rattle.std.specs.Prelude.{◌≡◌, [], ◌∷◌, map, None, IfOk, OnOk};
ghost use Rattle.c_scope.specs.Blocks.{visible, declared_in, innermost};
ghost use Rattle.c_scope.specs.Scopes.{no_names};
ghost use Rattle.c_expr_rules.specs.Views.{seen_state};
ghost use Rattle.c_names.specs.Begun.{a_pointer, seen_written, seen_intrinsic};
ghost use Rattle.c_file_rules.specs.Operations as operations;
ghost use Rattle.c_file_rules.specs.Operations.{function_type, written_type, written_types, with_intrinsic, start_of};
ghost use Rattle.c_file_rules.specs.Files.{start_state};
ghost use Rattle.c_types.specs.Extensions.{derived};

use crate::making::{derived, parameter_list, with_type};
use crate::operations::{Intrinsic, Written, intrinsics};
use bitflags::Flags;
use c_expr_rules::State;
use c_scope::{Scopes, Space};
use c_tree::{Declared, DeclaredFunction, Linkage};
use c_types::{CType, Derivation, Part, Qualifiers, Types};
use filc_num::CIntType;
use std::alloc::{AllocError, Global};
use std::collections::BTreeMap;

/// A function from these types to a result.
fn function_type(types: &mut Types, gives: Part, takes: &[u32]) -> Result<Part, AllocError>
    ensures grown { OnOk result (types.new ≡ (function_type types.old gives takes.now).0) }
    ensures gives { IfOk result (λ made. made ≡ (function_type types.old gives takes.now).1) }
{
    let parameters = parameter_list(types, takes)?;
    let derivation = Derivation::Function {
        parameters,
        more: false,
    };
    derived(types, gives, &[derivation])
}

/// A pointer to a type.
fn pointer_to(types: &mut Types, to: Part) -> Result<Part, AllocError>
    ensures grown { OnOk result (types.new ≡ (derived types.old to (a_pointer ∷ [])).0) }
    ensures gives { IfOk result (λ made. made ≡ (derived types.old to (a_pointer ∷ [])).1) }
{
    derived(types, to, &[Derivation::Pointer(Qualifiers::empty())])
}

/// `void *`
fn object_type(types: &mut Types) -> Result<Part, AllocError>
    ensures grown { OnOk result
        (types.new ≡ (written_type types.old (seen_written Written.Object)).0) }
    ensures gives { IfOk result (λ made.
        made ≡ (written_type types.old (seen_written Written.Object)).1) }
{
    let void = with_type(types, CType::Void)?;
    pointer_to(types, void)
}

/// A type as it is written.
fn written_type(types: &mut Types, written: Written) -> Result<Part, AllocError>
    ensures grown { OnOk result
        (types.new ≡ (written_type types.old (seen_written written)).0) }
    ensures gives { IfOk result (λ made.
        made ≡ (written_type types.old (seen_written written)).1) }
{
    match written {
        Written::Void => with_type(types, CType::Void),
        Written::Kind(kind) => with_type(types, CType::Integer(kind)),
        Written::Object => object_type(types),
        Written::Lock => {
            let int = with_type(types, CType::Integer(CIntType::Int))?;
            let atomic = Part {
                number: int.number,
                qualifiers: Qualifiers::ATOMIC,
            };
            pointer_to(types, atomic)
        }
        Written::Thread => {
            let int = with_type(types, CType::Integer(CIntType::Int))?;
            let object = object_type(types)?;
            let function = function_type(types, int, &[object.number])?;
            pointer_to(types, function)
        }
    }
}

/// The numbers of types as they are written.
fn written_types(
    alloc: Global,
    types: &mut Types,
    written: &[Written],
) -> Result<Vec<u32>, AllocError>
    ensures grown { OnOk result
        (types.new ≡ (written_types types.old (map seen_written written.now)).0) }
    ensures gives { IfOk result (λ numbers.
        numbers.items ≡ (written_types types.old (map seen_written written.now)).1) }
{
    let mut numbers = Vec::new(alloc);
    'types: for one in written {
        let made = written_type(types, *one)?;
        numbers.push(made.number)?;
    }
    Ok(numbers)
}

/// Declares a function that is one operation, by this number, where its name isn't declared.
fn add_intrinsic(
    alloc: Global,
    types: &mut Types,
    scopes: &mut Scopes,
    number: u32,
    row: &Intrinsic,
) -> Result<(), AllocError>
    requires linked { visible row.now.name.now scopes.old.linked ≡ None }
    requires here { declared_in row.now.name.now (innermost scopes.old.ordinary) ≡ None }
    ensures grown { OnOk result (types.new
        ≡ (with_intrinsic number (seen_intrinsic row.now) (types.old, scopes.old)).0) }
    ensures names { OnOk result (scopes.new
        ≡ (with_intrinsic number (seen_intrinsic row.now) (types.old, scopes.old)).1) }
{
    let gives = written_type(types, row.gives)?;
    let takes = written_types(alloc, types, row.takes)?;
    let function = function_type(types, gives, takes.as_slice())?;
    let what = Declared::Function(DeclaredFunction {
        line: 0,
        ty: function.number,
        number,
        linkage: Linkage::External,
        is_defined: true,
    });
    match scopes.declare(Space::Ordinary, row.name, what) {
        Ok(()) => Ok(()),
        Err(_) => Err(AllocError),
    }
}

/// Declares the functions that are one operation each, where so many functions have bodies.
fn add_intrinsics(
    alloc: Global,
    bodies: u32,
    types: &mut Types,
    scopes: &mut Scopes,
) -> Result<(), AllocError>
    requires types { types.old ≡ [] }
    requires names { scopes.old ≡ no_names }
    ensures grown { OnOk result (types.new ≡ (start_of bodies).0) }
    ensures names { OnOk result (scopes.new ≡ (start_of bodies).1) }
{
    let rows = intrinsics();
    let mut number = bodies;
    'rows: for row in &rows {
        add_intrinsic(alloc, types, scopes, number, row)?;
        number = number.checked_add(1).ok_or(AllocError)?;
    }
    Ok(())
}

/// The state before a file, where so many functions have bodies.
pub fn start(alloc: Global, bodies: u32) -> Result<State, AllocError>
    ensures { IfOk result (λ state. seen_state state ≡ start_state bodies) }
{
    let mut types = Types::new(alloc);
    let mut scopes = Scopes::new(alloc)?;
    add_intrinsics(alloc, bodies, &mut types, &mut scopes)?;
    Ok(State {
        scopes,
        types,
        contents: BTreeMap::new(alloc),
        next_static: 0,
        literals: Vec::new(alloc),
        used: Vec::new(alloc),
        taken: Vec::new(alloc),
        next_local: 0,
        locals: Vec::new(alloc),
        placed: Vec::new(alloc),
        filled: Vec::new(alloc),
    })
}

/// The number of the type of what a thread begins with. It stands in the table.
pub fn thread_type(types: &mut Types) -> Result<u32, AllocError>
    ensures { IfOk result (λ number.
        number ≡ operations.thread_type types.old) }
{
    let int = with_type(types, CType::Integer(CIntType::Int))?;
    let object = object_type(types)?;
    let function = function_type(types, int, &[object.number])?;
    Ok(function.number)
}
