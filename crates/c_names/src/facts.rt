//! What is told of a file beside its tree and its tokens: which functions have bodies, and what only its end tells.

ghost use Rattle.std.specs.Prelude.{◌≡◌, [], ◌∷◌, ◌++◌, IfOk, OnOk, None};
ghost use Rattle.std.specs.List.{filter_map};
ghost use Rattle.c_names.specs.Code.{kind_by, is_library_in};
ghost use Rattle.c_file_rules.specs.Files as files;
ghost use Rattle.c_file_rules.specs.Files.{body_name};

use c_expr_rules::Printer;
use c_file_rules::Numbering;
use c_syntax::{External, File};
use std::alloc::{AllocError, Global};

/// How the types of functions are numbered: by their own numbers, or by a list in which each first stands.
#[derive(Drop)]
pub enum Kinds {
    Own,
    Listed(Numbering),
}

/// What is told of a file beside its tree and its tokens.
#[derive(Drop)]
pub struct Facts {
    pub alloc: Global,
    /// The names of the functions with bodies, in their order.
    pub bodies: Numbering,
    pub kinds: Kinds,
    /// Of each token whether it comes from a header of the library.
    pub library: Vec<bool>,
    /// What `printf` stands for, where it is declared by now.
    pub printer: Option<Printer>,
}

/// The name of a function with a body.
fn body_name(item: &External) -> Option<u32>
    ensures { result ≡ body_name item.now }
{
    match item {
        External::Function(function) => function.declarator.name,
        External::Declaration(_) | External::Assertion(_) => None,
    }
}

/// The names of the functions with bodies.
fn bodies_of(alloc: Global, file: &File) -> Result<Numbering, AllocError>
    ensures { IfOk result (λ bodies. bodies ≡ files.bodies_of file.now) }
{
    let mut bodies = Numbering::new(alloc);
    'items: for item in file.items.as_slice() {
        add_body(&mut bodies, item)?;
    }
    Ok(bodies)
}

/// Adds the name of a function with a body.
fn add_body(bodies: &mut Numbering, item: &External) -> Result<(), AllocError>
    ensures { OnOk result
        (bodies.new ≡ bodies.old ++ filter_map body_name (item.now ∷ [])) }
{
    match body_name(item) {
        None => Ok(()),
        Some(name) => bodies.push(name),
    }
}

/// What is told of a file whose types of functions are numbered so, at its begin.
pub fn facts_of(
    alloc: Global,
    file: &File,
    library: Vec<bool>,
    kinds: Kinds,
) -> Result<Facts, AllocError>
    ensures bodies { IfOk result (λ facts. facts.bodies ≡ files.bodies_of file.now) }
    ensures library { IfOk result (λ facts. facts.library.items ≡ library.items) }
    ensures kinds { IfOk result (λ facts. facts.kinds ≡ kinds) }
    ensures printer { IfOk result (λ facts. facts.printer ≡ None) }
{
    Ok(Facts {
        alloc,
        bodies: bodies_of(alloc, file)?,
        kinds,
        library,
        printer: None,
    })
}

impl Kinds {
    /// The number of a function's type among those of functions.
    pub fn number_of(&self, ty: u32) -> u32
        ensures { result ≡ kind_by self.now ty }
    {
        match self {
            Kinds::Own => ty,
            Kinds::Listed(list) => list.number_of(ty),
        }
    }
}

impl Facts {
    /// Whether a token comes from a header of the library.
    pub fn is_library(&self, token: u32) -> bool
        ensures { result ≡ is_library_in self.now token }
    {
        match self.library.get(token as usize) {
            None => false,
            Some(is_library) => *is_library,
        }
    }
}
