//! A law of scopes: the contract of a function that does nothing.

ghost use Rattle.c_scope.specs.OneThing.{NamesWithLinkageAreOneThing};

/// The declarations of a name with linkage are of one thing in all scopes: of one type and one linkage.
pub fn names_with_linkage_are_one_thing()
    ensures { NamesWithLinkageAreOneThing }
{}
