//! Laws of typed expressions: the contracts of functions that do nothing.

ghost use Rattle.c_expr_rules.specs.Laws.{ConversionsChangeTypes, ConversionsGiveTypes, OperandsHaveOneType};

/// Two operands have one type, whatever their order, and it is one in which operations are computed.
pub fn operands_have_one_type()
    ensures { OperandsHaveOneType }
{}

/// What is converted to an integer type has that type.
pub fn conversions_give_types()
    ensures { ConversionsGiveTypes }
{}

/// Where a conversion leaves the kind of a value, its tree stays.
pub fn conversions_change_types()
    ensures { ConversionsChangeTypes }
{}
