//! Laws of the map. They are the contract of a function that does nothing.
ghost use Rattle.object_header.specs.MapLaws.{MapLaws};

/// The parts of a map are disjoint and cover it, a set word is a set part, the places of an
/// object's words need no map, and a word's half lies apart from the object.
pub fn map_laws()
    ensures { MapLaws }
{}
