//! The size and the alignment of a type.

ghost use Rattle.std.specs.Prelude.{◌≡◌, IsTrue};
ghost use Rattle.c_types.specs.Sizes.{size_of_type, align_of_type, room_of, room_of_array, room_in};
ghost use Rattle.c_types.specs.Extents.{is_align};

use crate::ctype::{Array, CType, Extent, MOST_OBJECT_BYTES, TypeFault};

/// The size of a type in bytes.
pub fn size_of(ty: &CType) -> Result<u64, TypeFault>
    ensures { result ≡ size_of_type ty.now }
{
    Ok(extent_of(ty)?.size)
}

/// The alignment of a type in bytes.
pub fn align_of(ty: &CType) -> Result<u64, TypeFault>
    ensures { result ≡ align_of_type ty.now }
{
    Ok(extent_of(ty)?.align)
}

/// The size and the alignment of a type.
pub fn extent_of(ty: &CType) -> Result<Extent, TypeFault>
    ensures { room_in result ≡ room_of ty.now }
{
    match *ty {
        CType::Void | CType::Function(_) => Err(TypeFault::Incomplete),
        CType::Integer(named) => Ok(scalar(u64::from(named.int_type().bytes()))),
        CType::Enumeration(_) => Ok(scalar(4)),
        CType::Pointer(_) => Ok(scalar(8)),
        CType::ArrayOf(array) => extent_of_array(array),
        CType::Structure(_, contents) | CType::Union(_, contents) => {
            contents.ok_or(TypeFault::Incomplete)
        }
    }
}

/// A scalar is aligned to its size.
fn scalar(bytes: u64) -> Extent
    requires { IsTrue (is_align bytes) }
    ensures size { result.size ≡ bytes }
    ensures align { result.align ≡ bytes }
{
    Extent {
        size: bytes,
        align: bytes,
    }
}

fn extent_of_array(array: Array) -> Result<Extent, TypeFault>
    ensures { room_in result ≡ room_of_array array }
{
    let Extent { size, align } = array.extent;
    if array.count > MOST_OBJECT_BYTES / size {
        return Err(TypeFault::TooLarge);
    }
    Ok(Extent {
        size: array.count * size,
        align,
    })
}
