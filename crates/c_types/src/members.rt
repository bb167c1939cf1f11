//! Laying out members.

ghost use Rattle.std.specs.Prelude.{◌≡◌, ◌<◌, ◌≤◌, length, IfOk, MatchResult, IsTrue};
ghost use Rattle.c_types.specs.Extents.{is_align};
ghost use Rattle.c_types.specs.Sizes.{room_of};
ghost use Rattle.c_types.specs.Layouts.{layout_of, placement_of};
ghost use Rattle.c_types.specs.LayoutResults.{IsLaidOut, HasFault};
ghost use Rattle.c_types.specs.Placements.{placement_in};

use crate::ctype::{CType, MOST_OBJECT_BYTES, TypeFault};
use crate::layouts::{Form, Layout, LayoutFault};
use crate::sizes::extent_of;
use std::alloc::Global;

/// Lays out the members of a structure, in order.
pub fn layout(alloc: Global, members: &[CType]) -> Result<Layout, LayoutFault>
    requires { 0 < length members.now }
    ensures { MatchResult result (IsLaidOut (layout_of Form.Structure members.now))
        (HasFault (layout_of Form.Structure members.now)) }
{
    lay_out(alloc, Form::Structure, members)
}

/// Lays out the members of a union, which all lie at 0.
pub fn union_layout(alloc: Global, members: &[CType]) -> Result<Layout, LayoutFault>
    requires { 0 < length members.now }
    ensures { MatchResult result (IsLaidOut (layout_of Form.Union members.now))
        (HasFault (layout_of Form.Union members.now)) }
{
    lay_out(alloc, Form::Union, members)
}

/// Where a member lies, the byte after all members so far, and their greatest alignment.
#[derive(Clone, Copy)]
struct Placement {
    offset: u64,
    end: u64,
    align: u64,
}

/// Finds where a member lies after others.
fn place_member(form: Form, member: &CType, end: u64, align: u64) -> Result<Placement, TypeFault>
    requires within { end ≤ 131072 }
    requires aligned { IsTrue (is_align align) }
    ensures placement { placement_in result ≡ placement_of form end align (room_of member.now) }
    ensures within { IfOk result (λ p. (0 < p.end) × (p.end ≤ 131072)) }
    ensures aligned { IfOk result (λ p. IsTrue (is_align p.align)) }
{
    let room = extent_of(member)?;
    let offset = match form {
        Form::Structure => end.next_multiple_of(room.align),
        Form::Union => 0,
    };
    let member_end = offset + room.size;
    if member_end > MOST_OBJECT_BYTES {
        return Err(TypeFault::TooLarge);
    }
    Ok(Placement {
        offset,
        end: end.max(member_end),
        align: align.max(room.align),
    })
}

fn lay_out(alloc: Global, form: Form, members: &[CType]) -> Result<Layout, LayoutFault>
    requires { 0 < length members.now }
    ensures { MatchResult result (IsLaidOut (layout_of form members.now))
        (HasFault (layout_of form members.now)) }
{
    let mut offsets = Vec::new(alloc);
    let mut end = 0;
    let mut align = 1;
    for member in members {
        match place_member(form, member, end, align) {
            Ok(next) => {
                if offsets.push(next.offset).is_err() {
                    return Err(LayoutFault::NoMemory);
                }
                end = next.end;
                align = next.align;
            }
            Err(TypeFault::Incomplete) => return Err(LayoutFault::Incomplete),
            Err(TypeFault::TooLarge) => return Err(LayoutFault::TooLarge),
        }
    }
    Ok(Layout {
        offsets,
        size: end.next_multiple_of(align),
        align,
    })
}
