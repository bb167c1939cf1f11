//! A law about the addresses of static objects.

ghost use Rattle.std.specs.Prelude.{◌≤◌, ◌^◌, length, sum_by};
ghost use Rattle.filc_num.specs.declared.statics.StaticDef.{StaticDef};
ghost use Rattle.ideal_step.specs.Statics.{plain_statics, HaveAddresses};

use filc_num::StaticDef;

/// Static objects within a program's limits have addresses: they have 262,144 words at most, and a
/// number of 32 bits each.
pub fn static_objects_within_the_limits_have_addresses(statics: &[StaticDef])
    requires words { sum_by (λ (s : StaticDef). length s.words.items) statics.now ≤ 262144 }
    requires count { length statics.now ≤ 2 ^ 32 }
    ensures { HaveAddresses (plain_statics statics.now) }
{}
