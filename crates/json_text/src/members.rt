//! Which members of an object count.

ghost use Rattle.std.specs.Prelude.{◌≡◌, ◌&&◌};
ghost use Rattle.std.specs.Str.{bytes_eq};
ghost use Rattle.pdata_value.specs.Pairs.{has_key};
ghost use Rattle.json_text.specs.Members as spec;

use crate::kinds::Member;

// Whether one of the members has this key.
fn has_key_among(members: &[Member], key: &str) -> bool
    ensures { result ≡ has_key members.now key.now }
{
    for member in members {
        if member.0.as_str() == key {
            return true;
        }
    }
    false
}

/// Whether a member counts among those behind it: it isn't null, and none of them has its key.
pub fn stands(member: &Member, behind: &[Member]) -> bool
    ensures { result ≡ spec.stands member.now behind.now }
{
    !member.1.is_null() && !has_key_among(behind, member.0.as_str())
}

/// Whether a member has this key and counts among those behind it.
pub fn stands_under(key: &str, member: &Member, behind: &[Member]) -> bool
    ensures { result ≡ (bytes_eq member.now.0 key.now && spec.stands member.now behind.now) }
{
    member.0.as_str() == key && stands(member, behind)
}

/// Whether a member with this key counts.
pub fn has_standing(members: &[Member], key: &str) -> bool
    ensures { result ≡ spec.has_standing key.now members.now }
{
    let mut rest = members;
    while let [member, behind @ ..] = rest {
        if stands_under(key, member, behind) {
            return true;
        }
        rest = behind;
    }
    false
}
