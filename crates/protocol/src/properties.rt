//! The properties of the protocol's JSON objects, each looked up by its name. One that is null
//! counts as absent.
ghost use Rattle.std.specs.Prelude.{◌≡◌, option_map};
ghost use Rattle.serde_json.specs.Find.{get_member};
ghost use Rattle.serde_json.specs.View.{view, members_view};
ghost use Rattle.protocol.specs.Properties as properties;

use serde_json::{Map, Value};

/// The greatest number that a message may have (`ProtocolMessage.seq`).
pub const LAST_SEQ: u32 = 2_147_483_647;

/// The member of that name.
fn member<'v>(members: &'v Map<String, Value>, name: &str) -> Option<&'v Value>
    ensures { option_map (λ value. view value.now) result
        ≡ get_member name.now (members_view members.now.entries) }
{
    members.get(name)
}

/// The property of that name.
pub(crate) fn property<'v>(members: &'v Map<String, Value>, name: &str) -> Option<&'v Value>
    ensures { option_map (λ value. view value.now) result
        ≡ properties.property name.now (members_view members.now.entries) }
{
    let value = member(members, name)?;
    if value.is_null() { None } else { Some(value) }
}

/// The property of that name, where it is a text.
pub(crate) fn text<'v>(members: &'v Map<String, Value>, name: &str) -> Option<&'v str>
    ensures { option_map (λ text. text.now) result
        ≡ properties.text (properties.property name.now (members_view members.now.entries)) }
{
    property(members, name)?.as_str()
}

/// The property of that name, where it is a whole number from 0 to 2,147,483,647.
pub(crate) fn sequence_number(members: &Map<String, Value>, name: &str) -> Option<u32>
    ensures { result ≡ properties.sequence_number
        (properties.property name.now (members_view members.now.entries)) }
{
    let number = property(members, name)?.as_u64()?;
    if number <= u64::from(LAST_SEQ) {
        Some(number as u32)
    } else {
        None
    }
}
