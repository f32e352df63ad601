// Fields by what they hold: a number, a key, a time, a role, who calls, a text and when. Each lends its part of the value to the reader for what it holds.
ghost use Rattle.fields.specs.Fields.{◌holds◌, key, field, number_field, time_field, role_field};
ghost use Rattle.fields.specs.declared.field.Form.TheVariants.{Exactly};
ghost use Rattle.fields.specs.Parts.{Gives, itself};
ghost use Rattle.field_values.specs.Groups.{caller, message, noted};

use fields::{Fields, Form, Stop, key_in, number_in};
use ids::{Account, Key};
use records::{BlockTime, Caller, Role};

#[tactic(auto, unfolding(fields::specs::Fields::number_field))]
pub fn number_field(r: &mut Fields<'_>, due: u8) -> Result<u64, Stop>
    ensures { Gives itself (number_field (due holds Exactly 8)) r.old r.new result }
{
    let part = r.field(due, Form::Exactly(8))?;
    Ok(number_in(part))
}

pub fn key_field(r: &mut Fields<'_>) -> Result<Key, Stop>
    ensures { Gives itself (field key) r.old r.new result }
{
    let part = r.field(0x12, Form::Exactly(32))?;
    Ok(key_in(part))
}

#[tactic(auto, unfolding(fields::specs::Fields::time_field))]
pub fn time_field(r: &mut Fields<'_>) -> Result<BlockTime, Stop>
    ensures { Gives itself time_field r.old r.new result }
{
    let part = r.field(0x16, Form::Exactly(16))?;
    Ok(BlockTime {
        height: number_in(&part[..8]),
        timestamp_ns: number_in(&part[8..]),
    })
}

#[tactic(auto, unfolding(fields::specs::Fields::role_field))]
pub fn role_field(r: &mut Fields<'_>) -> Result<Role, Stop>
    ensures { Gives itself role_field r.old r.new result }
{
    let part = r.field(0x15, Form::RoleByte)?;
    Ok(Role::from(number_in(part)))
}

// Who calls: 10, 11, 12.
#[tactic(auto, unfolding(crate::specs::Groups::caller))]
pub fn caller(r: &mut Fields<'_>) -> Result<Caller, Stop>
    ensures { Gives itself caller r.old r.new result }
{
    Ok(Caller {
        predecessor: Account(number_field(r, 0x10)?),
        signer: Account(number_field(r, 0x11)?),
        signer_key: key_field(r)?,
    })
}

// A text, and when: 18, 16.
#[tactic(auto, unfolding(crate::specs::Groups::message))]
pub fn message<'a>(r: &mut Fields<'a>) -> Result<(&'a [u8], BlockTime), Stop>
    ensures { Gives noted message r.old r.new result }
{
    let text = r.field(0x18, Form::AnyLength)?;
    let now = time_field(r)?;
    Ok((text, now))
}
