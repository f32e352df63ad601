// A command's value, by its kind: the fields due in document 01's order, a fault handed on at once.
#![tactic(auto, unfolding(crate::specs::Commands::fields_of))]

ghost use Rattle.machine.specs.Rooms.{default_page};
ghost use Rattle.fields.specs.Reader.{if_any_byte_is_left};
ghost use Rattle.fields.specs.Fields.{opening, adding, revoking, requesting, approving, rejecting, telling_status, telling_page, limit, number_field};
ghost use Rattle.fields.specs.Parts.{Gives, itself};
ghost use Rattle.commands.specs.Commands.{fields_of};
ghost use Rattle.commands.specs.Answers.{meant};

use crate::command::{
    AddCommand, ApproveCommand, Command, PageCommand, RejectCommand, RequestCommand, RevokeCommand,
};
use field_values::{caller, key_field, message, number_field, role_field, time_field};
use fields::{Fields, Stop};
use ids::{Account, RequestId};

pub fn read_open<'a>(r: &mut Fields<'a>) -> Result<Command<'a>, Stop>
    ensures { Gives meant (fields_of opening) r.old r.new result }
{
    Ok(Command::Open(Account(number_field(r, 0x11)?)))
}

pub fn read_add<'a>(r: &mut Fields<'a>) -> Result<Command<'a>, Stop>
    ensures { Gives meant (fields_of adding) r.old r.new result }
{
    Ok(Command::Add(AddCommand {
        caller: Account(number_field(r, 0x11)?),
        key: key_field(r)?,
        account: Account(number_field(r, 0x13)?),
        role: role_field(r)?,
    }))
}

pub fn read_revoke<'a>(r: &mut Fields<'a>) -> Result<Command<'a>, Stop>
    ensures { Gives meant (fields_of revoking) r.old r.new result }
{
    Ok(Command::Revoke(RevokeCommand {
        caller: Account(number_field(r, 0x11)?),
        key: key_field(r)?,
        now: time_field(r)?,
    }))
}

pub fn read_request<'a>(r: &mut Fields<'a>) -> Result<Command<'a>, Stop>
    ensures { Gives meant (fields_of requesting) r.old r.new result }
{
    let caller = caller(r)?;
    let (text, now) = message(r)?;
    Ok(Command::Request(RequestCommand { caller, text, now }))
}

pub fn read_approve<'a>(r: &mut Fields<'a>) -> Result<Command<'a>, Stop>
    ensures { Gives meant (fields_of approving) r.old r.new result }
{
    let caller = caller(r)?;
    let request = RequestId(number_field(r, 0x17)?);
    let (text, now) = message(r)?;
    Ok(Command::Approve(ApproveCommand {
        caller,
        request,
        text,
        now,
    }))
}

pub fn read_reject<'a>(r: &mut Fields<'a>) -> Result<Command<'a>, Stop>
    ensures { Gives meant (fields_of rejecting) r.old r.new result }
{
    Ok(Command::Reject(RejectCommand {
        caller: caller(r)?,
        request: RequestId(number_field(r, 0x17)?),
        now: time_field(r)?,
    }))
}

pub fn read_status<'a>(r: &mut Fields<'a>) -> Result<Command<'a>, Stop>
    ensures { Gives meant (fields_of telling_status) r.old r.new result }
{
    Ok(Command::Status(RequestId(number_field(r, 0x17)?)))
}

pub fn read_page<'a>(r: &mut Fields<'a>) -> Result<Command<'a>, Stop>
    ensures { Gives meant (fields_of telling_page) r.old r.new result }
{
    Ok(Command::Page(PageCommand {
        from: number_field(r, 0x19)?,
        limit: read_limit(r)?,
    }))
}

// A page whose limit is not given has 50 entries.
fn read_limit(r: &mut Fields<'_>) -> Result<u64, Stop>
    ensures { Gives itself (if_any_byte_is_left (number_field limit) default_page) r.old r.new result }
{
    if r.rest.is_empty() {
        return Ok(50);
    }
    number_field(r, 0x1A)
}
