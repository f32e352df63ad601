// The reader of one command: it lends the command's value, a middle part of the input, to the reader for its kind.
ghost use Rattle.std.specs.Prelude.{◌≡◌, eqb};
ghost use Rattle.fields.specs.Fields.{kind_of};
ghost use Rattle.fields.specs.Parts.{Gives};
ghost use Rattle.commands.specs.Commands.{contents_of, due, too_long};
ghost use Rattle.commands.specs.Answers.{Reads, fields_by, meant};

use crate::command::Command;
use crate::kind::{
    read_add, read_approve, read_open, read_page, read_reject, read_request, read_revoke,
    read_status,
};
use fields::{Fault, Fields, Stop};

// The fields of a command's value, by the command's tag: a `match`, as a table of readers would be no plainer. A tag that is no kind's has been stopped before.
fn by_kind<'a>(tag: u8, r: &mut Fields<'a>) -> Result<Command<'a>, Stop>
    ensures { Gives meant (fields_by (kind_of tag)) r.old r.new result }
{
    match tag {
        0x08 => read_open(r),
        0x01 => read_add(r),
        0x02 => read_revoke(r),
        0x03 => read_request(r),
        0x04 => read_approve(r),
        0x05 => read_reject(r),
        0x06 => read_status(r),
        0x07 => read_page(r),
        _ => Err(r.stop(Fault::UnknownField)),
    }
}

// A command's whole value: its fields, and nothing after the last.
#[tactic(auto, unfolding(crate::specs::Commands::contents))]
fn read_value<'a>(tag: u8, r: &mut Fields<'a>) -> Result<Command<'a>, Stop>
    ensures { Gives meant (contents_of (kind_of tag)) r.old r.new result }
{
    let command = by_kind(tag, r)?;
    r.finish()?;
    Ok(command)
}

// Whether a tag may stand where a command starts: an open at the input's start, any other kind after it.
fn is_due(at: usize, tag: u8) -> bool
    ensures { result ≡ due (eqb at 0) tag }
{
    match at {
        0 => tag == 0x08,
        _ => matches!(tag, 0x01..=0x07),
    }
}

// What stands at a place of the input: a command and where the next one starts, the end of the run, or a fault. 0 is the first command's place, and a place
// past the end is the end.
#[tactic(auto, unfolding(crate::specs::Commands::read_outer))]
pub fn read_command(input: &[u8], at: usize) -> Result<Option<(Command<'_>, usize)>, Stop>
    ensures { Reads input.now at result }
{
    if at >= input.len() {
        if at == 0 {
            return Err(Stop {
                fault: Fault::MissingField,
                place: 0,
            });
        }
        return Ok(None);
    }
    let outer = Fields {
        rest: &input[at..],
        place: at,
    };
    let tag = outer.tag()?;
    if !is_due(at, tag) {
        return Err(outer.stop(Fault::FieldOrder));
    }
    let value = outer.part()?;
    let mut inner = Fields {
        rest: value,
        place: at + 3,
    };
    let command = read_value(tag, &mut inner)?;
    Ok(Some((command, at + 3 + value.len())))
}

// Whether an input is above the room.
#[tactic(auto, unfolding(crate::specs::Commands::too_long))]
pub fn too_long(input: &[u8]) -> bool
    ensures { result ≡ too_long input.now }
{
    input.len() > 65536
}
