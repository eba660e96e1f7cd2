//! The text of a made script. Its lines are put on a page, many at a time, and pushed together.
ghost use Rattle.std.specs.Prelude.{◌≡◌, ℕ, ◌+◌, ◌*◌, ◌<◌, ◌≤◌, ◌/◌, ◌%◌, ◌++◌, length, take, flat_map};
ghost use Rattle.std.specs.List.{range_with_len};
ghost use Rattle.dym_base.specs.declared.limits.TheConstants.{MOST_OBJECTS, MOST_MADE_COMMANDS};
ghost use Rattle.dym_io.specs.Sink.{Writes};
ghost use Rattle.dym_gen.specs.Scripts.{object_line, object_lines, command_line, line_state, command_lines, generated};

use crate::command::put_command;
use crate::command_place::CommandPlace;
use crate::draws::Draws;
use dym_io::{Sink, SinkFault, push_all, put_named, put_short, put_text};

/// The most lines that are pushed together.
const GROUP: u32 = 256;

/// The bytes of a page. Each line has room for 40.
const PAGE_ROOM: usize = 10_240;

/// Writes the script that a seed makes, with so many objects and commands. Its only error is that of the sink.
#[tactic(auto, using(dym_io::specs::Laws::writing), unfolding(crate::specs::Scripts::generated))]
pub fn gen_script<W: Sink>(
    sink: &mut W,
    seed: u64,
    objects: u32,
    commands: u32,
) -> Result<(), SinkFault>
    requires some { 0 < objects }
    requires objects { objects ≤ MOST_OBJECTS }
    requires commands { commands ≤ MOST_MADE_COMMANDS }
    ensures { Writes (W.output sink.old) (W.output sink.new)
        (generated seed objects commands) result }
{
    let mut page = [0; PAGE_ROOM];
    write_objects(sink, &mut page, objects)?;
    write_commands(sink, &mut page, Draws::new(seed), objects, commands)
}

/// Writes the declarations.
fn write_objects<W: Sink>(
    sink: &mut W,
    page: &mut [u8; PAGE_ROOM],
    objects: u32,
) -> Result<(), SinkFault>
    requires { objects ≤ MOST_OBJECTS }
    ensures { Writes (W.output sink.old) (W.output sink.new) (object_lines objects) result }
{
    let mut first = 0;
    'groups: while first < objects {
        let count = (objects - first).min(GROUP);
        let end = put_objects(page, first, count);
        push_all(sink, &page[..end])?;
        first += count;
    }
    Ok(())
}

/// Puts the declarations of some objects on a page.
fn put_objects(page: &mut [u8], first: u32, count: u32) -> usize
    requires last { first + count ≤ MOST_OBJECTS }
    requires room { 40 * count ≤ length page.old }
    ensures end { result ≤ length page.old }
    ensures lines { take result page.new ≡ flat_map object_line (range_with_len first count) }
{
    let mut end = 0;
    for i in 0..count {
        end = put_object(page, end, first + i);
    }
    end
}

/// Puts the declaration of an object.
fn put_object(page: &mut [u8], end: usize, object: u32) -> usize
    requires object { object < MOST_OBJECTS }
    requires room { end + 40 ≤ length page.old }
    ensures text { take result page.new ≡ take end page.old ++ object_line object }
    ensures short { result ≤ end + 40 }
{
    let end = put_named(page, end, b"object o", u64::from(object));
    let end = put_text(page, end, b" ");
    let end = put_short(page, end, 1 + 3 * (object % 4));
    put_text(page, end, b"\n")
}

/// Writes the lines of the commands.
fn write_commands<W: Sink>(
    sink: &mut W,
    page: &mut [u8; PAGE_ROOM],
    start: Draws,
    objects: u32,
    commands: u32,
) -> Result<(), SinkFault>
    requires some { 0 < objects }
    requires objects { objects ≤ MOST_OBJECTS }
    requires commands { commands ≤ MOST_MADE_COMMANDS }
    ensures { Writes (W.output sink.old) (W.output sink.new)
        (command_lines objects commands 0 start.state) result }
{
    let mut draws = start;
    let mut first = 0;
    'groups: while first < commands {
        let count = (commands - first).min(GROUP);
        let end = put_commands(page, &mut draws, objects, first, count);
        push_all(sink, &page[..end])?;
        first += count;
    }
    Ok(())
}

/// Puts some lines of the commands on a page. The draws are copied, so that their state can stay in a register.
fn put_commands(page: &mut [u8], draws: &mut Draws, objects: u32, first: u32, count: u32) -> usize
    requires some { 0 < objects }
    requires objects { objects ≤ MOST_OBJECTS }
    requires last { first + count ≤ MOST_MADE_COMMANDS }
    requires room { 40 * count ≤ length page.old }
    ensures end { result ≤ length page.old }
    ensures lines { (n : ℕ) → command_lines objects (count + n) first draws.old.state
        ≡ take result page.new ++ command_lines objects n (first + count) draws.new.state }
{
    let mut place = CommandPlace::of(first, objects);
    let mut current = *draws;
    let mut end = 0;
    for _i in 0..count {
        end = put_line(page, end, &mut current, place);
        place = place.next(objects);
    }
    *draws = current;
    end
}

/// Puts the line of the command at a place.
#[inline(always)]
fn put_line(page: &mut [u8], end: usize, draws: &mut Draws, place: CommandPlace) -> usize
    requires object { place.object < MOST_OBJECTS }
    requires number { place.number < MOST_MADE_COMMANDS }
    requires room { end + 40 ≤ length page.old }
    ensures text { (objects k : ℕ) → place.object ≡ k % objects → place.number ≡ k / objects
        → take result page.new ≡ take end page.old ++ command_line objects k draws.old.state }
    ensures state { (objects k : ℕ) → place.object ≡ k % objects → place.number ≡ k / objects
        → draws.new.state ≡ line_state objects k draws.old.state }
    ensures short { result ≤ end + 40 }
{
    let end = put_named(page, end, b"o", u64::from(place.object));
    let end = put_text(page, end, b" ");
    let end = put_command(page, end, draws, place);
    put_text(page, end, b"\n")
}
