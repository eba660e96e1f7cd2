//! The commands of a made script. Their numbers are drawn in the order in which they are put.
ghost use Rattle.std.specs.Prelude.{◌≡◌, ◌+◌, ◌<◌, ◌≤◌, [], ◌∷◌, ◌++◌, length, take, codes, decimal};
ghost use Rattle.dym_gen.specs.Draws.{word as said, number as drawn, size as drawn_size, next, below, size_at, text_from, state_after};
ghost use Rattle.dym_gen.specs.Commands.{drawn_command, fixed_command, goes_back as does_go_back, command_text, command_state};

use crate::command_place::CommandPlace;
use crate::draws::Draws;
use crate::word::size;
use dym_io::{put_named, put_short, put_text, put_word};

/// Puts the command of a place.
#[inline(always)]
pub fn put_command(page: &mut [u8], end: usize, draws: &mut Draws, place: CommandPlace) -> usize
    requires number { place.number < 1000000 }
    requires room { end + 32 ≤ length page.old }
    ensures state { draws.new.state ≡ command_state
        (fixed_command place.object place.number) draws.old.state }
    ensures text { take result page.new
        ≡ take end page.old ++ command_text
        (fixed_command place.object place.number) draws.old.state }
    ensures short { result ≤ end + 24 }
{
    let j = place.number;
    if j == 0 {
        put_text(page, end, b"malloc 40")
    } else if j == 1 {
        put_text(page, end, b"malloc 65536")
    } else if j % 32 == 22 && goes_back(place.object) {
        put_named(page, end, b"restore ", u64::from(j - 8))
    } else if j % 32 == 30 && goes_back(place.object) {
        put_named(page, end, b"prune ", u64::from(j - 16))
    } else if j % 32 == 2 {
        put_named(page, end, b"log ", u64::from(j))
    } else if j % 4 == 2 {
        put_named(page, end, b"ilog ", u64::from(j))
    } else {
        put_drawn(page, end, draws)
    }
}

/// Whether an object restores and prunes.
fn goes_back(object: u32) -> bool
    ensures { result ≡ does_go_back object }
{
    object % 4 != 3
}

/// Puts a command that is drawn.
#[inline(always)]
fn put_drawn(page: &mut [u8], end: usize, draws: &mut Draws) -> usize
    requires { end + 32 ≤ length page.old }
    ensures state { draws.new.state ≡ command_state None draws.old.state }
    ensures text { take result page.new ≡ take end page.old ++ command_text None draws.old.state }
    ensures short { result ≤ end + 24 }
{
    match draws.below(10) {
        0 => put_below(page, end, draws, b"malloc ", 200),
        1 => put_calloc(page, end, draws),
        2 => put_plain(page, end, draws, b"free ", b""),
        3 => put_numbered(page, end, draws, b"write ", 40, b" 01ff"),
        4 => put_fill(page, end, draws),
        5 => put_link(page, end, draws),
        6 => put_numbered(page, end, draws, b"follow ", 40, b""),
        7 => put_plain(page, end, draws, b"read ", b" 0 16"),
        8 => put_numbered(page, end, draws, b"realloc ", 200, b""),
        _ => put_plain(page, end, draws, b"sum ", b""),
    }
}

/// Puts a text and a number that is drawn.
#[inline(always)]
fn put_below(page: &mut [u8], end: usize, draws: &mut Draws, text: &[u8], limit: u32) -> usize
    requires some { 0 < limit }
    requires limit { limit ≤ 1000 }
    requires room { end + length text.now + 4 ≤ length page.old }
    ensures state { draws.new.state ≡ next draws.old.state }
    ensures text { take result page.new ≡ take end page.old
        ++ (text.now ++ decimal (below limit (next draws.old.state))) }
    ensures short { result ≤ end + length text.now + 3 }
{
    let end = put_text(page, end, text);
    put_short(page, end, draws.below(limit))
}

/// Puts one of the first chunks of one of the sizes.
#[inline(always)]
fn put_chunk(page: &mut [u8], end: usize, draws: &mut Draws) -> usize
    requires { end + 8 ≤ length page.old }
    ensures state { draws.new.state ≡ next (next draws.old.state) }
    ensures text { take result page.new
        ≡ take end page.old ++ (decimal (size_at (next draws.old.state)) ++ codes ":"
        ++ decimal (below 4 (next (next draws.old.state)))) }
    ensures short { result ≤ end + 7 }
{
    let end = put_word(page, end, size(draws.below(4)));
    put_short(page, end, draws.below(4))
}

#[inline(always)]
fn put_calloc(page: &mut [u8], end: usize, draws: &mut Draws) -> usize
    requires { end + 32 ≤ length page.old }
    ensures state { draws.new.state ≡ state_after draws.old.state (drawn_command 1) }
    ensures text { take result page.new ≡ take end page.old
        ++ text_from draws.old.state (drawn_command 1) }
    ensures short { result ≤ end + 24 }
{
    let end = put_below(page, end, draws, b"calloc ", 4);
    put_below(page, end, draws, b" ", 100)
}

/// A command of a chunk: a name, the chunk and a tail.
#[inline(always)]
fn put_plain(page: &mut [u8], end: usize, draws: &mut Draws, name: &[u8], tail: &[u8]) -> usize
    requires name { length name.now ≤ 8 }
    requires tail { length tail.now ≤ 5 }
    requires room { end + 32 ≤ length page.old }
    ensures state { draws.new.state ≡ next (next draws.old.state) }
    ensures text { take result page.new
        ≡ take end page.old ++ text_from draws.old.state (said name.now ∷ drawn_size ∷ said
        (codes ":") ∷ drawn 4 ∷ said tail.now ∷ []) }
    ensures short { result ≤ end + 24 }
{
    let end = put_text(page, end, name);
    let end = put_chunk(page, end, draws);
    put_text(page, end, tail)
}

/// A command of a chunk and a number: a name, the chunk, the number and a tail.
#[inline(always)]
fn put_numbered(
    page: &mut [u8],
    end: usize,
    draws: &mut Draws,
    name: &[u8],
    limit: u32,
    tail: &[u8],
) -> usize
    requires name { length name.now ≤ 8 }
    requires some { 0 < limit }
    requires limit { limit ≤ 1000 }
    requires tail { length tail.now ≤ 5 }
    requires room { end + 32 ≤ length page.old }
    ensures state { draws.new.state ≡ next (next (next draws.old.state)) }
    ensures text { take result page.new
        ≡ take end page.old ++ text_from draws.old.state (said name.now ∷ drawn_size ∷ said
        (codes ":") ∷ drawn 4 ∷ said (codes " ") ∷ drawn limit ∷ said tail.now ∷ []) }
    ensures short { result ≤ end + length name.now + 11 + length tail.now }
{
    let end = put_text(page, end, name);
    let end = put_chunk(page, end, draws);
    let end = put_below(page, end, draws, b" ", limit);
    put_text(page, end, tail)
}

#[inline(always)]
fn put_fill(page: &mut [u8], end: usize, draws: &mut Draws) -> usize
    requires { end + 32 ≤ length page.old }
    ensures state { draws.new.state ≡ state_after draws.old.state (drawn_command 4) }
    ensures text { take result page.new ≡ take end page.old
        ++ text_from draws.old.state (drawn_command 4) }
    ensures short { result ≤ end + 24 }
{
    let end = put_numbered(page, end, draws, b"fill ", 40, b"");
    let end = put_below(page, end, draws, b" ", 20);
    put_below(page, end, draws, b" ", 256)
}

#[inline(always)]
fn put_link(page: &mut [u8], end: usize, draws: &mut Draws) -> usize
    requires { end + 32 ≤ length page.old }
    ensures state { draws.new.state ≡ state_after draws.old.state (drawn_command 5) }
    ensures text { take result page.new ≡ take end page.old
        ++ text_from draws.old.state (drawn_command 5) }
    ensures short { result ≤ end + 24 }
{
    let end = put_numbered(page, end, draws, b"link ", 40, b" ");
    put_chunk(page, end, draws)
}
