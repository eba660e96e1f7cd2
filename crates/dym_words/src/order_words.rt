//! The order of a list of words.
ghost use Rattle.std.specs.Prelude.{◌≡◌, map};
ghost use Rattle.std.specs.String.{string_bytes};
ghost use Rattle.dym_words.specs.Orders.{order, form_of, plain, run, views, alone, made, save, load, input_of};

use crate::gen_numbers::GenNumbers;
use crate::number::read_number;
use crate::options::{are_options, read_flag, read_number_or, values};
use crate::order::{Input, Order, Usage};
use dym_base::Name;
use dym_base::limits::{
    DEFAULT_QUANTUM, DEFAULT_SEGMENTS, DEFAULT_WORKERS, MOST_QUANTUM, MOST_SEGMENTS, MOST_WORKERS,
};

/// The order that these words ask for. They are those after the program's name. It takes no memory.
pub fn read_words(words: &[String]) -> Result<Order, Usage>
    ensures { result ≡ order (map string_bytes words.now) }
{
    let [word, rest @ ..] = words else {
        return Err(Usage);
    };
    read_form(word.as_str(), rest).ok_or(Usage)
}

/// The order that begins with this word, where the rest has its form.
fn read_form(word: &str, rest: &[String]) -> Option<Order>
    ensures { result ≡ form_of word.now (map string_bytes rest.now) }
{
    match word {
        "plain" => read_plain(rest),
        "run" => read_run(rest),
        "check" => alone(rest, Order::Check),
        "gen" => read_made(rest),
        "trace" => alone(rest, Order::Trace),
        "save" => read_save(rest),
        "load" => read_load(rest),
        "views" => read_views(rest),
        "late" => alone(rest, Order::Late),
        _ => None,
    }
}

/// An order that takes no further words.
fn alone(rest: &[String], order: Order) -> Option<Order>
    ensures { result ≡ alone order (map string_bytes rest.now) }
{
    if rest.is_empty() { Some(order) } else { None }
}

fn read_plain(rest: &[String]) -> Option<Order>
    ensures { result ≡ plain (map string_bytes rest.now) }
{
    if !are_options(rest, &["--summary", "--gen"]) {
        return None;
    }
    Some(Order::Plain {
        input: read_input(rest)?,
        summary: read_flag(rest, "--summary")?,
    })
}

fn read_run(rest: &[String]) -> Option<Order>
    ensures { result ≡ run (map string_bytes rest.now) }
{
    if !are_options(
        rest,
        &["--workers", "--segments", "--quantum", "--summary", "--gen"],
    ) {
        return None;
    }
    Some(Order::Run {
        workers: read_number_or(rest, "--workers", MOST_WORKERS, DEFAULT_WORKERS)?,
        segments: read_number_or(rest, "--segments", MOST_SEGMENTS, DEFAULT_SEGMENTS)?,
        quantum: read_number_or(rest, "--quantum", MOST_QUANTUM, DEFAULT_QUANTUM)?,
        input: read_input(rest)?,
        summary: read_flag(rest, "--summary")?,
    })
}

fn read_views(rest: &[String]) -> Option<Order>
    ensures { result ≡ views (map string_bytes rest.now) }
{
    if !are_options(rest, &["--workers", "--segments", "--quantum"]) {
        return None;
    }
    Some(Order::Views {
        workers: read_number_or(rest, "--workers", MOST_WORKERS, DEFAULT_WORKERS)?,
        segments: read_number_or(rest, "--segments", MOST_SEGMENTS, DEFAULT_SEGMENTS)?,
        quantum: read_number_or(rest, "--quantum", MOST_QUANTUM, DEFAULT_QUANTUM)?,
    })
}

/// Where the script comes from, by the option `--gen`.
fn read_input(rest: &[String]) -> Option<Input>
    ensures { result ≡ input_of (map string_bytes rest.now) }
{
    match values(rest, "--gen") {
        None => Some(Input::Script),
        Some(words) => {
            let made = GenNumbers::of_words(words)?;
            Some(Input::Made {
                seed: made.seed,
                objects: made.objects,
                commands: made.commands,
            })
        }
    }
}

fn read_made(rest: &[String]) -> Option<Order>
    ensures { result ≡ made (map string_bytes rest.now) }
{
    let made = GenNumbers::of_words(rest)?;
    Some(Order::Gen {
        seed: made.seed,
        objects: made.objects,
        commands: made.commands,
    })
}

fn read_save(rest: &[String]) -> Option<Order>
    ensures { result ≡ save (map string_bytes rest.now) }
{
    let [word] = rest else {
        return None;
    };
    let name = Name::new(word.as_bytes())?;
    Some(Order::Save { name })
}

fn read_load(rest: &[String]) -> Option<Order>
    ensures { result ≡ load (map string_bytes rest.now) }
{
    match rest {
        [] => Some(Order::Load { time: None }),
        [word] => {
            let time = read_number(word.as_str())?;
            Some(Order::Load { time: Some(time) })
        }
        _ => None,
    }
}
