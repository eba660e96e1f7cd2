//! What no row shows: that a whole script is read with the commands of one object apart, and that a line in the usual spelling is read once.
use dym_base::Command;
use dym_commands::Request;
use dym_script::{ScriptFail, own_commands, quick_rest, read_script};
use std::alloc::Global;
use std::test::Fail;

/// How many lines ask something of an object, and how many of the first one's are these.
fn counts(alloc: Global, text: &[u8]) -> Result<[usize; 2], ScriptFail> {
    let script = read_script(alloc, text)?;
    if script.objects.is_empty() {
        return Ok([0, 0]);
    }
    let own = own_commands(alloc, &script, 0)?;
    Ok([script.lines.len(), own.len()])
}

#[test]
fn a_script_is_read(rt: HostRuntime) -> Result<(), Fail> {
    let text =
        b"# a comment\n\nobject a 1\n  object  b_2 0001024 \na malloc 4\nb_2 malloc 7\n#\na logs";
    assert!(rt; counts(rt.alloc(), text)? == [3, 2]);
    Ok(())
}

/// How many bytes at the front of a text are read quickly, with the line end.
fn length_read(text: &[u8]) -> usize {
    let mut asked = Request::Plain(Command::Logs);
    match quick_rest(text, &mut asked) {
        Some(rest) => text.len().saturating_sub(rest.len()),
        None => 0,
    }
}

/// Lines in the usual spelling.
const USUAL: &str = " malloc 5
 calloc 12345 999999
 realloc nil 6
 realloc 8192:42 1234567890
 free 32:0
 free nil
 free 65536:9
 free 4096:1
 write 64:12 2 0aBf
 fill 128:1 2 3 4
 read 256:9 42 3
 read 16384:1 2 3
 link 512:4294967295 2 nil
 link 32:1 2 32768:1
 follow 2048:00 2
 sum 1024:000
 log 1234567
 ilog 12345678
 restore 7
 prune 1234
 logs
";

/// The reader wants more bytes behind a line than the line has.
const BEHIND: &str = "a logs\na logs\n";

#[test]
fn the_usual_spelling_is_read_quickly(rt: HostRuntime) -> Result<(), Fail> {
    for line in USUAL.lines() {
        let text = format!(in rt.alloc(); "{line}\n{BEHIND}")?;
        assert!(rt; length_read(text.as_bytes()) == line.len() + 1, "{line}");
    }
    for line in [
        " write 4096:1 2 -",
        " free 032:0",
        " free 327680:1",
        " malloc 9x",
    ] {
        let text = format!(in rt.alloc(); "{line}\n{BEHIND}")?;
        assert!(rt; length_read(text.as_bytes()) == 0, "{line}");
    }
    Ok(())
}
