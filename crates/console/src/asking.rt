// What a line asks for.
ghost use Rattle.std.specs.Prelude.{◌≡◌};
ghost use Rattle.console.specs.Asking.{by_key, command_of};

use crate::line::Line;

// A command.
#[derive(Clone, Copy)]
pub enum Command {
    Boot,
    Size,
    Control,
    Row,
    Ask,
    Show,
    Tree,
    Estate,
}

// A line that asks for nothing that there is.
#[derive(Clone, Copy)]
pub struct BadLine;

// A command by the key of its first word, in hexadecimal 1 and then the word in ASCII, if the count of its numbers is what it takes.
#[tactic(auto, unfolding(crate::specs::Asking::by_key))]
fn by_key(key: u64, count: usize) -> Option<Command>
    ensures { result ≡ by_key key count }
{
    match key {
        // boot
        0x1626f6f74 => (count == 2).then_some(Command::Boot),
        // size
        0x173697a65 => (count == 1).then_some(Command::Size),
        // control
        0x1636f6e74726f6c => (count == 4).then_some(Command::Control),
        // row
        0x1726f77 => (count == 9).then_some(Command::Row),
        // ask
        0x161736b => (1 <= count).then_some(Command::Ask),
        // show
        0x173686f77 => (count == 0).then_some(Command::Show),
        // tree
        0x174726565 => (count == 0).then_some(Command::Tree),
        // estate
        0x1657374617465 => (count == 1).then_some(Command::Estate),
        _ => None,
    }
}

// What a whole line asks for; nothing, where it is blank or a comment.
#[tactic(auto, unfolding(crate::specs::Asking::command_of))]
pub fn command_of(line: &Line) -> Result<Option<Command>, BadLine>
    ensures { result ≡ command_of line.now }
{
    if line.says_nothing() {
        return Ok(None);
    }
    if line.bad {
        return Err(BadLine);
    }
    let command = by_key(line.key, line.count).ok_or(BadLine)?;
    Ok(Some(command))
}
