// What the words of a run ask for.
ghost use Rattle.std.specs.Prelude.{[], ◌∷◌};
ghost use Rattle.rpc_tool.specs.Commands.{AreNamed, IsNamed, IsShapeNamed};

use crate::versions::{Wanted, read_wanted};
use bp_text::{TextError, read_shape};
use bp_value::{OutOfMemory, Shape};
use std::alloc::Global;

/// A command of the program.
#[derive(Debug, Drop)]
pub enum Command {
    /// Shows the value of a shape that the bytes of a hex text spell.
    Show(Shape),
    /// Writes the hex of the bytes that spell the value of a text.
    Write(Shape),
    /// Writes a line for each message of the stream that the bytes of a hex text are.
    Frames,
    /// Writes a line for each entry of the menu that the bytes of a hex text spell, and the version
    /// that is chosen.
    Menu(Wanted),
    /// Replays a schedule over two wires.
    Replay,
}

/// Why words name no command.
#[derive(Clone, Copy, Debug, PartialEq, Eq)]
pub enum Misuse {
    /// They are of no form.
    Usage,
    /// The word for a shape is refused, or memory ran out as it was read.
    BadShape(TextError),
    /// Memory ran out as the words of `menu` were read.
    OutOfMemory,
}

/// The command that the words name, if they name one.
pub fn command_of(alloc: Global, words: &[String]) -> Result<Command, Misuse>
    ensures { IsNamed words.now result }
{
    match words {
        [name] => alone(name.as_bytes()),
        [name, shape] => with_shape(alloc, name.as_bytes(), shape.as_bytes()),
        [name, called, versions] => {
            with_versions(
                alloc,
                name.as_bytes(),
                called.as_bytes(),
                versions.as_bytes(),
            )
        }
        _ => Err(Misuse::Usage),
    }
}

// The command of one word.
fn alone(name: &[u8]) -> Result<Command, Misuse>
    ensures { AreNamed (name.now ∷ []) result }
{
    if name == b"frames".as_slice() {
        Ok(Command::Frames)
    } else if name == b"replay".as_slice() {
        Ok(Command::Replay)
    } else {
        Err(Misuse::Usage)
    }
}

// The command of a word with a word for a shape.
fn with_shape(alloc: Global, name: &[u8], word: &[u8]) -> Result<Command, Misuse>
    ensures { AreNamed (name.now ∷ word.now ∷ []) result }
{
    if name == b"show".as_slice() {
        Ok(Command::Show(shape_of(alloc, word)?))
    } else if name == b"write".as_slice() {
        Ok(Command::Write(shape_of(alloc, word)?))
    } else {
        Err(Misuse::Usage)
    }
}

// The command of a word with a name and a word for versions.
fn with_versions(alloc: Global, name: &[u8], called: &[u8], word: &[u8]) -> Result<Command, Misuse>
    ensures { AreNamed (name.now ∷ called.now ∷ word.now ∷ []) result }
{
    if name != b"menu".as_slice() {
        return Err(Misuse::Usage);
    }
    match read_wanted(alloc, called, word) {
        Ok(Some(wanted)) => Ok(Command::Menu(wanted)),
        Ok(None) => Err(Misuse::Usage),
        Err(OutOfMemory) => Err(Misuse::OutOfMemory),
    }
}

// The shape that a word spells.
fn shape_of(alloc: Global, word: &[u8]) -> Result<Shape, Misuse>
    ensures { IsShapeNamed word.now result }
{
    match read_shape(alloc, word) {
        Ok(shape) => Ok(shape),
        Err(error) => Err(Misuse::BadShape(error)),
    }
}
