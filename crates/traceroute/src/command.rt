// What the program is asked: a shape, and the two nodes between which a route is traced.
ghost use Rattle.std.specs.Prelude.{◌≡◌, ◌<◌, length};
ghost use Rattle.traceroute.specs.Commands.{as_command, Reads, Numbered, FirstNamed, Parsed, texts};

use crate::shape_name::{ShapeName, shape_named};
use crate::word_error::WordError;
use shape::Shape;
use std::alloc::Global;

#[derive(Clone, Copy)]
pub struct Command {
    pub name: ShapeName,
    pub shape: Shape,
    pub start: usize,
    pub end: usize,
}

// The number that a word writes in decimal, if it does and a `usize` holds it.
pub fn number(word: &str) -> Option<usize>
    ensures { Reads word.now result }
{
    word.parse().ok()
}

// The command of a shape's name and its numbers: the sizes, then the two nodes. None where there are fewer or more.
pub fn command_of(name: ShapeName, numbers: &[usize]) -> Option<Command>
    ensures { result ≡ as_command name numbers.now }
{
    // `ShapeName::shape` takes two sizes, and a line and a ring leave the second out: a public function keeps its signature.
    let (a, b, start, end) = match (name.sizes(), numbers) {
        (1, &[a, start, end]) => (a, 0, start, end),
        (2, &[a, b, start, end]) => (a, b, start, end),
        _ => return None,
    };
    Some(Command {
        name,
        shape: name.shape(a, b),
        start,
        end,
    })
}

// The numbers that the words after the first write, or the place of the first that writes none.
fn numbers(heap: Global, words: &[String]) -> Result<Vec<usize>, WordError>
    requires { 0 < length (texts words.now) }
    ensures { Numbered (texts words.now) result }
{
    let mut all = Vec::new(heap);
    for (before, word) in words[1..].iter().enumerate() {
        let place = before + 1;
        all.push(number(word).ok_or(WordError::NoNumber { place })?)?;
    }
    Ok(all)
}

// The shape that the first word names, if there is one and it does.
fn first_named(words: &[String]) -> Option<ShapeName>
    ensures { FirstNamed (texts words.now) result }
{
    words.first().and_then(|word| shape_named(word))
}

// The command that the words are: the name of a shape, its sizes, and the two nodes; or why they are none. It is asked
// first whether the first word names a shape, then whether the others are numbers, then whether there are enough.
pub fn parse(heap: Global, words: &[String]) -> Result<Command, WordError>
    ensures { Parsed (texts words.now) result }
{
    let name = first_named(words).ok_or(WordError::NoShape)?;
    let numbers = numbers(heap, words)?;
    command_of(name, &numbers).ok_or_else(|| WordError::WrongCount {
        sizes: name.sizes(),
    })
}
