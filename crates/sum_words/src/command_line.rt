//! The command line: which tool is asked for, and on which words.
ghost use Rattle.digest_kinds.specs.Bytes.{ByteString};
ghost use Rattle.std.specs.{List.after_last, Option.option_map, Prelude.◌≡◌, Prelude.◌==◌};
ghost use Rattle.std.specs.Prelude.{◌≤◌, ◌<◌, ◌*◌, ◌∷◌, ◌++◌, [], vec_len, take, length, List, Any, IfOk, IfSome, OnOk};
ghost use Rattle.std.specs.{Prelude.OnErr, Prelude.MatchResult, Str.byte, declared.env.FillError.TheVariants.TooLong};
ghost use Rattle.sum_words.specs.{Arguments.FitsArguments, CommandLine.command_line, CommandLine.NeedsMemory};
ghost use Rattle.sum_words.specs.{CommandLine.command_line_value, declared.command_line.TheConstants.PAGE};
ghost use Rattle.sum_words.specs.private.CommandLine.{Fails, Gives, FindsTool};

use crate::arguments::Arguments;
use crate::tool::Tool;
use crate::words::Words;
use memchr::memrchr;
use std::alloc::Allocator;
use std::env::FillError;
use sum_settings::NoRoom;

// The longest argument that is read without taking memory. Larger and smaller sizes made short runs slower.
const PAGE: usize = 4096;

/// What a command line asks for.
#[derive(Debug, Drop)]
pub enum CommandLine<A: Allocator> {
    /// Neither the name that the program was called by nor the first word names a tool.
    UnknownTool,
    /// This tool, with its words.
    Invoke(Tool, Words<A>),
}

/// Reads the command line. The tool is named by the last part of the program's name, as in `/bin/md5sum`. If that isn't
/// a tool's name, the next argument names it. The arguments after the tool's place are its words. If they name no tool,
/// no further argument is read.
///
/// Returns `NoRoom` if memory is refused. Memory is needed only if an argument follows the tool's place, or if one is
/// longer than 4,096 bytes.
pub fn read_command_line<A: Allocator + Copy, G: Arguments>(
    alloc: A,
    arguments: &mut G,
) -> Result<CommandLine<A>, NoRoom>
    requires given { (G.state arguments.old).given ≡ [] }
    // Of every list of arguments that agrees with what the calls gave: what it asks for, or that it needs memory.
    ensures line { (all : List ByteString) → FitsArguments (G.state arguments.new) all
        → MatchResult result (λ line. command_line all ≡ command_line_value line)
        (λ _. NeedsMemory all) }
    ensures told { (G.state arguments.new).told ≡ (G.state arguments.old).told }
{
    let mut room = Room {
        page: [0; PAGE],
        more: Vec::new(alloc),
    };
    let Some((tool, first)) = find_tool(arguments, &mut room)? else {
        return Ok(CommandLine::UnknownTool);
    };
    let words = words_from(alloc, arguments, first, &mut room)?;
    Ok(CommandLine::Invoke(tool, words))
}

// Room for one argument: a page, and a vector that grows for a longer one.
#[derive(Drop)]
struct Room<A: Allocator> {
    page: [u8; PAGE],
    more: Vec<u8, A>,
}

impl<A: Allocator> Room<A> {
    // The argument at this place, or `None` past the last.
    fn argument<G: Arguments>(
        &mut self,
        arguments: &mut G,
        place: usize,
    ) -> Result<Option<&[u8]>, NoRoom>
        requires { place ≡ length (G.state arguments.old).given }
        ensures gives { IfOk result (λ o. Gives (G.state arguments.old) (G.state arguments.new)
            (option_map (λ s. s.now) o)) }
        ensures not_read { OnErr result
            (Fails TooLong PAGE (G.state arguments.old) (G.state arguments.new)) }
    {
        match arguments.fill(place, &mut self.page) {
            Ok(len) => Ok(Some(&self.page[..len])),
            Err(FillError::NotPresent) => Ok(None),
            Err(FillError::TooLong) => {
                let Some(len) = fill_growing(arguments, place, &mut self.more)? else {
                    return Ok(None);
                };
                Ok(Some(&self.more[..len]))
            }
        }
    }
}

// Copies the argument at this place, which is longer than a page, to the front of the vector, and returns its length,
// or `None` past the last.
fn fill_growing<A: Allocator, G: Arguments>(
    arguments: &mut G,
    place: usize,
    more: &mut Vec<u8, A>,
) -> Result<Option<usize>, NoRoom>
    requires place { place ≡ length (G.state arguments.old).given }
    requires long { Fails TooLong PAGE (G.state arguments.old) (G.state arguments.old) }

    // The argument, at the front of the vector.
    ensures within { IfOk result (λ o. IfSome o (λ n. n ≤ vec_len more.new)) }
    ensures gives { IfOk result (λ o. Gives (G.state arguments.old) (G.state arguments.new)
        (option_map (λ n. take n more.new.items) o)) }

    // Memory was refused, after a call whose buffer was too short.
    ensures not_read { OnErr result
        (Fails TooLong PAGE (G.state arguments.old) (G.state arguments.new)) }
{
    if more.len() < PAGE {
        grow(more)?;
    }
    'longer: loop {
        match arguments.fill(place, more.as_mut_slice()) {
            Ok(len) => return Ok(Some(len)),
            Err(FillError::NotPresent) => return Ok(None),
            Err(FillError::TooLong) => grow(more)?,
        }
    }
}

// Makes the vector longer, at least twice as long as it was, and longer than a page.
fn grow<A: Allocator>(more: &mut Vec<u8, A>) -> Result<(), NoRoom>
    ensures longer { OnOk result (vec_len more.old < vec_len more.new) }
    ensures twice { OnOk result (2 * vec_len more.old ≤ vec_len more.new) }
    ensures page { OnOk result (PAGE < vec_len more.new) }
{
    let twice = more.len().checked_mul(2).ok_or(NoRoom)?;
    more.resize(twice.max(2 * PAGE), 0)?;
    Ok(())
}

// The tool, and the place of the first word. The last part of the program's name names it, or otherwise the next
// argument.
fn find_tool<A: Allocator, G: Arguments>(
    arguments: &mut G,
    room: &mut Room<A>,
) -> Result<Option<(Tool, usize)>, NoRoom>
    requires { (G.state arguments.old).given ≡ [] }

    // The tool, and the place.
    ensures tool { IfOk result (FindsTool (G.state arguments.new)) }
    ensures first { IfOk result (λ o. IfSome o (λ found. found.1 ≤ 2)) }

    // Memory was refused, so in each list that agrees an argument is longer than a page.
    ensures not_read { OnErr result ((all : List ByteString)
        → FitsArguments (G.state arguments.new) all
        → Any (λ argument. PAGE < length argument) all) }
    ensures told { (G.state arguments.new).told ≡ (G.state arguments.old).told }
{
    let Some(path) = room.argument(arguments, 0)? else {
        return Ok(None);
    };
    if let Some(tool) = Tool::from_bytes(last_part(path)) {
        return Ok(Some((tool, 1)));
    }
    let Some(word) = room.argument(arguments, 1)? else {
        return Ok(None);
    };
    match Tool::from_bytes(word) {
        Some(tool) => Ok(Some((tool, 2))),
        None => Ok(None),
    }
}

// What follows the last slash of a path, or all of the path if there is no slash.
fn last_part(path: &[u8]) -> &[u8]
    ensures { result.now ≡ after_last (λ b. b == byte "/") path.now }
{
    match memrchr(b'/', path) {
        Some(slash) => &path[slash..][1..],
        None => path,
    }
}

// The arguments from this place on.
fn words_from<A: Allocator + Copy, G: Arguments>(
    alloc: A,
    arguments: &mut G,
    first: usize,
    room: &mut Room<A>,
) -> Result<Words<A>, NoRoom>
    requires place { first ≡ length (G.state arguments.old).given }
    requires few { first < usize.MAX }

    // The words, of each list that agrees.
    ensures words { IfOk result (λ words. (all : List ByteString)
        → FitsArguments (G.state arguments.new) all
        → all ≡ (G.state arguments.old).given ++ words) }

    // Memory was refused, so in each list that agrees there is a word.
    ensures not_read { OnErr result ((all : List ByteString)
        → FitsArguments (G.state arguments.new) all → (word : ByteString) × (rest : List ByteString)
        × (all ≡ (G.state arguments.old).given ++ word ∷ rest)) }
    ensures told { (G.state arguments.new).told ≡ (G.state arguments.old).told }
{
    let mut words = Words::new(alloc);
    'places: for place in first..usize::MAX {
        let Some(word) = room.argument(arguments, place)? else {
            return Ok(words);
        };
        words.add_bytes(word)?;
    }
    Err(NoRoom)
}
