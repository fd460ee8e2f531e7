//! What the words ask for: settings and operands, help, version, or a fault.
ghost use Rattle.std.specs.{Char.is_ascii_digit, List.list_all, Option.option_map};
ghost use Rattle.std.specs.Prelude.{◌≡◌, ◌∷◌, List, [], filter_map};
ghost use Rattle.sum_words.specs.parsing.Items.{ItemValue, a_word, items_from, option, option_in};
ghost use Rattle.sum_words.specs.parsing.Request.{length_kind, mode_of, fault_of_options, request_of_options, request};
ghost use Rattle.sum_words.specs.parsing.WordFault.{word_fault_value, result_value};
ghost use Rattle.sum_words.specs.private.Request.{IsChosenBy, IsScanOf, IsNumberOf};

use crate::parsing::items::{Item, Items, Operands};
use crate::parsing::options::Flag;
use crate::parsing::word_fault::WordFault;
use crate::tool::Tool;
use crate::words::Words;
use digest_kinds::{Algos, Kind, LengthFault};
use std::alloc::Allocator;
use sum_lines::{Mode, Style};
use sum_settings::{CheckSettings, Report, Settings};

/// What a tool's words ask for. If there is no operand, the caller must use `-` instead.
#[derive(Debug, Drop)]
pub enum Request<'a> {
    /// A line for each operand.
    Generate(Settings, Operands<'a>),
    /// A check of each operand, which is a manifest.
    Check(CheckSettings, Operands<'a>),
    /// The help text.
    Help,
    /// The version text.
    Version,
}

/// Reads what a tool's words ask for (coreutils manual, "md5sum invocation" and "b2sum invocation"). The earliest
/// `--help`, `--version` or fault of a single word decides. If there is none, the other faults are looked for in the
/// order of [`WordFault`]. This takes no memory.
pub fn read_words<'a, A: Allocator>(
    tool: Tool,
    words: &'a Words<A>,
) -> Result<Request<'a>, WordFault<'a>>
    ensures request { result_value result ≡ request tool words.now }
{
    let chosen = match read_options(tool, words) {
        ScannedOptions::Options(chosen) => chosen,
        ScannedOptions::Early(request) => return request,
    };
    let kind = match chosen.length.map(length_kind) {
        None => None,
        Some(Ok(kind)) => Some(kind),
        Some(Err(fault)) => return Err(fault),
    };
    if let Some(fault) = fault_of_options(&chosen) {
        return Err(fault);
    }
    request_of_options(tool.algos(), kind, &chosen, Operands::new(tool, words))
}

// The options read so far. `mode` is the last option that sets a mode. The last report setting and the last length
// count.
#[derive(Clone, Copy)]
struct Chosen<'a> {
    mode: Option<Flag>,
    report: Report,
    length: Option<&'a [u8]>,
    binary: bool,
    check: bool,
    tag: bool,
    text: bool,
    zero: bool,
    ignore_missing: bool,
    strict: bool,
}

// What the words contain: their options; or a request or a fault, if a single item decides.
#[derive(Drop)]
enum ScannedOptions<'a> {
    Options(Chosen<'a>),
    Early(Result<Request<'a>, WordFault<'a>>),
}

// The options among the items; or the request or the fault, if a single item decides.
fn read_options<'a, A: Allocator>(tool: Tool, words: &'a Words<A>) -> ScannedOptions<'a>
    ensures { IsScanOf result (items_from tool words.now a_word) }
{
    let mut items = Items::new(tool, words);
    let mut chosen = Chosen {
        mode: None,
        report: Report::All,
        length: None,
        binary: false,
        check: false,
        tag: false,
        text: false,
        zero: false,
        ignore_missing: false,
        strict: false,
    };
    while let Some(item) = items.next() {
        match item {
            Item::Fault(fault) => return ScannedOptions::Early(Err(fault)),
            Item::Flag(flag) => match flag {
                Flag::Help => return ScannedOptions::Early(Ok(Request::Help)),
                Flag::Version => return ScannedOptions::Early(Ok(Request::Version)),
                _ => chosen = with_flag(chosen, flag),
            },
            Item::Length(value) => chosen.length = Some(value),
            Item::Operand(_) => {}
        }
    }
    ScannedOptions::Options(chosen)
}

// The options, with one more added.
fn with_flag(mut chosen: Chosen<'_>, flag: Flag) -> Chosen<'_>
    ensures { (rest all : List ItemValue) → IsChosenBy chosen.entry (option flag ∷ rest) all →
        IsChosenBy result rest all }
{
    match flag {
        Flag::Binary => {
            chosen.mode = Some(Flag::Binary);
            chosen.binary = true;
        }
        Flag::Text => {
            chosen.mode = Some(Flag::Text);
            chosen.text = true;
        }
        Flag::Tag => {
            chosen.mode = Some(Flag::Tag);
            chosen.tag = true;
        }
        Flag::Check => chosen.check = true,
        Flag::Zero => chosen.zero = true,
        Flag::IgnoreMissing => chosen.ignore_missing = true,
        Flag::Quiet => chosen.report = Report::Quiet,
        Flag::Status => chosen.report = Report::Status,
        Flag::Warn => chosen.report = Report::Warn,
        Flag::Strict => chosen.strict = true,
        Flag::Help | Flag::Version | Flag::Length => {}
    }
    chosen
}

// The kind that a length value asks for.
fn length_kind(value: &[u8]) -> Result<Kind, WordFault<'_>>
    ensures { result_value result ≡ length_kind value.now }
{
    let Some(bits) = number(value) else {
        return Err(WordFault::LengthInvalid(value));
    };
    match Kind::blake2b_bits(bits) {
        Ok(kind) => Ok(kind),
        Err(LengthFault::TooLong) => Err(WordFault::LengthInvalid(value)),
        Err(LengthFault::NotBytes) => Err(WordFault::LengthNotBytes(value)),
    }
}

// The number of these digits. Returns `None` if the bytes aren't one or more digits, or if the number is 2^64 or more.
#[tactic(auto, using(crate::proofs::RequestLemmas::number_parsed, crate::proofs::RequestLemmas::digits_text))]
fn number(value: &[u8]) -> Option<u64>
    ensures { IsNumberOf value.now result }
{
    if !all_digits(value) {
        return None;
    }
    match str::from_utf8(value) {
        Ok(digits) => digits.parse::<u64>().ok(),
        Err(_) => None,
    }
}

// Whether all bytes are digits.
fn all_digits(bytes: &[u8]) -> bool
    ensures { result ≡ list_all is_ascii_digit bytes.now }
{
    bytes.iter().all(|byte| byte.is_ascii_digit())
}

// The first fault of the options in combination.
fn fault_of_options(chosen: &Chosen<'_>) -> Option<WordFault<'static>>
    ensures { (items : List ItemValue) → IsChosenBy chosen.now [] items →
        option_map word_fault_value result ≡ fault_of_options (filter_map option_in items) }
{
    if chosen.tag && matches!(chosen.mode, Some(Flag::Text)) {
        return Some(WordFault::TagWithText);
    }
    if chosen.zero && chosen.check {
        return Some(WordFault::ZeroWithCheck);
    }
    if chosen.tag && chosen.check {
        return Some(WordFault::TagWithCheck);
    }
    if (chosen.binary || chosen.text) && chosen.check {
        return Some(WordFault::ModeWithCheck);
    }
    if chosen.check {
        return None;
    }
    if chosen.ignore_missing {
        return Some(WordFault::IgnoreWithoutCheck);
    }
    match chosen.report {
        Report::Status => Some(WordFault::StatusWithoutCheck),
        Report::Warn => Some(WordFault::WarnWithoutCheck),
        Report::Quiet => Some(WordFault::QuietWithoutCheck),
        Report::All if chosen.strict => Some(WordFault::StrictWithoutCheck),
        Report::All => None,
    }
}

// What options without a fault ask for.
fn request_of_options<'a>(
    algos: Algos,
    kind: Option<Kind>,
    chosen: &Chosen<'_>,
    operands: Operands<'a>,
) -> Result<Request<'a>, WordFault<'a>>
    ensures { (items : List ItemValue) → IsChosenBy chosen.now [] items →
        result_value result
        ≡ request_of_options chosen.now.check algos kind (filter_map option_in items) operands.entry }
{
    if chosen.check {
        let settings = CheckSettings {
            algo: algos,
            report: chosen.report,
            strict: chosen.strict,
            ignore_missing: chosen.ignore_missing,
        };
        return Ok(Request::Check(settings, operands));
    }
    match algos {
        Algos::Any => Err(WordFault::CheckNeeded),
        Algos::One(algo) => {
            let kind = kind.unwrap_or(Kind::of(algo));
            let style = Style {
                mode: mode(chosen),
                zero: chosen.zero,
            };
            Ok(Request::Generate(Settings { kind, style }, operands))
        }
    }
}

// The mode of the lines that are written.
fn mode(chosen: &Chosen<'_>) -> Mode
    ensures { (items : List ItemValue) → IsChosenBy chosen.now [] items →
        result ≡ mode_of (filter_map option_in items) }
{
    if chosen.tag {
        return Mode::Tag;
    }
    match chosen.mode {
        Some(Flag::Binary) => Mode::Binary,
        _ => Mode::Text,
    }
}
