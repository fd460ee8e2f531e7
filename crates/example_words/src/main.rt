//! Reads its command line as the program `digests` reads one, and prints the names that a tool is to hash.
#![tactic(auto)]

ghost use Rattle.std.specs.Prelude.{◌≡◌, ◌↔◌, List, Ok, Some};
ghost use Rattle.sum_settings.specs.declared.settings.Settings.{Settings as SettingsValue};
ghost use Rattle.digest_kinds.specs.Bytes.{ByteString};
ghost use Rattle.sum_words.specs.{declared.parsing.request.Request.TheVariants.Generate, parsing.Request.request};

use std::alloc::Allocator;
use std::process::ExitCode;
use sum_settings::Settings;
use sum_words::{
    CommandLine, Operands, Request, SystemArguments, Tool, Words, read_command_line, read_words,
};

/// Returns the settings and the names with which a tool's words ask for lines, or `None` if they ask for anything else
/// or have a fault.
fn to_hash<'a, A: Allocator>(tool: Tool, words: &'a Words<A>) -> Option<(Settings, Operands<'a>)>
    ensures { (settings : SettingsValue) (names : List ByteString) →
        (result ≡ Some (settings, names))
        ↔ (request tool words.now ≡ Ok (Generate settings names)) }
{
    match read_words(tool, words) {
        Ok(Request::Generate(settings, names)) => Some((settings, names)),
        _ => None,
    }
}

fn main(rt: HostRuntime) -> anyhow::Result<ExitCode> {
    let mut arguments = SystemArguments::new(rt);
    let CommandLine::Invoke(tool, words) = read_command_line(rt.alloc(), &mut arguments)? else {
        return Ok(ExitCode::FAILURE);
    };
    let Some((settings, names)) = to_hash(tool, &words) else {
        return Ok(ExitCode::FAILURE);
    };
    println!(rt; "{tool} writes {} digests of these files:", settings.kind)?;
    for name in names {
        println!(rt; "{}", String::from_utf8_lossy(rt.alloc(), name)?)?;
    }
    Ok(ExitCode::SUCCESS)
}
