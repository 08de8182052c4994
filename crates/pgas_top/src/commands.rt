ghost use Rattle.std.specs.Prelude.{◌≡◌, ℕ, List, ◌≤◌, ◌<◌, ◌^◌, [], ◌++◌, ◌∷◌, ◌↔◌, IfOk, IsTrue, codes, map, string_bytes, length, MatchOption, true, false};
ghost use Rattle.std.specs.List.{slice_split};
ghost use Rattle.clap.specs.Walk.{first_of, rows_of};
ghost use Rattle.clap.specs.Words.{found_of};
ghost use Rattle.pgas_top.specs.Commands.{AreSources, Make, NameMake, NamePlain, Names, NeedsOneThread, Plain, Request, is_comma, request_of};
ghost use Rattle.pgas_top.specs.Forms.{AreNumbers};
ghost use Rattle.pgas_top.specs.Options.{IsNumberOf, IsNumberWord};

use crate::forms::{find, make_form, plain_form};
use crate::options::{count_options, number};
use arrayvec::ArrayVec;
use clap::ArgMatches;
use std::alloc::{AllocError, Global};

/// The greatest vertex id, 2^24 - 1.
const GREATEST_ID: u64 = 0xff_ffff;

/// How many options `make` has.
const MAKE_OPTIONS: usize = 3;

/// A command that needs one thread alone, with what its words say.
#[derive(Debug, Drop)]
pub enum Command {
    /// The levels of the edge list from the sources, in one thread.
    Plain {
        sources: ArrayVec<u32, 64>,
    },
    /// Whether steps are a run of the epoch machine.
    Check,
    /// The edge list that the seed has.
    Make {
        seed: u64,
        vertices: u32,
        edges: u32,
    },
}

/// The command of one thread that the words name, or `None` where they name none. An error is want of memory.
pub fn command_of(alloc: Global, words: &[String]) -> Result<Option<Command>, AllocError>
    ensures { IfOk result (λ named. MatchOption named
        ((request : Request) → NeedsOneThread request → Names (map string_bytes words.now) request → ⊥)
        (λ command. NeedsOneThread (request_of command) × Names (map string_bytes words.now) (request_of command))) }
{
    let Some((name, rest)) = words.split_first() else {
        return Ok(None);
    };
    match name.as_str() {
        "plain" => plain_command(alloc, rest),
        "check" => Ok(check_command(rest)),
        "make" => make_command(alloc, rest),
        _ => Ok(None),
    }
}

/// Whether the words are those of the command `run`.
pub fn is_run(words: &[String]) -> bool
    ensures { IsTrue result ↔ Names (map string_bytes words.now) Request.Run }
{
    match words {
        [name] => match name.as_str() {
            "run" => true,
            _ => false,
        },
        _ => false,
    }
}

/// `plain SOURCES`.
fn plain_command(alloc: Global, words: &[String]) -> Result<Option<Command>, AllocError>
    ensures { IfOk result (λ named. MatchOption named
        ((sources : List ℕ) → NamePlain (map string_bytes words.now) sources → ⊥)
        (λ command. (sources : List ℕ) × (request_of command ≡ Plain sources) × NamePlain (map string_bytes words.now) sources)) }
{
    // Clap would let a `--` stand beside the word.
    if words.len() != 1 {
        return Ok(None);
    }
    match find(plain_form(alloc)?, words)? {
        Some(matches) => Ok(plain_of(&matches)),
        None => Ok(None),
    }
}

/// What `plain` was found to ask for.
fn plain_of(matches: &ArgMatches<'_>) -> Option<Command>
    ensures { MatchOption result
        ((text : List ℕ) (sources : List ℕ) → first_of (codes "sources") (rows_of (found_of matches.now)) ≡ Some text → AreSources (slice_split is_comma text) sources → length sources ≤ 64 → ⊥)
        (λ command. (text : List ℕ) × (sources : List ℕ) × (first_of (codes "sources") (rows_of (found_of matches.now)) ≡ Some text) × (request_of command ≡ Plain sources) × AreSources (slice_split is_comma text) sources × (length sources ≤ 64)) }
{
    match matches.get_str("sources") {
        Some(word) => match sources_of(word) {
            Some(sources) => Some(Command::Plain { sources }),
            None => None,
        },
        None => None,
    }
}

/// `check`.
fn check_command(words: &[String]) -> Option<Command>
    ensures { MatchOption result
        (map string_bytes words.now ≡ [] → ⊥)
        (λ command. (request_of command ≡ Request.Check) × (map string_bytes words.now ≡ [])) }
{
    match words {
        [] => Some(Command::Check),
        _ => None,
    }
}

/// `make --seed N --vertices N --edges N`.
fn make_command(alloc: Global, words: &[String]) -> Result<Option<Command>, AllocError>
    ensures { IfOk result (λ named. MatchOption named
        ((seed vertices edges : ℕ) → NameMake (map string_bytes words.now) seed vertices edges → ⊥)
        (λ command. (seed : ℕ) × (vertices : ℕ) × (edges : ℕ) × (request_of command ≡ Make seed vertices edges) × NameMake (map string_bytes words.now) seed vertices edges)) }
{
    // Clap would let a `--` stand behind the options, which counts as one here.
    if count_options(words) != MAKE_OPTIONS {
        return Ok(None);
    }
    match find(make_form(alloc)?, words)? {
        Some(matches) => Ok(make_of(&matches)),
        None => Ok(None),
    }
}

/// What `make` was found to ask for.
fn make_of(matches: &ArgMatches<'_>) -> Option<Command>
    ensures { MatchOption result
        ((seed vertices edges : ℕ) → AreNumbers (rows_of (found_of matches.now)) seed vertices edges → ⊥)
        (λ command. (seed : ℕ) × (vertices : ℕ) × (edges : ℕ) × (request_of command ≡ Make seed vertices edges) × AreNumbers (rows_of (found_of matches.now)) seed vertices edges) }
{
    let seed = number_of(matches, "seed", u64::MAX)?;
    let vertices = number_of(matches, "vertices", 1 << 24)? as u32;
    let edges = number_of(matches, "edges", 1 << 25)? as u32;
    if vertices == 0 {
        return None;
    }
    Some(Command::Make {
        seed,
        vertices,
        edges,
    })
}

/// The number that was found for the option, or `None` where there is none up to the greatest.
fn number_of(matches: &ArgMatches<'_>, name: &str, greatest: u64) -> Option<u64>
    ensures { MatchOption result
        ((n : ℕ) → IsNumberOf (first_of name.now (rows_of (found_of matches.now))) n → n ≤ greatest → ⊥)
        (λ n. IsNumberOf (first_of name.now (rows_of (found_of matches.now))) n × (n ≤ greatest)) }
{
    match matches.get_str(name) {
        Some(word) => number(word, greatest),
        None => None,
    }
}

/// The vertices that a word lists, parted by single commas, or `None` where a part is no vertex or there
/// are more than 64.
fn sources_of(word: &str) -> Option<ArrayVec<u32, 64>>
    ensures { MatchOption result
        ((sources : List ℕ) → AreSources (slice_split is_comma word.now) sources → length sources ≤ 64 → ⊥)
        (λ sources. AreSources (slice_split is_comma word.now) sources.items × (length sources.items ≤ 64)) }
{
    let mut sources = ArrayVec::new();
    let mut rest = word;
    while let Some((first, others)) = rest.split_once(',') {
        if !push_source(&mut sources, first) {
            return None;
        }
        rest = others;
    }
    if !push_source(&mut sources, rest) {
        return None;
    }
    Some(sources)
}

/// Adds the vertex that the word is, or answers false where it is none or there are 64 already.
fn push_source(sources: &mut ArrayVec<u32, 64>, word: &str) -> bool
    ensures added { result ≡ true → (source : ℕ) × IsNumberWord word.now source × (source < 2 ^ 24) × (sources.new.items ≡ sources.old.items ++ source ∷ []) × (length sources.old.items < 64) }
    ensures none { result ≡ false → (source : ℕ) → IsNumberWord word.now source → source < 2 ^ 24 → length sources.old.items < 64 → ⊥ }
{
    match number(word, GREATEST_ID) {
        Some(source) => sources.try_push(source as u32).is_ok(),
        None => false,
    }
}
