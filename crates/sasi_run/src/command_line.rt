// The words of the command line.
ghost use Rattle.std.specs.Prelude.{◌≡◌, ◌<◌, IfSome, IfNone, length, map, string_bytes};
ghost use Rattle.sasi_run.specs.CommandLine.{is_option, is_path, partitioner_named, asked_by, IsCommand, IsCommandLine};

use crate::Command;
use sasi_types::Partitioner;

// A path isn't empty and doesn't begin with a dash.
fn is_path_word(word: &[u8]) -> bool
    ensures { result ≡ is_path word.now }
{
    match word {
        [] => false,
        [first, ..] => *first != b'-',
    }
}

// The option that asks for a partitioner.
fn is_partitioner_option(word: &[u8]) -> bool
    ensures { result ≡ is_option word.now }
{
    word == b"--partitioner".as_slice()
}

fn partitioner_of(name: &[u8]) -> Option<Partitioner>
    ensures { result ≡ partitioner_named name.now }
{
    if name == b"lead8".as_slice() {
        Some(Partitioner::Lead8)
    } else if name == b"murmur3".as_slice() {
        Some(Partitioner::Murmur3)
    } else {
        None
    }
}

/// Reads the words of the command line, without the program's own: a folder and a script, behind `--partitioner` and a
/// partitioner's name or not. None where they are anything else.
pub fn command(words: &[String]) -> Option<Command>
    ensures some { IfSome result (λ command. IsCommand (map (λ w. string_bytes w) words.now) command) }
    ensures asked { IfSome result (λ command. command.partitioner ≡ asked_by (map (λ w. string_bytes w) words.now)) }
    ensures within { IfSome result (λ command. (command.folder < length words.now) × (command.script < length words.now)) }
    ensures none { IfNone result (IsCommandLine (map (λ w. string_bytes w) words.now) → ⊥) }
{
    match words {
        [folder, script] if is_path_word(folder.as_bytes()) && is_path_word(script.as_bytes()) => {
            Some(Command {
                partitioner: None,
                folder: 0,
                script: 1,
            })
        }
        [option, name, folder, script]
            if is_partitioner_option(option.as_bytes())
                && is_path_word(folder.as_bytes())
                && is_path_word(script.as_bytes()) => {
            let partitioner = partitioner_of(name.as_bytes())?;
            Some(Command {
                partitioner: Some(partitioner),
                folder: 2,
                script: 3,
            })
        }
        _ => None,
    }
}
