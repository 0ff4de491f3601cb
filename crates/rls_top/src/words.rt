//! The words of a command.
//! Why: CHOICES.md, 41, 44.

ghost use Rattle.std.specs.Prelude.{◌≡◌, map, string_bytes};
ghost use Rattle.rls_top.specs.Words.{alone, new_of, send_of, trial_of, command_of};

use rls_ident::limits::GREATEST_NUMBER;
use rls_script::{number, number_up_to};

/// What the program is asked to do.
#[derive(Clone, Copy, Debug, PartialEq, Eq)]
pub enum Command {
    New { group: u64, me: u32, members: u32 },
    OnFile { command: FileCommand },
    Trial { seed: u32, steps: u32 },
}

/// What it is asked to do with the kept replica.
#[derive(Clone, Copy, Debug, PartialEq, Eq)]
pub enum FileCommand {
    Edit,
    Text,
    Ids,
    Stat,
    Send { to: u32 },
    Take,
    Leave,
}

/// The command that these words are.
#[tactic(auto, unfolding(crate::specs::Words::command_of))]
pub(crate) fn parsed(words: &[String]) -> Option<Command>
    ensures command { result ≡ command_of (map string_bytes words.now) }
{
    let Some((word, others)) = words.split_first() else {
        return None;
    };
    match word.as_str() {
        "new" => new(others),
        "edit" => alone(FileCommand::Edit, others),
        "text" => alone(FileCommand::Text, others),
        "ids" => alone(FileCommand::Ids, others),
        "stat" => alone(FileCommand::Stat, others),
        "send" => send(others),
        "take" => alone(FileCommand::Take, others),
        "leave" => alone(FileCommand::Leave, others),
        "trial" => trial(others),
        _ => None,
    }
}

fn alone(command: FileCommand, others: &[String]) -> Option<Command>
    ensures { result ≡ alone command (map string_bytes others.now) }
{
    if others.is_empty() {
        Some(Command::OnFile { command })
    } else {
        None
    }
}

fn new(others: &[String]) -> Option<Command>
    ensures { result ≡ new_of (map string_bytes others.now) }
{
    match others {
        [group, me, members] => {
            let group = number(group.as_str())?;
            let me = number_up_to(GREATEST_NUMBER, me.as_str())?;
            let members = number_up_to(GREATEST_NUMBER, members.as_str())?;
            Some(Command::New { group, me, members })
        }
        _ => None,
    }
}

fn send(others: &[String]) -> Option<Command>
    ensures { result ≡ send_of (map string_bytes others.now) }
{
    match others {
        [to] => {
            let to = number_up_to(GREATEST_NUMBER, to.as_str())?;
            Some(Command::OnFile {
                command: FileCommand::Send { to },
            })
        }
        _ => None,
    }
}

fn trial(others: &[String]) -> Option<Command>
    ensures { result ≡ trial_of (map string_bytes others.now) }
{
    match others {
        [seed, steps] => {
            let seed = number_up_to(2_147_483_647, seed.as_str())?;
            let steps = number_up_to(100_000, steps.as_str())?;
            Some(Command::Trial { seed, steps })
        }
        _ => None,
    }
}
