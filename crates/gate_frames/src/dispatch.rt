//! The command that a dispatch asks for, with those that follow it.

ghost use Rattle.std.specs.Prelude.{◌≡◌, ◌++◌, List, Ok, IfOk, IfErr, option_map, codes, decimal};
ghost use Rattle.serde_json.specs.View.{view, items_view};
ghost use Rattle.machine_model.specs.declared.command.Command.{Command};
ghost use Rattle.gate_frames.specs.Dispatches as spec;
ghost use Rattle.gate_frames.specs.Unread.{TellsPath};

use crate::kind::{FrameKind, kind_of};
use crate::member::{member_number, member_text, policy_of};
use crate::unread::Unread;
use crate::variables::read_variables;
use gql_value::Members;
use machine_model::{Command, Commands, Dispatch};
use send_rules::Policy;
use serde_json::Value as Json;
use std::alloc::Global;
use text_types::{Memory, Text};

/// What a frame asks for that is a dispatch. What it lacks counts as 0 or as empty, so its members
/// are to be tested before.
#[cycle(reading)]
pub(crate) fn read_dispatch(
    alloc: Global,
    peer: u64,
    line: u64,
    frame: &Json,
) -> Result<Dispatch, Unread>
    ensures ok { IfOk result (λ dispatch. spec.dispatch_read peer line (view frame.now) ≡ Ok dispatch) }
    ensures unread { IfErr result (TellsPath (spec.dispatch_read peer line (view frame.now))) }
{
    let variables = read_variables(alloc, frame.get("variables"))?;
    let follow_ups = read_follow_ups(alloc, peer, line, frame)?;
    Ok(dispatch_asked(alloc, peer, line, frame, variables, follow_ups)?)
}

fn dispatch_asked(
    alloc: Global,
    peer: u64,
    line: u64,
    frame: &Json,
    variables: Members,
    follow_ups: Commands,
) -> Result<Dispatch, Memory>
    ensures { IfOk result (λ dispatch. dispatch ≡ spec.dispatch_asked peer line (view frame.now) variables follow_ups) }
{
    Ok(Dispatch {
        peer,
        id: member_number(frame, "id").unwrap_or(0),
        line,
        query: Text::from_str(alloc, member_text(frame, "query").unwrap_or(""))?,
        operation: copy_text(alloc, member_text(frame, "operationName"))?,
        variables,
        policy: policy_of(frame.get("policy")).unwrap_or(Policy::CacheFirst),
        then: follow_ups,
    })
}

fn copy_text(alloc: Global, text: Option<&str>) -> Result<Option<Text>, Memory>
    ensures { IfOk result (λ copy. copy ≡ option_map (λ text. text.now) text.entry) }
{
    match text {
        None => Ok(None),
        Some(text) => Ok(Some(Text::from_str(alloc, text)?)),
    }
}

/// The commands of the member `then`.
#[cycle(reading)]
fn read_follow_ups(alloc: Global, peer: u64, line: u64, frame: &Json) -> Result<Commands, Unread>
    ensures ok { IfOk result (λ commands. spec.follow_ups_read peer line (view frame.now) ≡ Ok commands) }
    ensures unread { IfErr result (TellsPath (spec.follow_ups_read peer line (view frame.now))) }
{
    match frame.get("then") {
        None => Ok(Commands::new(alloc)),
        Some(list) => read_list(alloc, peer, line, list),
    }
}

#[cycle(reading)]
fn read_list(alloc: Global, peer: u64, line: u64, list: &Json) -> Result<Commands, Unread>
    ensures ok { IfOk result (λ commands. spec.list_read peer line (view list.now) ≡ Ok commands) }
    ensures unread { IfErr result (TellsPath (spec.list_read peer line (view list.now))) }
{
    match list {
        Json::Array(frames) => read_all(alloc, peer, line, frames),
        _ => Ok(Commands::new(alloc)),
    }
}

#[cycle(reading)]
fn read_all(alloc: Global, peer: u64, line: u64, frames: &Vec<Json>) -> Result<Commands, Unread>
    ensures ok { IfOk result (λ commands. spec.all_read peer line 0 (items_view frames.now.items) ≡ Ok commands) }
    ensures unread { IfErr result (TellsPath (spec.all_read peer line 0 (items_view frames.now.items))) }
{
    let mut commands = Commands::new(alloc);
    'frames: for (at, frame) in frames.iter().enumerate() {
        match read_follow_up(alloc, peer, line, frame) {
            Ok(command) => commands.push(command)?,
            Err(unread) => return Err(behind_index(alloc, at, unread)),
        }
    }
    Ok(commands)
}

/// A frame that may follow, as its command.
#[cycle(reading)]
fn read_follow_up(alloc: Global, peer: u64, line: u64, frame: &Json) -> Result<Command, Unread>
    ensures ok { IfOk result (λ command. spec.follow_up_read peer line (view frame.now) (spec.follow_ups_read peer line (view frame.now)) (spec.kind_of (view frame.now)) ≡ Ok command) }
    ensures unread { IfErr result (TellsPath (spec.follow_up_read peer line (view frame.now) (spec.follow_ups_read peer line (view frame.now)) (spec.kind_of (view frame.now)))) }
{
    match kind_of(frame) {
        Some(FrameKind::Dispatch) => Ok(Command::Dispatch(read_dispatch(
            alloc, peer, line, frame,
        )?)),
        Some(FrameKind::Teardown) => Ok(Command::Teardown {
            peer,
            id: member_number(frame, "id").unwrap_or(0),
            line,
        }),
        _ => Ok(Command::Online),
    }
}

/// The same, told from the frame whose list has it at this index.
fn behind_index(alloc: Global, at: usize, unread: Unread) -> Unread
    ensures { (read : spec.Read Command) (rest : spec.Read (List Command)) → TellsPath read unread → TellsPath (spec.one_more at read rest) result }
{
    match unread {
        Unread::Memory => Unread::Memory,
        Unread::NotWhole { path } => match indexed_path(alloc, at, &path) {
            Ok(path) => Unread::NotWhole { path },
            Err(_) => Unread::Memory,
        },
    }
}

fn indexed_path(alloc: Global, at: usize, path: &Text) -> Result<Text, Memory>
    ensures { IfOk result (λ whole. whole ≡ codes "then." ++ (decimal at ++ (codes "." ++ path.now))) }
{
    let mut whole = Text::from_str(alloc, "then.")?;
    whole.push(&Text::from_string(at.to_string(alloc)?))?;
    whole.push_str(".")?;
    whole.push(path)?;
    Ok(whole)
}
