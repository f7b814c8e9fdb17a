//! What a frame asks for, by its member `do`.

ghost use Rattle.std.specs.Prelude.{◌≡◌};
ghost use Rattle.serde_json.specs.View.{view};
ghost use Rattle.gate_frames.specs.Dispatches as spec;

use crate::member::member_text;
use serde_json::Value as Json;

/// The kinds of frames.
#[derive(Clone, Copy, Debug, Drop, PartialEq, Eq)]
pub enum FrameKind {
    Dispatch,
    Teardown,
    Response,
    Failure,
    Online,
    Layers,
    Flat,
    Quit,
}

/// The kind that the member `do` names.
pub(crate) fn kind_of(frame: &Json) -> Option<FrameKind>
    ensures { result ≡ spec.kind_of (view frame.now) }
{
    kind_named(member_text(frame, "do")?)
}

fn kind_named(word: &str) -> Option<FrameKind>
    ensures { result ≡ spec.kind_named word.now }
{
    match word {
        "dispatch" => Some(FrameKind::Dispatch),
        "teardown" => Some(FrameKind::Teardown),
        "response" => Some(FrameKind::Response),
        "failure" => Some(FrameKind::Failure),
        "online" => Some(FrameKind::Online),
        "layers" => Some(FrameKind::Layers),
        "flat" => Some(FrameKind::Flat),
        "quit" => Some(FrameKind::Quit),
        _ => None,
    }
}
