//! Whether the members of a dispatch have their forms, and those of all that follows it.

ghost use Rattle.std.specs.Prelude.{◌≡◌, option_map};
ghost use Rattle.serde_json.specs.View.{view, items_view};
ghost use Rattle.gate_frames.specs.Members as members;
ghost use Rattle.gate_frames.specs.Members.{absent_or};
ghost use Rattle.gate_frames.specs.Dispatches as spec;

use crate::kind::{FrameKind, kind_of};
use crate::member::{is_object_or_null, is_text_or_null, member_number, member_text, policy_of};
use serde_json::Value as Json;

/// The first member that is missing or of the wrong form.
#[cycle(fitting)]
pub(crate) fn dispatch_misfit(frame: &Json) -> Option<&'static str>
    ensures { option_map (λ member. member.now) result ≡ spec.dispatch_misfit (view frame.now) }
{
    if member_number(frame, "id").is_none() {
        return Some("id");
    }
    if member_text(frame, "query").is_none() {
        return Some("query");
    }
    if !operation_name_fits(frame.get("operationName")) {
        return Some("operationName");
    }
    if !variables_fit(frame.get("variables")) {
        return Some("variables");
    }
    if policy_of(frame.get("policy")).is_none() {
        return Some("policy");
    }
    if !follow_ups_fit(frame) {
        return Some("then");
    }
    None
}

fn operation_name_fits(member: Option<&Json>) -> bool
    ensures { result ≡ absent_or members.is_text_or_null (option_map (λ value. view value.now) member.entry) }
{
    match member {
        None => true,
        Some(value) => is_text_or_null(value),
    }
}

fn variables_fit(member: Option<&Json>) -> bool
    ensures { result ≡ absent_or members.is_object_or_null (option_map (λ value. view value.now) member.entry) }
{
    match member {
        None => true,
        Some(value) => is_object_or_null(value),
    }
}

/// Whether the member `then` is absent, or a list of frames that may follow.
#[cycle(fitting)]
fn follow_ups_fit(frame: &Json) -> bool
    ensures { result ≡ spec.follow_ups_fit (view frame.now) }
{
    match frame.get("then") {
        None => true,
        Some(list) => list_fits(list),
    }
}

#[cycle(fitting)]
fn list_fits(list: &Json) -> bool
    ensures { result ≡ spec.list_fits (view list.now) }
{
    match list {
        Json::Array(frames) => all_fit(frames),
        _ => false,
    }
}

#[cycle(fitting)]
fn all_fit(frames: &Vec<Json>) -> bool
    ensures { result ≡ spec.all_fit (items_view frames.now.items) }
{
    for frame in frames.iter() {
        if !follow_up_fits(frame) {
            return false;
        }
    }
    true
}

#[cycle(fitting)]
fn follow_up_fits(frame: &Json) -> bool
    ensures { result ≡ spec.follow_up_fits (view frame.now) (spec.follow_ups_fit (view frame.now)) (spec.kind_of (view frame.now)) }
{
    match kind_of(frame) {
        Some(FrameKind::Dispatch) => dispatch_misfit(frame).is_none(),
        Some(FrameKind::Teardown) => member_number(frame, "id").is_some(),
        Some(FrameKind::Online) => true,
        _ => false,
    }
}
