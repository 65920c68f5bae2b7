ghost use Rattle.std.specs.Prelude.{◌≡◌};
ghost use Rattle.serde_json.specs.View.{view};
ghost use Rattle.voy_event.specs.Words.{change_op, event_kind, kind_of_text, number_at, op_of_text, role_at, role_of_text, text_of_role};

use serde_json::Value as Json;
use voy_json::text_at;
use voy_tables::Role;

/// What a change line says was done to its row.
#[derive(Clone, Copy, Debug, PartialEq, Eq)]
pub(crate) enum Op {
    Insert,
    Update,
    Delete,
}

/// What an event line is, by its `op`.
#[derive(Clone, Copy, Debug, PartialEq, Eq)]
pub(crate) enum EventKind {
    Change(Op),
    CutoverTarget,
    CutoverSource,
}

#[tactic(auto, unfolding(crate::specs::Words::op_of_text))]
pub(crate) fn op_of_text(text: &str) -> Option<Op>
    ensures { result ≡ op_of_text text.now }
{
    match text {
        "c" => Some(Op::Insert),
        "u" => Some(Op::Update),
        "d" => Some(Op::Delete),
        _ => None,
    }
}

#[tactic(auto, unfolding(crate::specs::Words::kind_of_text))]
pub(crate) fn kind_of_text(text: &str) -> Option<EventKind>
    ensures { result ≡ kind_of_text text.now }
{
    match text {
        "cutover.target" => Some(EventKind::CutoverTarget),
        "cutover.source" => Some(EventKind::CutoverSource),
        _ => op_of_text(text).map(EventKind::Change),
    }
}

#[tactic(auto, unfolding(crate::specs::Words::role_of_text))]
pub(crate) fn role_of_text(text: &str) -> Option<Role>
    ensures { result ≡ role_of_text text.now }
{
    match text {
        "source_db_exporter" => Some(Role::Source),
        "target_db_exporter_fb" => Some(Role::Target),
        _ => None,
    }
}

#[tactic(auto, unfolding(crate::specs::Words::text_of_role))]
pub(crate) fn text_of_role(role: Role) -> &'static str
    ensures { result.now ≡ text_of_role role }
{
    match role {
        Role::Source => "source_db_exporter",
        Role::Target => "target_db_exporter_fb",
    }
}

/// The whole number at this name of the line, written without fraction and exponent.
pub(crate) fn number_at(line: &Json, name: &str) -> Option<u64>
    ensures { result ≡ number_at name.now (view line.now) }
{
    line.get(name).and_then(Json::as_u64)
}

/// What an event line is, by its `op`.
pub(crate) fn event_kind(line: &Json) -> Option<EventKind>
    ensures { result ≡ event_kind (view line.now) }
{
    text_at(line, "op").and_then(kind_of_text)
}

/// What a change line does, by its `op`.
pub(crate) fn change_op(line: &Json) -> Option<Op>
    ensures { result ≡ change_op (view line.now) }
{
    text_at(line, "op").and_then(op_of_text)
}

/// The exporter that an event line names.
pub(crate) fn role_at(line: &Json) -> Option<Role>
    ensures { result ≡ role_at (view line.now) }
{
    text_at(line, "exporter_role").and_then(role_of_text)
}
