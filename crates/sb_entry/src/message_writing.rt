//! Writing what entries and frames share: sides, headers and contents.

ghost use Rattle.std.specs.Prelude.{◌≡◌, ◌++◌, ◌≤◌, ◌<◌, ◌^◌, length, OnOk};
ghost use Rattle.sb_fields.specs.Spelling.{flag, text16, bytes32, optional};
ghost use Rattle.sb_entry.specs.Fields.{IsNameField, HeaderFits, BodyFits, ContentFits};
ghost use Rattle.sb_model.specs.Spelling.{handle_bytes, side_bytes, header_bytes, content_bytes};

use sb_fields::{put_bytes32, put_text16, put_u8, put_u32, put_u64, put_u128};
use sb_log::{Body, Content, Handle, Header, Name, SideId};
use std::alloc::AllocError;

/// Appends an id.
#[tactic(auto, unfolding(sb_model::specs::Spelling::handle_bytes))]
pub fn put_handle(out: &mut Vec<u8>, handle: Handle) -> Result<(), AllocError>
    ensures { OnOk result (out.new.items ≡ out.old.items ++ handle_bytes handle) }
{
    put_u128(out, handle.0)
}

/// Appends a side.
#[tactic(auto, unfolding(sb_model::specs::Spelling::side_bytes))]
pub fn put_side(out: &mut Vec<u8>, side: SideId) -> Result<(), AllocError>
    ensures { OnOk result (out.new.items ≡ out.old.items ++ side_bytes side) }
{
    put_handle(out, side.conversation)?;
    put_u8(out, if side.initiator { 1 } else { 2 })
}

/// Appends a name.
pub(crate) fn put_name(out: &mut Vec<u8>, name: &Name) -> Result<(), AllocError>
    requires { IsNameField name.now }
    ensures { OnOk result (out.new.items ≡ out.old.items ++ text16 name.now) }
{
    put_text16(out, name.as_str())
}

/// Appends whether something is so.
#[tactic(auto, unfolding(sb_fields::specs::Spelling::flag))]
pub fn put_flag(out: &mut Vec<u8>, value: bool) -> Result<(), AllocError>
    ensures { OnOk result (out.new.items ≡ out.old.items ++ flag value) }
{
    put_u8(out, if value { 1 } else { 0 })
}

/// Appends an id that may be missing.
#[tactic(auto, unfolding(sb_fields::specs::Spelling::optional))]
pub(crate) fn put_optional_handle(
    out: &mut Vec<u8>,
    handle: Option<Handle>,
) -> Result<(), AllocError>
    ensures { OnOk result (out.new.items ≡ out.old.items ++ optional handle_bytes handle) }
{
    match handle {
        None => put_flag(out, false),
        Some(handle) => {
            put_flag(out, true)?;
            put_handle(out, handle)
        }
    }
}

/// Appends a header.
#[tactic(auto, unfolding(sb_model::specs::Spelling::header_bytes))]
pub fn put_header(out: &mut Vec<u8>, header: &Header) -> Result<(), AllocError>
    requires { HeaderFits header.now }
    ensures { OnOk result (out.new.items ≡ out.old.items ++ header_bytes header.now) }
{
    put_name(out, &header.from_service)?;
    put_name(out, &header.to_service)?;
    put_name(out, &header.contract)?;
    put_handle(out, header.from)?;
    put_optional_handle(out, header.to)?;
    put_u64(out, header.expires)
}

/// Appends a body that may be missing.
#[tactic(auto, unfolding(sb_fields::specs::Spelling::optional))]
pub(crate) fn put_body(out: &mut Vec<u8>, body: &Option<Body>) -> Result<(), AllocError>
    requires { BodyFits body.now }
    ensures { OnOk result (out.new.items ≡ out.old.items ++ optional bytes32 body.now) }
{
    match body {
        None => put_flag(out, false),
        Some(body) => {
            put_flag(out, true)?;
            put_bytes32(out, body.as_slice())
        }
    }
}

/// Appends what a side sends.
#[tactic(auto, unfolding(sb_model::specs::Spelling::content_bytes))]
pub fn put_content(out: &mut Vec<u8>, content: &Content) -> Result<(), AllocError>
    requires { ContentFits content.now }
    ensures { OnOk result (out.new.items ≡ out.old.items ++ content_bytes content.now) }
{
    match content {
        Content::App { kind, body } => {
            put_u8(out, 1)?;
            put_name(out, kind)?;
            put_body(out, body)
        }
        Content::EndDialog => put_u8(out, 2),
        Content::Error { code, text } => {
            put_u8(out, 3)?;
            put_u32(out, *code)?;
            put_text16(out, text.as_str())
        }
    }
}
