// The lines that are said.
ghost use Rattle.std.specs.Prelude.{◌≡◌, ◌++◌, List, ℕ, flat_map, codes, decimal, IfOk, OnOk, OnErr, IfErr, string_bytes};
ghost use Rattle.cache_model.specs.Replies.{opened_line, line_of, reply_text, refusal_text, figures_text};
ghost use Rattle.cache_model.specs.Tokens.{token_text};
ghost use Rattle.cache_model.specs.declared.faults.ModelFault.TheVariants.{Memory};
ghost use Rattle.cache_script.specs.Damages.{kind_text, damage_line};
ghost use Rattle.cache_script.specs.FileNames.{text_of};
ghost use Rattle.cache_script.specs.Pushing.{Pushes};
ghost use Rattle.cache_script.specs.Refusals.{refusal_of};

use crate::LineFault;
use crate::pushing::{push_bytes, push_token};
use cache_model::{BadKind, Damage, Figures, Key, ModelFault, Reply, Turned};
use std::alloc::{AllocError, Global};

/// The line that a session begins with.
pub fn opened_line(alloc: Global, moment: u64) -> Result<String, AllocError>
    ensures { IfOk result (λ line. string_bytes line ≡ opened_line moment) }
{
    format!(in alloc; "opened {moment}\n")
}

/// Adds the line of a reply, with its line feed. Where memory is wanted for it, nothing is added.
pub fn write_reply(reply: &Reply, out: &mut Vec<u8>) -> Result<(), ModelFault>
    ensures written { OnOk result (out.new.items ≡ out.old.items ++ line_of (reply_text reply.now)) }
    ensures left { OnErr result (out.new.items ≡ out.old.items) }
    ensures memory { IfErr result (λ fault. fault ≡ Memory) }
{
    let length = out.len();
    let Ok(()) = push_reply_line(out, reply) else {
        out.truncate(length);
        return Err(ModelFault::Memory);
    };
    Ok(())
}

/// Adds the line of a refusal, with its line feed. Where memory is wanted for it, nothing is added.
pub fn write_fault(fault: &LineFault, out: &mut Vec<u8>) -> Result<(), ModelFault>
    ensures written { OnOk result (out.new.items ≡ out.old.items ++ line_of (refusal_text (refusal_of fault.now))) }
    ensures left { OnErr result (out.new.items ≡ out.old.items) }
    ensures memory { IfErr result (λ fault. fault ≡ Memory) }
{
    let length = out.len();
    let Ok(()) = push_fault_line(out, fault) else {
        out.truncate(length);
        return Err(ModelFault::Memory);
    };
    Ok(())
}

// Adds the line of a reply.
fn push_reply_line(out: &mut Vec<u8>, reply: &Reply) -> Result<(), AllocError>
    ensures { Pushes (line_of (reply_text reply.now)) out.old.items out.new.items result }
{
    push_reply(out, reply)?;
    push_bytes(out, b"\n")
}

// Adds the line of a refusal.
fn push_fault_line(out: &mut Vec<u8>, fault: &LineFault) -> Result<(), AllocError>
    ensures { Pushes (line_of (refusal_text (refusal_of fault.now))) out.old.items out.new.items result }
{
    push_fault(out, fault)?;
    push_bytes(out, b"\n")
}

// Adds the text of a reply.
fn push_reply(out: &mut Vec<u8>, reply: &Reply) -> Result<(), AllocError>
    ensures { Pushes (reply_text reply.now) out.old.items out.new.items result }
{
    match reply {
        Reply::Done => push_bytes(out, b"ok"),
        Reply::Kept => push_bytes(out, b"kept"),
        Reply::Nothing => push_bytes(out, b"none"),
        Reply::Differs => push_bytes(out, b"differs"),
        Reply::Found(value) => push_value(out, value.bytes()),
        Reply::Yes => push_bytes(out, b"yes"),
        Reply::No => push_bytes(out, b"no"),
        Reply::Size(count) => push_number(out, "size ", *count),
        Reply::Keys(list) => push_keys(out, list.keys()),
        Reply::Cleared(count) => push_number(out, "cleared ", *count),
        Reply::Turned(Turned::Done) => push_bytes(out, b"done"),
        Reply::Turned(Turned::Idle) => push_bytes(out, b"idle"),
        Reply::Compacted => push_bytes(out, b"compacted"),
        Reply::Stats(figures) => push_figures(out, figures),
        Reply::Exported(count) => push_number(out, "exported ", *count),
        Reply::Past(moment) => push_number(out, "refused past ", *moment),
        Reply::Stopped => push_bytes(out, b"stopped"),
        Reply::Halted => push_bytes(out, b"halted"),
    }
}

// Adds the text of a refusal.
fn push_fault(out: &mut Vec<u8>, fault: &LineFault) -> Result<(), AllocError>
    ensures { Pushes (refusal_text (refusal_of fault.now)) out.old.items out.new.items result }
{
    match fault {
        LineFault::Syntax => push_bytes(out, b"refused syntax"),
        LineFault::Key(length) => push_number(out, "refused key ", *length as u64),
        LineFault::Value(length) => push_number(out, "refused value ", *length as u64),
        LineFault::Ttl => push_bytes(out, b"refused ttl"),
        LineFault::Memory => push_bytes(out, b"refused memory"),
    }
}

// Adds a text and a number behind it.
fn push_number(out: &mut Vec<u8>, text: &str, number: u64) -> Result<(), AllocError>
    ensures { Pushes (text.now ++ decimal number) out.old.items out.new.items result }
{
    let line = format!(in *out.allocator(); "{text}{number}")?;
    push_bytes(out, line.as_bytes())
}

// Adds the text of a value that was found.
fn push_value(out: &mut Vec<u8>, value: &[u8]) -> Result<(), AllocError>
    ensures { Pushes (codes "value " ++ token_text value.now) out.old.items out.new.items result }
{
    push_bytes(out, b"value ")?;
    push_token(out, value)
}

// Adds the text of a list of keys.
fn push_keys(out: &mut Vec<u8>, keys: &[Key]) -> Result<(), AllocError>
    ensures { Pushes (codes "keys" ++ flat_map (λ key. codes " " ++ token_text key) keys.now) out.old.items out.new.items result }
{
    push_bytes(out, b"keys")?;
    push_key_words(out, keys)
}

// Adds each key with a space in front.
fn push_key_words(out: &mut Vec<u8>, keys: &[Key]) -> Result<(), AllocError>
    ensures { Pushes (flat_map (λ key. codes " " ++ token_text key) keys.now) out.old.items out.new.items result }
{
    for key in keys {
        push_key_word(out, key.bytes())?;
    }
    Ok(())
}

// Adds a key with a space in front.
fn push_key_word(out: &mut Vec<u8>, key: &[u8]) -> Result<(), AllocError>
    ensures { Pushes (codes " " ++ token_text key.now) out.old.items out.new.items result }
{
    push_bytes(out, b" ")?;
    push_token(out, key)
}

// Adds the text of a store's figures.
fn push_figures(out: &mut Vec<u8>, figures: &Figures) -> Result<(), AllocError>
    ensures { Pushes (codes "stats" ++ figures_text figures.now) out.old.items out.new.items result }
{
    let text = figures_text(*out.allocator(), figures)?;
    push_bytes(out, text.as_bytes())
}

// The text of a store's figures.
fn figures_text(alloc: Global, figures: &Figures) -> Result<String, AllocError>
    ensures { IfOk result (λ text. string_bytes text ≡ codes "stats" ++ figures_text figures.now) }
{
    let Figures {
        files,
        bytes,
        live,
        pending,
        held,
    } = *figures;
    format!(in alloc; "stats files {files} bytes {bytes} live {live} pending {pending} held {held}")
}

/// The line of a damage: `damaged`, the file, the offset in bytes and the kind.
pub fn damaged_line(alloc: Global, file: &str, damage: &Damage) -> Result<String, AllocError>
    ensures { file.now ≡ text_of damage.now.file → IfOk result (λ line. string_bytes line ≡ damage_line damage.now) }
{
    let at = damage.at;
    let kind = kind_word(damage.kind);
    format!(in alloc; "damaged {file} {at} {kind}\n")
}

// The word for a kind of damage.
fn kind_word(kind: BadKind) -> &'static str
    ensures { result.now ≡ kind_text kind }
{
    match kind {
        BadKind::Tag(_) => "tag",
        BadKind::KeyLength(_) => "key",
        BadKind::ValueLength(_) => "value",
        BadKind::Until(_) => "until",
        BadKind::Moment(_) => "moment",
        BadKind::Sequence(_) => "sequence",
        BadKind::Version(_) => "version",
        BadKind::Cut => "cut",
        BadKind::Order => "order",
        BadKind::Gate(_) => "gate",
        BadKind::Node => "node",
        BadKind::Place => "place",
    }
}
