//! The texts of replies to writes and to reads: compact JSON with its keys in ascending order, and no newline.
ghost use Rattle.std.specs.Prelude.{◌≡◌, ◌≤◌, ◌++◌, [], length, Some, OnOk, OnErr};
ghost use Rattle.json.specs.Lex.{tokens};
ghost use Rattle.json.specs.Print.{print};
ghost use Rattle.serde_json.specs.Data.{depth};
ghost use Rattle.serde_json.specs.Read.{read, max_depth};
ghost use Rattle.serde_json.specs.Written.{compact_text};
ghost use Rattle.reply_values.specs.Json.{object_of};
ghost use Rattle.reply_texts.specs.Tokens.{tokens_of, ReadsBack};
ghost use Rattle.reply_texts.specs.Texts.{acks_fields, found_fields};

use crate::tokens::{put_list, write_flag};
use json::Writer;
use m3_model::{Instance, Series};
use std::alloc::{AllocError, Global};
use std::mem;

fn write_acks(acks: &[u8], instances: &[Instance], out: &mut Writer) -> Result<(), AllocError>
    ensures tokens { OnOk result (out.new.tokens ≡ out.old.tokens ++ tokens_of (object_of (acks_fields instances.now acks.now))) }
    ensures reads { OnOk result (ReadsBack (object_of (acks_fields instances.now acks.now))) }
    ensures before { out.new.before ≡ out.old.before }
{
    out.begin_object()?;
    put_list("acks", acks, instances, out)?;
    write_flag("ok", true, out)?;
    out.end_object()
}

fn write_found(
    series: &[Series],
    short: bool,
    instances: &[Instance],
    out: &mut Writer,
) -> Result<(), AllocError>
    ensures tokens { OnOk result (out.new.tokens ≡ out.old.tokens ++ tokens_of (object_of (found_fields series.now short))) }
    ensures reads { OnOk result (ReadsBack (object_of (found_fields series.now short))) }
    ensures before { out.new.before ≡ out.old.before }
{
    out.begin_object()?;
    write_flag("ok", true, out)?;
    put_list("series", series, instances, out)?;
    write_flag("short", short, out)?;
    out.end_object()
}

// Writes on behind what `text` holds, which is taken out of it meanwhile.
fn begun(alloc: Global, text: &mut Vec<u8>) -> Writer
    ensures before { result.before ≡ text.old.items }
    ensures tokens { result.tokens ≡ [] }
{
    Writer::new(mem::replace(text, Vec::new(alloc)))
}

// Gives back what was written, or only the bytes of before where memory was wanted.
fn ended(
    text: &mut Vec<u8>,
    len: usize,
    out: Writer,
    written: Result<(), AllocError>,
) -> Result<(), AllocError>
    requires front { len ≡ length out.before }
    ensures ok { OnOk result (text.new.items ≡ out.before ++ print out.tokens) }
    ensures err { OnErr result (text.new.items ≡ out.before) }
    ensures reads { tokens (print out.tokens) ≡ out.tokens }
    ensures same { result ≡ written }
{
    drop(mem::replace(text, out.into_inner()));
    match written {
        Ok(()) => Ok(()),
        Err(error) => {
            text.truncate(len);
            Err(error)
        }
    }
}

/// Appends the text of a reply: these nodes took a write.
///
/// # Errors
///
/// Memory was wanted, and nothing is appended.
pub fn acks_into(
    alloc: Global,
    text: &mut Vec<u8>,
    instances: &[Instance],
    acks: &[u8],
) -> Result<(), AllocError>
    ensures text { OnOk result (text.new.items ≡ text.old.items ++ compact_text (object_of (acks_fields instances.now acks.now))) }
    ensures nothing { OnErr result (text.new.items ≡ text.old.items) }
    ensures reads_back { OnOk result (depth (object_of (acks_fields instances.now acks.now)) ≤ max_depth → read (compact_text (object_of (acks_fields instances.now acks.now))) ≡ Some (object_of (acks_fields instances.now acks.now))) }
{
    let len = text.len();
    let mut out = begun(alloc, text);
    let written = write_acks(acks, instances, &mut out);
    ended(text, len, out, written)
}

/// Appends the text of a reply: these series were read.
///
/// # Errors
///
/// Memory was wanted, and nothing is appended.
pub fn found_into(
    alloc: Global,
    text: &mut Vec<u8>,
    instances: &[Instance],
    series: &[Series],
    short: bool,
) -> Result<(), AllocError>
    ensures text { OnOk result (text.new.items ≡ text.old.items ++ compact_text (object_of (found_fields series.now short))) }
    ensures nothing { OnErr result (text.new.items ≡ text.old.items) }
    ensures reads_back { OnOk result (depth (object_of (found_fields series.now short)) ≤ max_depth → read (compact_text (object_of (found_fields series.now short))) ≡ Some (object_of (found_fields series.now short))) }
{
    let len = text.len();
    let mut out = begun(alloc, text);
    let written = write_found(series, short, instances, &mut out);
    ended(text, len, out, written)
}
