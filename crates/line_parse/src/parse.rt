//! A line's bytes to a tree.
ghost use Rattle.std.specs.Prelude.{◌≡◌, ◌≢◌, IfOk, IfErr, None, Some, IsUtf8};
ghost use Rattle.json.specs.Value.{value_view, items_view, members_view};
ghost use Rattle.json.specs.declared.error.Error.TheVariants.{OutOfMemory};
ghost use Rattle.serde_json.specs.Read.{read};
ghost use Rattle.line_parse.specs.Contents.{content, has_values, items_have_values, members_have_values};

use crate::numbers::has_number;
use json::{Error, Reader, Scratch, Value};
use std::alloc::Global;

// As deep as serde_json lets arrays and objects nest.
const MAX_DEPTH: usize = 127;

#[cycle(values)]
fn has_values(value: &Value<'_>) -> bool
    ensures { result ≡ has_values (value_view value.now) }
{
    match value {
        Value::Number(text) => has_number(text),
        Value::Array(items) => items_have_values(items.as_slice()),
        Value::Object(members) => members_have_values(members.as_slice()),
        _ => true,
    }
}

#[cycle(values)]
fn items_have_values(items: &[Value<'_>]) -> bool
    ensures { result ≡ items_have_values (items_view items.now) }
{
    for item in items {
        if !has_values(item) {
            return false;
        }
    }
    true
}

#[cycle(values)]
fn members_have_values<'a>(members: &[(&'a str, Value<'a>)]) -> bool
    ensures { result ≡ members_have_values (members_view members.now) }
{
    for member in members {
        if !has_values(&member.1) {
            return false;
        }
    }
    true
}

fn parse_text<'a>(
    alloc: Global,
    text: &'a str,
    scratch: &'a mut Scratch,
) -> Result<Value<'a>, Error>
    ensures ok { IfOk result (λ v. read text.now ≡ Some (content v)) }
    ensures err { IfErr result (λ e. e ≢ OutOfMemory → read text.now ≡ None) }
{
    let mut reader = Reader::new(text, scratch)?;
    let value = Value::read(alloc, &mut reader, MAX_DEPTH)?;
    if reader.next().is_some() {
        return Err(Error::Invalid);
    }
    if has_values(&value) {
        Ok(value)
    } else {
        Err(Error::Invalid)
    }
}

/// The value that a line is, by the grammar and the numbers of serde_json. Its texts are the line's own but for those with
/// escapes, which stand in the scratch.
///
/// An error other than `OutOfMemory` says that the line isn't UTF-8, or that serde_json reads nothing from it.
pub fn parse<'a>(
    alloc: Global,
    line: &'a [u8],
    scratch: &'a mut Scratch,
) -> Result<Value<'a>, Error>
    ensures utf8 { IfOk result (λ v. IsUtf8 line.now) }
    ensures ok { IfOk result (λ v. read line.now ≡ Some (content v)) }
    ensures err { IfErr result (λ e. e ≢ OutOfMemory → IsUtf8 line.now → read line.now ≡ None) }
{
    match str::from_utf8(line) {
        Ok(text) => parse_text(alloc, text, scratch),
        Err(_) => Err(Error::Invalid),
    }
}
