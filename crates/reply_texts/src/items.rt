ghost use Rattle.std.specs.Prelude.{◌≡◌, ◌++◌, OnOk};
ghost use Rattle.serde_json.specs.Data.{number};
ghost use Rattle.serde_json.specs.Find.{of_integer};
ghost use Rattle.reply_values.specs.Json.{natural};
ghost use Rattle.reply_items.specs.Names.{node_data};
ghost use Rattle.reply_items.specs.Series.{pair_data, series_data};
ghost use Rattle.reply_texts.specs.Texts.{series_of};
ghost use Rattle.reply_texts.specs.Tokens.{tokens_of, ReadsBack};

use crate::tokens::{Tokens, put_list, write_text};
use json::Writer;
use m3_model::{Instance, Series};
use reply_items::node_name;
use std::alloc::AllocError;

/// A node's number stands as its name.
impl Tokens for u8 {
    ghost data_of = { node_data };

    fn write(&self, instances: &[Instance], out: &mut Writer) -> Result<(), AllocError> {
        out.string(node_name(instances, *self))
    }
}

fn write_time(t: u64, out: &mut Writer) -> Result<(), AllocError>
    ensures tokens { OnOk result (out.new.tokens ≡ out.old.tokens ++ tokens_of (natural t)) }
    ensures reads { ReadsBack (natural t) }
    ensures before { out.new.before ≡ out.old.before }
{
    out.u64(t)
}

fn write_value(v: i64, out: &mut Writer) -> Result<(), AllocError>
    ensures tokens { OnOk result (out.new.tokens ≡ out.old.tokens ++ tokens_of (number (of_integer v))) }
    ensures reads { ReadsBack (number (of_integer v)) }
    ensures before { out.new.before ≡ out.old.before }
{
    out.i64(v)
}

/// A time with its value.
impl Tokens for (u64, i64) {
    ghost data_of = { λ _ pair. pair_data pair };

    fn write(&self, _instances: &[Instance], out: &mut Writer) -> Result<(), AllocError> {
        out.begin_array()?;
        write_time(self.0, out)?;
        write_value(self.1, out)?;
        out.end_array()
    }
}

fn write_series(
    id: &str,
    points: &[(u64, i64)],
    instances: &[Instance],
    out: &mut Writer,
) -> Result<(), AllocError>
    ensures tokens { OnOk result (out.new.tokens ≡ out.old.tokens ++ tokens_of (series_of id.now points.now)) }
    ensures reads { OnOk result (ReadsBack (series_of id.now points.now)) }
    ensures before { out.new.before ≡ out.old.before }
{
    out.begin_object()?;
    write_text("id", id, out)?;
    put_list("points", points, instances, out)?;
    out.end_object()
}

/// An identifier with its points.
impl Tokens for Series {
    ghost data_of = { λ _ series. series_data series };

    fn write(&self, instances: &[Instance], out: &mut Writer) -> Result<(), AllocError> {
        write_series(self.id.as_str(), self.points.as_slice(), instances, out)
    }
}
