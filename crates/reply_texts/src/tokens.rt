ghost use Rattle.std.specs.Prelude.{◌≡◌, ◌++◌, [], ◌∷◌, OnOk};
ghost use Rattle.json.specs.Token.{key, string, boolean};
ghost use Rattle.reply_values.specs.Json.{list_of};
ghost use Rattle.reply_texts.specs.Tokens.{tokens_of, ReadsBack};

use json::Writer;
use m3_model::Instance;
use std::alloc::AllocError;

/// What is written into a reply, token by token.
pub(crate) trait Tokens {
    /// Its JSON, where the names of nodes come from these instances.
    ghost use Rattle.std.specs.Prelude.{List};
    ghost use Rattle.serde_json.specs.Data.{Data};
    ghost use Rattle.m3_model.specs.declared.placement.Instance.{Instance};

    ghost data_of: { List Instance → Self → Data };

    fn write(&self, instances: &[Instance], out: &mut Writer) -> Result<(), AllocError>
        ensures tokens { OnOk result (out.new.tokens ≡ out.old.tokens ++ tokens_of (data_of instances.now self.now)) }
        ensures reads { OnOk result (ReadsBack (data_of instances.now self.now)) }
        ensures before { out.new.before ≡ out.old.before };
}

/// A key with a text.
pub(crate) fn write_text(name: &str, text: &str, out: &mut Writer) -> Result<(), AllocError>
    ensures tokens { OnOk result (out.new.tokens ≡ out.old.tokens ++ key name.now ∷ string text.now ∷ []) }
    ensures before { out.new.before ≡ out.old.before }
{
    out.key(name)?;
    out.string(text)
}

/// A key with a word that is true or false.
pub(crate) fn write_flag(name: &str, is: bool, out: &mut Writer) -> Result<(), AllocError>
    ensures tokens { OnOk result (out.new.tokens ≡ out.old.tokens ++ key name.now ∷ boolean is ∷ []) }
    ensures before { out.new.before ≡ out.old.before }
{
    out.key(name)?;
    out.boolean(is)
}

/// The list of what stands for each item, in their order.
fn write_list<T: Tokens>(
    items: &[T],
    instances: &[Instance],
    out: &mut Writer,
) -> Result<(), AllocError>
    ensures tokens { OnOk result (out.new.tokens ≡ out.old.tokens ++ tokens_of (list_of (T.data_of instances.now) items.now)) }
    ensures reads { OnOk result (ReadsBack (list_of (T.data_of instances.now) items.now)) }
    ensures before { out.new.before ≡ out.old.before }
{
    out.begin_array()?;
    for item in items {
        item.write(instances, out)?;
    }
    out.end_array()
}

/// A key with such a list.
pub(crate) fn put_list<T: Tokens>(
    name: &str,
    items: &[T],
    instances: &[Instance],
    out: &mut Writer,
) -> Result<(), AllocError>
    ensures tokens { OnOk result (out.new.tokens ≡ out.old.tokens ++ key name.now ∷ tokens_of (list_of (T.data_of instances.now) items.now)) }
    ensures reads { OnOk result (ReadsBack (list_of (T.data_of instances.now) items.now)) }
    ensures before { out.new.before ≡ out.old.before }
{
    out.key(name)?;
    write_list(items, instances, out)
}
