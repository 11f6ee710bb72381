//! Values with one spelling, and lists of them behind their count.
ghost use Rattle.std.specs.Prelude.{◌≡◌, ℕ, ◌<◌, ◌≤◌, ◌++◌, length, flat_map, IfOk, IfErr, OnOk};
ghost use Rattle.std.specs.List.{All};
ghost use Rattle.meta_bytes.specs.Forms.{Counted, HasForm, IsFair, Times, StandsAs, MayFault};
ghost use Rattle.meta_bytes.specs.Lists.{ItemsStand};
ghost use Rattle.meta_bytes.specs.States.{counted_bytes};

use crate::numbers::read_number;
use crate::read_err::ReadErr;
use m3_model::{Memory, Seq};
use std::alloc::Global;
use wire_bytes::put_number;

/// A value with one spelling.
pub trait Spelled: Drop {
    ghost use Rattle.std.specs.Prelude.{List, ℕ};
    ghost use Rattle.meta_bytes.specs.Forms.{Form};

    ghost form: { Form };

    ghost spelled: { Self → List ℕ };

    ghost fits: { Self → Type 0 };

    /// The value at the offset, and the offset behind it.
    fn read(alloc: Global, bytes: &[u8], at: usize) -> Result<(Self, usize), ReadErr>
    where
        Self: Sized,
        ensures ok { IfOk result (λ r. StandsAs form (spelled r.0) bytes.now at r.1) }
        ensures fits { IfOk result (λ r. fits r.0) }
        ensures err { IfErr result (MayFault (HasForm form) bytes.now at) };

    /// Appends the value. Its numbers are to fit their fields.
    fn put(&self, out: &mut Vec<u8>) -> Result<(), Memory>
        requires { fits self.now }
        ensures { OnOk result (out.new.items ≡ out.old.items ++ spelled self.now) };
}

// So many values, from the offset on.
fn read_items<T: Spelled>(
    alloc: Global,
    bytes: &[u8],
    from: usize,
    count: u64,
) -> Result<(Seq<T>, usize), ReadErr>
    requires fair { IsFair T.form }
    requires inside { from ≤ length bytes.now }
    ensures ok { IfOk result (λ r. ItemsStand T.form T.spelled count r.0 bytes.now from r.1) }
    ensures fits { IfOk result (λ r. All T.fits r.0) }
    ensures err { IfErr result (MayFault (Times count (HasForm T.form)) bytes.now from) }
{
    let mut items = Vec::new(alloc);
    let mut offset = from;
    for _i in 0..count {
        let (item, next) = T::read(alloc, bytes, offset)?;
        items.push(item)?;
        offset = next;
    }
    Ok((Seq::from_vec(items), offset))
}

/// From `low` to `high` values behind their count, and the offset behind them.
pub(crate) fn read_all<T: Spelled>(
    alloc: Global,
    bytes: &[u8],
    at: usize,
    low: u64,
    high: u64,
) -> Result<(Seq<T>, usize), ReadErr>
    requires fair { IsFair T.form }
    requires order { low ≤ high }
    requires small { high < 256 }
    ensures ok { IfOk result (λ r. StandsAs (Counted low high T.form) (counted_bytes T.spelled r.0) bytes.now at r.1) }
    ensures few { IfOk result (λ r. length r.0 < 256) }
    ensures fits { IfOk result (λ r. All T.fits r.0) }
    ensures err { IfErr result (MayFault (HasForm (Counted low high T.form)) bytes.now at) }
{
    let (count, from) = read_number(bytes, at, 1, low, high)?;
    read_items(alloc, bytes, from, count)
}

// Appends the values.
fn put_items<T: Spelled>(out: &mut Vec<u8>, items: &[T]) -> Result<(), Memory>
    requires { All T.fits items.now }
    ensures { OnOk result (out.new.items ≡ out.old.items ++ flat_map T.spelled items.now) }
{
    for item in items {
        item.put(out)?;
    }
    Ok(())
}

/// Appends the values behind their count.
pub(crate) fn put_all<T: Spelled>(out: &mut Vec<u8>, items: &[T]) -> Result<(), Memory>
    requires few { length items.now < 256 }
    requires each { All T.fits items.now }
    ensures { OnOk result (out.new.items ≡ out.old.items ++ counted_bytes T.spelled items.now) }
{
    put_number(out, 1, items.len() as u64)?;
    put_items(out, items)
}
