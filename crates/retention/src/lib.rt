//! Which times have outlived the retention of their namespace.
#![tactic(auto)]

ghost use Rattle.std.specs.Prelude.{◌≡◌, ℕ, None, false, nat_le, slice_get, IfSome};
ghost use Rattle.std.specs.Option.{option_copied};
ghost use Rattle.retention.specs.Expiry.{has_ended};

use m3_model::{Rules, Space};

/// The namespace at this position, if it is there.
pub fn space_of(rules: &Rules, ns: u8) -> Option<&Space>
    ensures { option_copied result ≡ slice_get rules.entry.now.spaces ns }
{
    rules.spaces.as_slice().get(ns as usize)
}

/// The last time of the namespace whose retention has ended, if there is one.
pub fn last_expired(rules: &Rules, ns: u8) -> Option<u64>
    ensures none { result ≡ None → (t : ℕ) → has_ended (slice_get rules.entry.now.spaces ns) rules.entry.now.now t ≡ false }
    ensures some { IfSome result (λ last. (t : ℕ) → has_ended (slice_get rules.entry.now.spaces ns) rules.entry.now.now t ≡ nat_le t last) }
{
    match space_of(rules, ns) {
        Some(space) => {
            if space.retention <= rules.now {
                Some(rules.now - space.retention)
            } else {
                None
            }
        }
        None => None,
    }
}
