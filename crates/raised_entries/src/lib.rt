//! Entries of an ordered map, of which the higher value stays at each key.
#![tactic(auto)]

ghost use Rattle.std.specs.Prelude.{◌≡◌, IfOk, IfErr, OnErr, MatchBool};
ghost use Rattle.std.specs.FinMap.{find};
ghost use Rattle.std.specs.BTreeMap.{insert_entry};
ghost use Rattle.raised_entries.specs.Higher.{is_higher};

use std::collections::BTreeMap;

/// Puts the value at the key, unless one at least as high stands there. Says whether it was put, in logarithmic
/// time. Want of memory changes nothing and hands the key back.
pub fn raise_entry<K: Ord + Drop>(
    entries: &mut BTreeMap<K, i64>,
    key: K,
    value: i64,
) -> Result<bool, K>
    ensures ok { IfOk result (λ put. put ≡ is_higher (find K.cmp key entries.old.entries) value) }
    ensures new { IfOk result (λ put. MatchBool put
        (entries.new.entries ≡ insert_entry K.cmp entries.old.entries key value)
        (entries.new.entries ≡ entries.old.entries)) }
    ensures back { IfErr result (λ refused. refused ≡ key) }
    ensures err { OnErr result (entries.new.entries ≡ entries.old.entries) }
{
    if let Some(&stands) = entries.get(&key) {
        if value <= stands {
            return Ok(false);
        }
    }
    match entries.insert(key, value) {
        Ok(_) => Ok(true),
        Err(refused) => {
            let (key, _) = refused.value;
            Err(key)
        }
    }
}
