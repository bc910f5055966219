//! Whether keys rise.

ghost use Rattle.std.specs.Prelude.{◌≡◌};
ghost use Rattle.log_codec.specs.Grammar.{is_above, rise};

/// Whether a key comes behind the last one, where there is one.
fn is_above<K: Ord + Copy>(last: Option<K>, key: K) -> bool
    ensures { result ≡ is_above K.cmp last key }
{
    match last {
        None => true,
        Some(last) => last.cmp(&key).is_lt(),
    }
}

/// Whether each key comes behind the one before it.
pub(crate) fn rises<K: Ord + Copy>(keys: &[K]) -> bool
    ensures { result ≡ rise K.cmp keys.now }
{
    let mut last = None;
    for key in keys {
        if !is_above(last, *key) {
            return false;
        }
        last = Some(*key);
    }
    true
}
