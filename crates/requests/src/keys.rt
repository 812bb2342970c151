// The keys of the standings, as `--by` names them: a list of one to three names, none twice.
ghost use Rattle.std.specs.Prelude.{◌≡◌, ◌<◌, [], ◌∷◌, length, option_map, IfSome};
ghost use Rattle.std.specs.List.{list_any};
ghost use Rattle.requests.specs.KeySteps.{names_left, with_key};
ghost use Rattle.requests.specs.Keys.{is_same, key_named, keys_in, names, usual_keys};

use std::marker::Model;
use tables::Key;

// How many keys there are.
const MOST: usize = 3;

/// Keys in the order in which they count: three at most, and none twice.
#[derive(Drop)]
pub struct Keys {
    keys: [Key; MOST],
    count: usize,
}

impl Model for Keys {
    ghost use Rattle.std.specs.Prelude.{◌≤◌, List, take};
    ghost use Rattle.tables.specs.declared.key.Key.{Key};

    ghost Value = { List Key };

    ghost view = { λ k. take k.count k.keys };

    ghost invariant = { λ k. k.count ≤ 3 };
}

impl Keys {
    /// The keys if `--by` is left out: `direct,buchholz,sb`.
    pub fn usual() -> Keys
        ensures { result ≡ usual_keys }
    {
        Keys {
            keys: [Key::Direct, Key::Buchholz, Key::SonnebornBerger],
            count: MOST,
        }
    }

    // No keys.
    fn none() -> Keys
        ensures { result ≡ [] }
    {
        Keys {
            keys: [Key::Direct; MOST],
            count: 0,
        }
    }

    /// The keys, the one that counts first in front.
    pub fn as_slice(&self) -> &[Key]
        ensures { result.now ≡ self.now }
    {
        let (keys, _) = self.keys.split_at(self.count);
        keys
    }

    // The keys and one more, unless it is one of them or there is no room.
    fn with(mut self, key: Key) -> Option<Keys>
        ensures { result ≡ with_key self key }
    {
        if is_among(key, self.as_slice()) || self.count == MOST {
            return None;
        }
        self.keys[self.count] = key;
        self.count += 1;
        Some(self)
    }
}

/// The keys that a list of names, parted by commas, stands for; each name is in lower case.
#[tactic(auto, using(crate::proofs::KeyRule::onto_keys_in), unfolding(crate::proofs::KeyRule::keys_onto))]
pub fn keys_in(text: &str) -> Option<Keys>
    ensures { result ≡ keys_in text.now }
{
    let mut keys = Keys::none();
    let mut rest = Some(text);
    while let Some(list) = rest {
        let (name, others) = first_name(list);
        keys = keys.with(key_named(name)?)?;
        rest = others;
    }
    Some(keys)
}

// The first name of a list, and the list behind its comma.
fn first_name(list: &str) -> (&str, Option<&str>)
    ensures names { names list.now ≡ result.0.now ∷ names_left (option_map (λ rest. rest.now) result.1) }
    ensures shorter { IfSome result.1 (λ rest. length rest.now < length list.now) }
{
    match list.split_once(',') {
        Some((name, rest)) => (name, Some(rest)),
        None => (list, None),
    }
}

// The key that a name stands for.
fn key_named(name: &str) -> Option<Key>
    ensures { result ≡ key_named name.now }
{
    match name {
        "direct" => Some(Key::Direct),
        "buchholz" => Some(Key::Buchholz),
        "sb" => Some(Key::SonnebornBerger),
        _ => None,
    }
}

fn is_among(key: Key, keys: &[Key]) -> bool
    ensures { result ≡ list_any (is_same key) keys.now }
{
    keys.iter().any(|other| is_same(key, *other))
}

fn is_same(key: Key, other: Key) -> bool
    ensures { result ≡ is_same key other }
{
    match key {
        Key::Direct => matches!(other, Key::Direct),
        Key::Buchholz => matches!(other, Key::Buchholz),
        Key::SonnebornBerger => matches!(other, Key::SonnebornBerger),
    }
}
