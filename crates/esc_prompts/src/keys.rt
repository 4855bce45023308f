//! This module reads the keys of a semantic prompt.
ghost use Rattle.std.specs.Prelude.{◌≡◌, map};
ghost use Rattle.std.specs.Option.{option_map};
ghost use Rattle.esc_prompts.specs.Pairs.{keys_of};

use esc_values::cut::key_and_value;

// These are the values of the keys of semantic prompts, if they are there.
#[derive(Clone, Copy)]
pub(crate) struct Keys<'a> {
    pub(crate) aid: Option<&'a str>,
    pub(crate) cl: Option<&'a str>,
    pub(crate) k: Option<&'a str>,
}

// Returns the last value of each key; none if a part that is not empty is no key and value.
pub(crate) fn read_keys<'a>(args: &[&'a [u8]]) -> Option<Keys<'a>>
    ensures { option_map (λ v.
        record {
          aid = option_map (λ t. t.now) v.aid;
          cl = option_map (λ t. t.now) v.cl;
          k = option_map (λ t. t.now) v.k;
        })
        result ≡ keys_of (map (λ p. p.now) args.now) }
{
    let mut aid = None;
    let mut cl = None;
    let mut k = None;
    for part in args {
        if part.is_empty() {
            continue;
        }
        let (key, value) = key_and_value(part)?;
        if key == "aid" {
            aid = Some(value);
        } else if key == "cl" {
            cl = Some(value);
        } else if key == "k" {
            k = Some(value);
        }
    }
    Some(Keys { aid, cl, k })
}
