//! The format parameters of several keys.

ghost use Rattle.std.specs.Prelude.{◌≡◌, ◌++◌, [], None, OnOk, IfOk, map};
ghost use Rattle.std.specs.List.{list_any};
ghost use Rattle.std.specs.Str.{str_eq_ignore_ascii_case};
ghost use Rattle.std.specs.Option.{option_copied};
ghost use Rattle.sdp_formats_values.specs.Params.{pair_param, gives_level, is_level, or_before, last_value};
ghost use Rattle.sdp_formats_values.specs.Params.{with_pairs, with_pair, levels_in, listed, is_level_name};
ghost use Rattle.sdp_formats_values.specs.Params.{others_of, level_params, params_of};

use crate::key::Key;
use crate::line_hasher::LineHasher;
use crate::pairs::Pair;
use crate::param::{FormatParam, has_name};
use indexmap::IndexMap;
use media_types::{H265ProfileTierLevel, H266ProfileTierLevel};
use sdp_formats_grammar::{Listed, Text};
use std::alloc::{AllocError, Global};

fn is_level(key: Option<Key>) -> bool
    ensures { result ≡ is_level key }
{
    match key {
        Some(key) => key.is_level(),
        None => false,
    }
}

fn gives_level(pair: &Pair) -> bool
    ensures { result ≡ gives_level pair.now }
{
    is_level(Key::named(pair.key.as_str()))
}

fn has_level(pairs: &[Pair]) -> bool
    ensures { result ≡ list_any gives_level pairs.now }
{
    pairs.iter().any(|pair| gives_level(pair))
}

fn pair_param(pair: &Pair) -> FormatParam
    ensures { result ≡ pair_param pair.now }
{
    FormatParam::parse(pair.key.as_str(), pair.value.as_str())
}

fn pair_params(alloc: Global, pairs: &[Pair]) -> Result<Vec<FormatParam>, AllocError>
    ensures { IfOk result (λ params. params.items ≡ map pair_param pairs.now) }
{
    pairs.iter().map(|pair| pair_param(pair)).collect(alloc)
}

fn named_value<'a>(pair: &'a Pair, name: &str, before: Option<&'a str>) -> Option<&'a str>
    ensures { option_copied result ≡ or_before (str_eq_ignore_ascii_case name.now pair.now.key) pair.now.value
        (option_copied before.entry) }
{
    if has_name(pair.key.as_str(), name) {
        return Some(pair.value.as_str());
    }
    before
}

fn last_value<'a>(pairs: &'a [Pair], name: &str) -> Option<&'a str>
    ensures { option_copied result ≡ last_value name.now None pairs.now }
{
    let mut found = None;
    for pair in pairs {
        found = named_value(pair, name, found);
    }
    found
}

fn put_pair(
    alloc: Global,
    entries: &mut IndexMap<Text, Text, LineHasher>,
    pair: &Pair,
) -> Result<(), AllocError>
    ensures { OnOk result (entries.new.entries ≡ with_pair entries.old.entries pair.now) }
{
    let key = Text::of(pair.key.as_str().to_ascii_lowercase(alloc)?);
    let value = pair.value.clone(alloc)?;
    entries.insert(key, value)?;
    Ok(())
}

fn settled(alloc: Global, pairs: &[Pair]) -> Result<IndexMap<Text, Text, LineHasher>, AllocError>
    ensures { IfOk result (λ entries. entries.entries ≡ with_pairs [] pairs.now) }
{
    let mut entries = IndexMap::with_hasher(alloc, LineHasher::of(pairs));
    for pair in pairs {
        put_pair(alloc, &mut entries, pair)?;
    }
    Ok(entries)
}

/// The profile, tier and level that the pairs mean: of H.265, else of H.266.
fn level_of(pairs: &[Pair]) -> Option<FormatParam>
    ensures { listed result ≡ levels_in pairs.now }
{
    let profile_id = last_value(pairs, "profile-id");
    let tier_flag = last_value(pairs, "tier-flag");
    let level_id = last_value(pairs, "level-id");
    match H265ProfileTierLevel::from_fmtp(profile_id, tier_flag, level_id) {
        Some(ptl) => Some(FormatParam::H265ProfileTierLevel(ptl)),
        None => match H266ProfileTierLevel::from_fmtp(profile_id, tier_flag, level_id) {
            Some(ptl) => Some(FormatParam::H266ProfileTierLevel(ptl)),
            None => None,
        },
    }
}

fn is_level_name(key: &str) -> bool
    ensures { result ≡ is_level_name key.now }
{
    key == "profile-id" || key == "tier-flag" || key == "level-id"
}

fn push_others(
    params: &mut Vec<FormatParam>,
    entries: &IndexMap<Text, Text, LineHasher>,
) -> Result<(), AllocError>
    ensures { OnOk result (params.new.items ≡ params.old.items ++ others_of entries.now.entries) }
{
    for (key, value) in entries.iter() {
        if !is_level_name(key.as_str()) {
            params.push(FormatParam::parse(key.as_str(), value.as_str()))?;
        }
    }
    Ok(())
}

fn level_params(alloc: Global, pairs: &[Pair]) -> Result<Vec<FormatParam>, AllocError>
    ensures { IfOk result (λ params. params.items ≡ level_params pairs.now) }
{
    let mut params = Vec::new(alloc);
    if let Some(level) = level_of(pairs) {
        params.push(level)?;
    }
    push_others(&mut params, &settled(alloc, pairs)?)?;
    Ok(params)
}

impl FormatParam {
    /// The parameters of keys and values, in order. If one gives a tier or level of H.265 or H.266, each key counts
    /// once, at its first place with its last value, and `profile-id`, `tier-flag` and `level-id` are one parameter in
    /// front of the others, if they mean one (RFC 7798 7.1, RFC 9328 7.2).
    ///
    /// # Errors
    ///
    /// `AllocError` if memory runs out.
    pub fn parse_pairs(alloc: Global, pairs: &[Pair]) -> Result<Listed<FormatParam>, AllocError>
        ensures { IfOk result (λ params. params ≡ params_of pairs.now) }
    {
        if has_level(pairs) {
            return Ok(Listed::of(level_params(alloc, pairs)?));
        }
        Ok(Listed::of(pair_params(alloc, pairs)?))
    }
}
