// The keys that the rows of the small tables have in their indexes.
ghost use Rattle.std.specs.Prelude.{◌≡◌, ◌∷◌, [], map, IfOk};
ghost use Rattle.sqlite_value.specs.declared.value.Value.TheVariants.{Blob, Text};
ghost use Rattle.prof_store.specs.Tables.{number};
ghost use Rattle.page_lists.specs.Indexed.{coef_key, derived_name_key, derived_place_key, digest_key, event_name_key, event_place_key, group_key, member_key};

use run_lists::{ListedCoef, ListedDerived, ListedEvent, ListedGroup, ListedMember, ListedRun};
use std::alloc::{AllocError, Global};

/// The digests of runs.
pub(crate) fn digests(alloc: Global, runs: &[ListedRun]) -> Result<Vec<&[u8]>, AllocError>
    ensures { IfOk result (λ keys. map (λ k. Blob k.now ∷ []) keys.items ≡ map digest_key runs.now) }
{
    let mut keys = Vec::with_capacity(alloc, runs.len())?;
    for run in runs {
        keys.push(run.entry.digest.as_slice())?;
    }
    Ok(keys)
}

/// The runs of events, with their places.
pub(crate) fn event_places(
    alloc: Global,
    events: &[ListedEvent],
) -> Result<Vec<(u32, u32)>, AllocError>
    ensures { IfOk result (λ keys. map (λ k. number k.0 ∷ number k.1 ∷ []) keys.items ≡ map event_place_key events.now) }
{
    let mut keys = Vec::with_capacity(alloc, events.len())?;
    for event in events {
        keys.push((event.run, event.place))?;
    }
    Ok(keys)
}

/// The runs of events, with their names.
pub(crate) fn event_names(
    alloc: Global,
    events: &[ListedEvent],
) -> Result<Vec<(u32, &[u8])>, AllocError>
    ensures { IfOk result (λ keys. map (λ k. number k.0 ∷ Blob k.1.now ∷ []) keys.items ≡ map event_name_key events.now) }
{
    let mut keys = Vec::with_capacity(alloc, events.len())?;
    for event in events {
        keys.push((event.run, event.name.as_slice()))?;
    }
    Ok(keys)
}

/// The runs of derived events, with their places.
pub(crate) fn derived_places(
    alloc: Global,
    derived: &[ListedDerived],
) -> Result<Vec<(u32, u32)>, AllocError>
    ensures { IfOk result (λ keys. map (λ k. number k.0 ∷ number k.1 ∷ []) keys.items ≡ map derived_place_key derived.now) }
{
    let mut keys = Vec::with_capacity(alloc, derived.len())?;
    for event in derived {
        keys.push((event.run, event.place))?;
    }
    Ok(keys)
}

/// The runs of derived events, with their names.
pub(crate) fn derived_names(
    alloc: Global,
    derived: &[ListedDerived],
) -> Result<Vec<(u32, &[u8])>, AllocError>
    ensures { IfOk result (λ keys. map (λ k. number k.0 ∷ Blob k.1.now ∷ []) keys.items ≡ map derived_name_key derived.now) }
{
    let mut keys = Vec::with_capacity(alloc, derived.len())?;
    for event in derived {
        keys.push((event.run, event.name.as_slice()))?;
    }
    Ok(keys)
}

/// The runs of coefficients, with their derived events and events.
pub(crate) fn coef_keys(
    alloc: Global,
    coefs: &[ListedCoef],
) -> Result<Vec<(u32, u32, u32)>, AllocError>
    ensures { IfOk result (λ keys. map (λ k. number k.0 ∷ number k.1 ∷ number k.2 ∷ []) keys.items ≡ map coef_key coefs.now) }
{
    let mut keys = Vec::with_capacity(alloc, coefs.len())?;
    for coef in coefs {
        keys.push((coef.run, coef.place, coef.event))?;
    }
    Ok(keys)
}

/// The names of groups.
pub(crate) fn group_names(alloc: Global, groups: &[ListedGroup]) -> Result<Vec<&str>, AllocError>
    ensures { IfOk result (λ keys. map (λ k. Text k.now ∷ []) keys.items ≡ map group_key groups.now) }
{
    let mut keys = Vec::with_capacity(alloc, groups.len())?;
    for group in groups {
        keys.push(group.name.as_str())?;
    }
    Ok(keys)
}

/// The groups of members, with their runs.
pub(crate) fn member_keys(
    alloc: Global,
    members: &[ListedMember],
) -> Result<Vec<(&str, u32)>, AllocError>
    ensures { IfOk result (λ keys. map (λ k. Text k.0.now ∷ number k.1 ∷ []) keys.items ≡ map member_key members.now) }
{
    let mut keys = Vec::with_capacity(alloc, members.len())?;
    for member in members {
        keys.push((member.group.as_str(), member.run))?;
    }
    Ok(keys)
}
