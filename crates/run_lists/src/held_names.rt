// Names and their numbers.
ghost use Rattle.std.specs.Prelude.{◌≡◌, ◌≢◌, ◌<◌, ◌↔◌, None, map, length, get_or, IfErr, IfOk, IfSome, IsTrue};
ghost use Rattle.std.specs.List.{AllAdjacentBelow};
ghost use Rattle.sqlite_trees.specs.Tree.{IsAscending};
ghost use Rattle.run_stores.specs.Book.{name_of, no_name, IsHeld};
ghost use Rattle.run_stores.specs.Names.{IsNumberOf};
ghost use Rattle.run_lists.specs.NameRows.{name_row, IsNameAt};

use prof_store::OutOfForm;
use run_stores::NameTable;
use std::marker::Model;

/// A name and its number.
#[derive(Drop)]
pub struct HeldName {
    pub number: u32,
    pub bytes: Vec<u8>,
}

/// The names of a store with their numbers, which rise. Contracts see them as a list of lines.
#[derive(Drop)]
pub struct HeldNames {
    names: Vec<HeldName>,
}

impl Model for HeldNames {
    ghost use Rattle.std.specs.Prelude.{List, map, ◌<◌};
    ghost use Rattle.sqlite_trees.specs.Tree.{IsAscending};
    ghost use Rattle.plain_tables.specs.Tables.{NameRow};

    ghost Value = { List NameRow };

    ghost use Rattle.run_lists.specs.NameRows.{name_row};

    ghost view = { λ h. map name_row h.names.items };

    ghost invariant = { λ h. IsAscending (λ a b. a.number < b.number) h.names.items };
}

/// Whether the numbers of names rise, one after another.
fn rise(names: &[HeldName]) -> bool
    ensures { IsTrue result ↔ AllAdjacentBelow (λ a b. a.number < b.number) names.now (length names.now) }
{
    for k in 1..names.len() {
        if names[k - 1].number >= names[k].number {
            return false;
        }
    }
    true
}

/// The name at a place, if it has the number.
fn name_at(names: &[HeldName], at: usize, number: u32) -> Option<&[u8]>
    ensures none { result ≡ None → (d : _) → at < length names.now → (get_or names.now at d).number ≢ number }
    ensures some { IfSome result (λ name. IsNameAt names.now at number name.now) }
{
    match names.get(at) {
        Some(name) if name.number == number => Some(&name.bytes),
        _ => None,
    }
}

/// The name of a number, among names whose numbers rise.
fn name_in(names: &[HeldName], number: u32) -> Option<&[u8]>
    requires { IsAscending (λ a b. a.number < b.number) names.now }
    ensures none { result ≡ None → ¬ (IsHeld (map name_row names.now) number) }
    ensures some { IfSome result (λ name. IsHeld (map name_row names.now) number × (name.now ≡ name_of (map name_row names.now) number)) }
{
    if number > 0 {
        // a store numbers its own names 1, 2, 3, ..
        if let Some(name) = name_at(names, number as usize - 1, number) {
            return Some(name);
        }
    }
    let at = names.partition_point(|name| name.number < number);
    name_at(names, at, number)
}

/// Bytes are not what stands for the name of a number that has none. It does nothing.
pub fn is_name(bytes: &[u8])
    ensures { bytes.now ≢ no_name }
{
    let _ = bytes;
}

/// The number of a name, among names whose numbers rise.
fn number_in(names: &[HeldName], name: &[u8]) -> Option<u32>
    requires { IsAscending (λ a b. a.number < b.number) names.now }
    ensures { IsNumberOf (map name_row names.now) name.now result }
{
    is_name(name);
    for held in names {
        if held.bytes.as_slice() == name {
            return Some(held.number);
        }
    }
    None
}

impl HeldNames {
    /// Names whose numbers rise, one after another; `OutOfForm` where they do not.
    pub fn of(names: Vec<HeldName>) -> Result<HeldNames, OutOfForm>
        ensures taken { IfOk result (λ held. held ≡ map name_row names.items) }
        ensures rising { IfOk result (IsAscending (λ a b. a.number < b.number)) }
        ensures refused { IfErr result (λ _. ¬ (AllAdjacentBelow (λ a b. a.number < b.number) names.items (length names.items))) }
    {
        if rise(&names) {
            Ok(HeldNames { names })
        } else {
            Err(OutOfForm)
        }
    }

    /// The number of a name, if it is held. Takes no memory.
    pub fn number_of(&self, name: &[u8]) -> Option<u32>
        ensures { IsNumberOf self.now name.now result }
    {
        number_in(&self.names, name)
    }
}

impl NameTable for HeldNames {
    ghost name_rows = { λ names. names };

    fn name(&self, number: u32) -> Option<&[u8]> {
        name_in(&self.names, number)
    }
}
