// The root pages of the tables and indexes of a store, found by their names.
ghost use Rattle.std.specs.Prelude.{◌≡◌, ℕ, List, IfErr, IfOk, OnOk};
ghost use Rattle.sqlite_trees.specs.Tree.{Trees};
ghost use Rattle.page_files.specs.Files.{IsFaithful, IsUsable, OnlyReads};
ghost use Rattle.prof_store.specs.Schema.{schema_two};
ghost use Rattle.page_places.specs.Roots.{AreFound, AreNames, AreRoots, FailsInStore, FindsIndex, FindsTable, IsStoreOf, MissesIndex, MissesTable};
ghost use Rattle.page_places.specs.Roots.{index_name, index_tree, table_name, table_tree};

use crate::failures::error_of;
use page_files::PageFile;
use plain_tables::StoreError;
use sqlite_disk::Disk;
use std::alloc::Global;

/// The root pages of the tables, and behind each those of its indexes.
#[derive(Clone, Copy, Debug, PartialEq, Eq)]
pub struct StoreRoots {
    pub meta: u32,
    pub runs: u32,
    pub run_digests: u32,
    pub events: u32,
    pub event_places: u32,
    pub event_names: u32,
    pub derived: u32,
    pub derived_places: u32,
    pub derived_names: u32,
    pub coefs: u32,
    pub coef_keys: u32,
    pub names: u32,
    pub name_bytes: u32,
    pub calls: u32,
    pub call_keys: u32,
    pub stacks: u32,
    pub stack_frames: u32,
    pub groups: u32,
    pub group_names: u32,
    pub members: u32,
    pub member_keys: u32,
    pub cells: u32,
    pub cell_keys: u32,
}

/// The names of the tables, in the order of schema 2.
pub const TABLE_NAMES: [&str; 11] = [
    "meta",
    "run",
    "run_event",
    "derived",
    "coef",
    "name",
    "arc",
    "stack",
    "grp",
    "member",
    "thread_cell",
];

/// The names of the indexes, in the order of schema 2.
const INDEXES: [&str; 12] = [
    "sqlite_autoindex_run_1",
    "sqlite_autoindex_run_event_1",
    "sqlite_autoindex_run_event_2",
    "sqlite_autoindex_derived_1",
    "sqlite_autoindex_derived_2",
    "sqlite_autoindex_coef_1",
    "sqlite_autoindex_name_1",
    "sqlite_autoindex_arc_1",
    "sqlite_autoindex_stack_1",
    "sqlite_autoindex_grp_1",
    "sqlite_autoindex_member_1",
    "sqlite_autoindex_thread_cell_1",
];

/// The root page of a table. `Store` where the file has no table of this name.
pub fn table_root<D: Disk>(
    file: &mut PageFile<D>,
    alloc: Global,
    name: &str,
) -> Result<u32, StoreError>
    ensures found { IfOk result (FindsTable file.old file.new name.now) }
    ensures failed { IfErr result (MissesTable file.old file.new name.now) }
    ensures reads { OnlyReads file.old file.new }
    ensures usable { OnOk result (IsUsable file.new) }
{
    match file.table_root(alloc, name.as_bytes()) {
        Ok(Some(root)) => Ok(root),
        Ok(None) => Err(StoreError::Store),
        Err(error) => Err(error_of(error)),
    }
}

/// The root page of an index. `Store` where the file has no index of this name.
pub fn index_root<D: Disk>(
    file: &mut PageFile<D>,
    alloc: Global,
    name: &str,
) -> Result<u32, StoreError>
    ensures found { IfOk result (FindsIndex file.old file.new name.now) }
    ensures failed { IfErr result (MissesIndex file.old file.new name.now) }
    ensures reads { OnlyReads file.old file.new }
    ensures usable { OnOk result (IsUsable file.new) }
{
    match file.index_root(alloc, name.as_bytes()) {
        Ok(Some(root)) => Ok(root),
        Ok(None) => Err(StoreError::Store),
        Err(error) => Err(error_of(error)),
    }
}

/// The root pages of all tables, which have these names.
fn table_roots<D: Disk>(
    file: &mut PageFile<D>,
    alloc: Global,
    names: &[&str; 11],
) -> Result<[u32; 11], StoreError>
    ensures found { AreNames schema_two.tables table_name names.now → IsFaithful file.new → (db : Trees) (known : List ℕ)
        → IsStoreOf file.old db known → IfOk result (λ roots. AreFound schema_two.tables table_tree known roots 11) }
    ensures failed { AreNames schema_two.tables table_name names.now → IfErr result (FailsInStore file.old file.new) }
    ensures reads { OnlyReads file.old file.new }
    ensures usable { OnOk result (IsUsable file.new) }
{
    let mut roots = [0; 11];
    'tables: for (at, name) in names.iter().enumerate() {
        roots[at] = table_root(file, alloc, name)?;
    }
    Ok(roots)
}

/// The root pages of all indexes, which have these names.
fn index_roots<D: Disk>(
    file: &mut PageFile<D>,
    alloc: Global,
    names: &[&str; 12],
) -> Result<[u32; 12], StoreError>
    ensures found { AreNames schema_two.indexes index_name names.now → IsFaithful file.new → (db : Trees) (known : List ℕ)
        → IsStoreOf file.old db known → IfOk result (λ roots. AreFound schema_two.indexes index_tree known roots 12) }
    ensures failed { AreNames schema_two.indexes index_name names.now → IfErr result (FailsInStore file.old file.new) }
    ensures reads { OnlyReads file.old file.new }
    ensures usable { OnOk result (IsUsable file.new) }
{
    let mut roots = [0; 12];
    'indexes: for (at, name) in names.iter().enumerate() {
        roots[at] = index_root(file, alloc, name)?;
    }
    Ok(roots)
}

fn roots_of(tables: &[u32; 11], indexes: &[u32; 12]) -> StoreRoots
    ensures { (known : List ℕ) → AreFound schema_two.tables table_tree known tables.now 11 → AreFound schema_two.indexes index_tree known indexes.now 12
        → AreRoots known result }
{
    StoreRoots {
        meta: tables[0],
        runs: tables[1],
        run_digests: indexes[0],
        events: tables[2],
        event_places: indexes[1],
        event_names: indexes[2],
        derived: tables[3],
        derived_places: indexes[3],
        derived_names: indexes[4],
        coefs: tables[4],
        coef_keys: indexes[5],
        names: tables[5],
        name_bytes: indexes[6],
        calls: tables[6],
        call_keys: indexes[7],
        stacks: tables[7],
        stack_frames: indexes[8],
        groups: tables[8],
        group_names: indexes[9],
        members: tables[9],
        member_keys: indexes[10],
        cells: tables[10],
        cell_keys: indexes[11],
    }
}

/// Finds the tables and indexes. `Store` where one is not there, or pages cannot be read; `Memory`.
pub fn find_roots<D: Disk>(file: &mut PageFile<D>, alloc: Global) -> Result<StoreRoots, StoreError>
    ensures found { IsFaithful file.new → (db : Trees) (known : List ℕ) → IsStoreOf file.old db known → IfOk result (AreRoots known) }
    ensures failed { IfErr result (FailsInStore file.old file.new) }
    ensures reads { OnlyReads file.old file.new }
    ensures usable { OnOk result (IsUsable file.new) }
{
    let tables = table_roots(file, alloc, &TABLE_NAMES)?;
    let indexes = index_roots(file, alloc, &INDEXES)?;
    Ok(roots_of(&tables, &indexes))
}
