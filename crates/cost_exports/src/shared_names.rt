// Names that keys share.
ghost use Rattle.std.specs.Prelude.{◌≡◌, IfOk};
ghost use Rattle.std.specs.Rc.{rc_slice_items};
ghost use Rattle.cost_rows.specs.Plain.{plain_cell};
ghost use Rattle.cost_exports.specs.Views.{held_names, names_of_row};

use crate::cells::HeldNames;
use cost_rows::CellRow;
use std::alloc::{AllocError, Global};
use std::collections::BTreeMap;
use std::rc::RcSlice;

/// Names, each held once however many keys have it. An ordered map finds them: no file can choose names that collide.
/// That a name is held once no clause says: what is found is compared with the name.
#[derive(Drop)]
pub(crate) struct SharedNames {
    held: BTreeMap<Vec<u8>, RcSlice<u8>>,
}

impl SharedNames {
    /// No name is held. Takes no memory. No guarantee: a name that is found is compared before it is shared.
    pub(crate) fn new(alloc: Global) -> SharedNames {
        SharedNames {
            held: BTreeMap::new(alloc),
        }
    }

    /// A name that is held from now on.
    fn hold(&mut self, alloc: Global, name: &[u8]) -> Result<RcSlice<u8>, AllocError>
        ensures { IfOk result (λ shared. rc_slice_items shared ≡ name.now) }
    {
        let shared = RcSlice::from_slice(alloc, name)?;
        let key = name.to_vec(alloc)?;
        self.held.insert(key, shared.clone()?)?;
        Ok(shared)
    }

    /// A name, shared with all that have it.
    pub(crate) fn share(&mut self, alloc: Global, name: &[u8]) -> Result<RcSlice<u8>, AllocError>
        ensures { IfOk result (λ shared. rc_slice_items shared ≡ name.now) }
    {
        if let Some(shared) = self.held.get(name) {
            if shared.as_slice() == name {
                return shared.clone();
            }
        }
        self.hold(alloc, name)
    }

    /// The same: mostly the name is that of before.
    pub(crate) fn share_near(
        &mut self,
        alloc: Global,
        before: Option<&RcSlice<u8>>,
        name: &[u8],
    ) -> Result<RcSlice<u8>, AllocError>
        ensures { IfOk result (λ shared. rc_slice_items shared ≡ name.now) }
    {
        if let Some(shared) = before {
            if shared.as_slice() == name {
                return shared.clone();
            }
        }
        self.share(alloc, name)
    }

    /// The names of a row, of which mostly some are those of the row before.
    pub(crate) fn names_near(
        &mut self,
        alloc: Global,
        before: Option<&HeldNames>,
        row: &CellRow<&[u8]>,
    ) -> Result<HeldNames, AllocError>
        ensures { IfOk result (λ names. held_names names ≡ names_of_row (plain_cell row.now)) }
    {
        let (object, file) = match before {
            Some(names) => (Some(&names.object), Some(&names.file)),
            None => (None, None),
        };
        Ok(HeldNames {
            object: self.share_near(alloc, object, row.object)?,
            file: self.share_near(alloc, file, row.file)?,
            function: self.share(alloc, row.function)?,
        })
    }
}
