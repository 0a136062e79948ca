// The names of all three name spaces.
ghost use Rattle.std.specs.Prelude.{[], IfOk, OnOk};

use crate::spaces::Space;
use cg_text::{Fault, NameWord, Namespace, UNKNOWN};
use profile_records::{LentName, LentNames, Mark};
use std::alloc::{AllocError, Global};

/// What is kept of the names of objects, files and functions.
#[derive(Drop)]
pub struct Names {
    pub(crate) objects: Space,
    pub(crate) files: Space,
    pub(crate) functions: Space,
}

impl Names {
    ghost use Rattle.callgrind_reader.specs.Representation.{NamesAre, TakesWord, ForgetsCalled};
    ghost use Rattle.callgrind_reader.specs.Marks.{AreOwn, AreCalled, AreLent, MarksStay};

    /// Nothing is named yet.
    pub fn new(alloc: Global) -> Result<Names, AllocError>
        ensures { IfOk result (λ n. NamesAre n []) }
    {
        let objects = Space::new(alloc)?;
        // What is dropped at each way out is slow to prove.
        let Ok(files) = Space::new(alloc) else {
            drop(objects);
            return Err(AllocError);
        };
        let Ok(functions) = Space::new(alloc) else {
            drop((objects, files));
            return Err(AllocError);
        };
        Ok(Names {
            objects,
            files,
            functions,
        })
    }

    /// The names in force.
    pub fn own(&self) -> LentNames<'_>
        ensures texts { AreOwn self.now result }
        ensures lent { AreLent self.now result }
    {
        LentNames {
            object: self.objects.own(),
            file: self.files.own(),
            function: self.functions.own(),
        }
    }

    /// The names of what is called: of an object or a file that was not given, the one in force, and of
    /// a function `???`.
    pub fn called(&self) -> LentNames<'_>
        ensures texts { AreCalled self.now result }
        ensures lent { AreLent self.now result }
    {
        let unnamed = LentName {
            text: UNKNOWN,
            mark: Mark::Unnamed,
        };
        LentNames {
            object: self.objects.called_or(self.objects.own()),
            file: self.files.called_or(self.files.own()),
            function: self.functions.called_or(unnamed),
        }
    }

    /// Takes a name line, and answers its fault.
    pub fn take(&mut self, word: NameWord, value: &[u8]) -> Result<Option<Fault>, AllocError>
        ensures takes { IfOk result (TakesWord word value.now self.old self.new) }
        ensures marks { OnOk result (MarksStay self.old self.new) }
    {
        match word.namespace() {
            Namespace::Object => self.objects.take(word.role(), value),
            Namespace::File => self.files.take(word.role(), value),
            Namespace::Function => self.functions.take(word.role(), value),
        }
    }

    /// Forgets the called names, after the cost line of a call.
    pub fn forget_called(&mut self)
        ensures forgets { ForgetsCalled self.old self.new }
        ensures marks { MarksStay self.old self.new }
    {
        self.objects.forget_called();
        self.files.forget_called();
        self.functions.forget_called();
    }
}
