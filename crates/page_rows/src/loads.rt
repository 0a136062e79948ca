// How many pages may be loaded.
ghost use Rattle.std.specs.Prelude.{◌≡◌, ◌+◌, ◌≤◌, ◌<◌, true, max, vec_len, All, IfErr, OnOk};

use sqlite_pages::Error;
use std::alloc::{AllocError, Global};

/// A way down through 20 levels loads fewer pages, where no payload goes on in overflow pages.
const GRACE: u32 = 64;

/// How often each page was loaded. It ends a chain of overflow pages that comes back to one of them, and
/// whatever else would load more than a file holds. In a sound database no load is refused.
#[derive(Debug, Drop)]
pub struct Loads {
    counts: Vec<u8>,
    /// So often may each page be loaded.
    most: u8,
    /// Loads that were let through before pages are counted, and how many may be.
    early: u32,
    grace: u32,
    /// A load failed or was refused, or is asked for just now.
    is_over: bool,
    ghost each: { All (λ count. count ≤ most) counts.items },
    ghost few: { early ≤ grace },
}

impl Loads {
    ghost use Rattle.page_rows.specs.Loads.{asked, counted, may_be_counted, Asks};

    /// For the rows that one walk takes. Each of their overflow pages belongs to one row, and is read once.
    pub fn of_rows(alloc: Global) -> Loads
        ensures none { asked result ≡ 0 }
        ensures once { (result.grace ≡ 0) × (result.most ≡ 1) }
    {
        Loads {
            counts: Vec::new(alloc),
            most: 1,
            early: 0,
            grace: 0,
            is_over: false,
        }
    }

    /// For one search in a tree. It looks at a page, copies it where a payload of it goes on in overflow
    /// pages, and then takes its cells.
    pub fn of_search(alloc: Global) -> Loads
        ensures none { asked result ≡ 0 }
        ensures thrice { (result.grace ≡ 64) × (result.most ≡ 3) }
    {
        Loads {
            counts: Vec::new(alloc),
            most: 3,
            early: 0,
            grace: GRACE,
            is_over: false,
        }
    }

    /// For changes of a tree. Between two writes a change looks at a page, copies it, looks for the overflow
    /// pages of a cell of it, and copies it anew.
    pub fn of_changes(alloc: Global) -> Loads
        ensures none { asked result ≡ 0 }
        ensures often { (result.grace ≡ 64) × (result.most ≡ 8) }
    {
        Loads {
            counts: Vec::new(alloc),
            most: 8,
            early: 0,
            grace: GRACE,
            is_over: false,
        }
    }

    /// Begins anew, as where a page was written.
    pub fn restart(&mut self)
        ensures none { asked self.new ≡ 0 }
        ensures bounds { (self.new.most ≡ self.old.most) × (self.new.grace ≡ self.old.grace) }
    {
        self.counts.clear();
        self.early = 0;
        self.is_over = false;
    }

    /// Has a count for this page, as for each before it.
    fn reach(&mut self, page: u32) -> Result<(), AllocError>
        ensures there { OnOk result (page < vec_len self.new.counts) }
        ensures counted { counted self.new ≡ counted self.old }
        ensures longest { vec_len self.new.counts ≤ max (vec_len self.old.counts) (page + 1) }
        ensures bounds { (self.new.most ≡ self.old.most) × (self.new.grace ≡ self.old.grace) }
        ensures over { self.new.is_over ≡ self.old.is_over }
    {
        let at = page as usize;
        if at < self.counts.len() {
            return Ok(());
        }
        self.counts.resize(at + 1, 0)
    }

    fn raise(&mut self, page: u32) -> Result<(), Error>
        requires { page < vec_len self.old.counts }
        ensures counted { OnOk result (counted self.new ≡ counted self.old + 1) }
        ensures refused { IfErr result (λ e. (e ≡ Error.OutOfMemory) × (self.new ≡ self.old)) }
        ensures longest { vec_len self.new.counts ≡ vec_len self.old.counts }
        ensures bounds { (self.new.most ≡ self.old.most) × (self.new.grace ≡ self.old.grace) }
        ensures over { self.new.is_over ≡ self.old.is_over }
    {
        let at = page as usize;
        let count = self.counts[at];
        if count >= self.most {
            return Err(Error::OutOfMemory);
        }
        self.counts[at] = count + 1;
        Ok(())
    }

    /// Begins a load. Errors: `OutOfMemory` where one failed or was refused.
    pub fn begin(&mut self) -> Result<(), Error>
        ensures begun { OnOk result ((self.new.is_over ≡ true) × (asked self.new ≡ asked self.old + 1) × (counted self.new ≡ counted self.old)) }
        ensures refused { IfErr result (λ e. (e ≡ Error.OutOfMemory) × (self.new ≡ self.old)) }
        ensures longest { vec_len self.new.counts ≡ vec_len self.old.counts }
        ensures bounds { (self.new.most ≡ self.old.most) × (self.new.grace ≡ self.old.grace) }
    {
        if self.is_over {
            return Err(Error::OutOfMemory);
        }
        self.is_over = true;
        Ok(())
    }

    /// Counts the load that was begun, of a page that is there. Errors: `OutOfMemory`, also for one too many,
    /// since that error needs no cause.
    pub fn count(&mut self, page: u32) -> Result<(), Error>
        requires { self.old.is_over ≡ true }
        ensures counted { OnOk result (counted self.new ≡ counted self.old + 1) }
        ensures asked { asked self.new ≡ asked self.old }
        ensures longest { vec_len self.new.counts ≤ max (vec_len self.old.counts) (page + 1) }
        ensures bounds { (self.new.most ≡ self.old.most) × (self.new.grace ≡ self.old.grace) }
        ensures cause { IfErr result (λ e. e ≡ Error.OutOfMemory) }
    {
        if self.early < self.grace {
            self.early += 1;
        } else {
            self.reach(page)?;
            self.raise(page)?;
        }
        self.is_over = false;
        Ok(())
    }
}
