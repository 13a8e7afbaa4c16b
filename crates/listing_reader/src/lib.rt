// The reader's state: a default set, a folder opened or closed, the row last put in.
#![tactic(auto)]

ghost use Rattle.std.specs.Prelude.{◌≡◌, ◌+◌, ◌≤◌, ◌<◌};
ghost use Rattle.listing_reader.specs.Does.{Fresh, Sets, Leaves, Roots, entered};

use listing_keywords::Kind;

// The default type, if one is set; the row of each open folder; the depth that an entry listed now has, 0 where no folder is
// open; the row last put into the folder last opened, or that folder's own; and the rows so far. What a line makes of it is
// a Result, whose Err is the number that is due. The rows are an array with its depth beside it, since memory is fixed.
#[derive(Clone, Copy)]
pub struct Reader {
    pub default: Option<Kind>,
    pub folders: [usize; 17],
    pub depth: usize,
    pub last: usize,
    pub count: usize,
}

impl Reader {
    // Before the first line.
    pub fn fresh() -> Reader
        ensures { Fresh result }
    {
        Reader {
            default: None,
            folders: [0; 17],
            depth: 0,
            last: 0,
            count: 0,
        }
    }

    // Another default, which holds until the next.
    pub fn with_default(self, default: Option<Kind>) -> Reader
        ensures { Sets self default result }
    {
        Reader { default, ..self }
    }

    // The folder last opened closed: it is the entry put last into its parent.
    pub fn leave(self) -> Reader
        requires { (0 < self.depth) × (self.depth ≤ 17) }
        ensures { Leaves self result }
    {
        let k = self.depth - 1;
        Reader {
            depth: k,
            last: self.folders[k],
            ..self
        }
    }

    // The root opened.
    pub fn enter_root(self) -> Reader
        ensures { Roots self result }
    {
        let mut t = self;
        t.folders[0] = 0;
        t.depth = 1;
        t.last = 0;
        t.count = 1;
        t
    }

    // The state after a row was put in as row i: a folder is opened.
    pub fn enter(self, i: usize, kind: u32) -> Reader
        requires { (self.depth < 17) × (self.count < 4096) }
        ensures { result ≡ entered self i kind }
    {
        let mut t = self;
        t.last = i;
        t.count = self.count + 1;
        if kind == 0 {
            t.folders[self.depth] = i;
            t.depth = self.depth + 1;
        }
        t
    }
}
