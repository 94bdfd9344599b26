// Rows searched by the index. A word of the pattern is compared with one of the text in `visit` and in `goes_on`, only where two
// windows have the same hash, and nowhere else in the fast engine.
#![tactic(auto)]

ghost use Rattle.std.specs.Prelude.{◌&&◌, ◌≡◌, ◌+◌, ◌-◌, ◌≤◌, ◌<◌, eqb, ltb, drop, get_or, set};
ghost use Rattle.tiling.specs.Tiling.{run_at};
ghost use Rattle.measure.specs.Block.{counted};
ghost use Rattle.bounds.specs.Workspace.{Space, state};
ghost use Rattle.sweep.specs.Progress.{UpperFrom, RowBound};
ghost use Rattle.index.specs.Indexed.{Indexed, Filtered, pattern_hash, text_hash, place};
ghost use Rattle.index.specs.Built.{when};
ghost use Rattle.index.specs.declared.Index.{Index};
ghost use Rattle.rows.specs.Serving.{Serving};
ghost use Rattle.rows.specs.Reached.{Reached, Looked, Within, may_be_longer, after_run, visited, Begun, told_by, goes_on};

use bounds::{Job, View};
use index::{Index, Pass};
use levels::Engine;
use sweep::Found;
use tile::{PatternAt, TextAt};

// How far the search of a row has come: what was found, the offset at which the last run that was measured ended, how often the row's
// first word stands again right after it, and up to which position the text is passed over.
#[derive(Clone, Copy)]
struct Walk {
    found: Found,
    ended: usize,
    again: usize,
    past: usize,
}

// What a row is searched in: the workspace of a pass, to read, and the heads of its buckets. That the windows are in the index (`Indexed`) is
// no ghost field: it holds a function, which positions are linked, and a ghost field must have one proof.
#[derive(Clone, Copy)]
pub struct Lookup<'a> {
    pub pass: Pass,
    pub words: &'a [u32],
    pub heads: &'a [u16; 1024],
    pub ghost space: { Space pass.job words.now },
}

// What is known after a run of len words at t was measured.
fn after_run(walk: Walk, t: TextAt, len: usize) -> Walk
    requires { (t.0 ≤ 2048) × (len ≤ 2048) }
    ensures { result ≡ after_run walk t len }
{
    Walk {
        found: sweep::keep(walk.found, t, len),
        ended: len.min(walk.found.len),
        again: walk.again,
        past: t.0 + 1 + sweep::passed_over(walk.again, len),
    }
}

// The row that was remembered at a place; 2,048, which is past every pattern, where there is none: it is two bytes of fixed memory.
fn last_row(last: &[u16; 1024], at: usize) -> PatternAt
    requires { at < 1024 }
    ensures { result.0 ≡ get_or last.now at 0 }
{
    PatternAt(last[at] as usize)
}

impl<'a> Lookup<'a> {
    // The run at a pair of positions, of which one longer than best is looked for.
    fn run_at(&self, p: PatternAt, t: TextAt, best: usize) -> usize
        requires { (p.0 ≤ self.now.pass.job.n) × (t.0 ≤ self.now.pass.job.m) }
        ensures { result ≡ counted best (run_at (state self.now.pass.job self.now.words.now) p.0 t.0) }
    {
        let from = p.0;
        let n = self.pass.job.n;
        let at = n + t.0;
        let end = n + self.pass.job.m;
        measure::measured_run(&self.words[from..n], &self.words[at..end], best)
    }

    // Whether the windows at a pair of positions have the same hash.
    fn same_hash(&self, p: PatternAt, t: TextAt) -> bool
        requires { (p.0 < self.now.pass.job.n + self.now.pass.job.m) × (t.0 < self.now.pass.job.n + self.now.pass.job.m) }
        ensures { result ≡ eqb (text_hash self.now.pass.job self.now.words.now t.0) (pattern_hash self.now.pass.job self.now.words.now p.0) }
    {
        let view = View {
            job: self.pass.job,
            words: self.words,
        };
        index::text_hash(&view, t) == index::pattern_hash(&view, p)
    }

    // The hash of the pattern's window at a position.
    fn pattern_hash(&self, p: PatternAt) -> u32
        requires { p.0 < self.now.pass.job.n }
        ensures { result ≡ pattern_hash self.now.pass.job self.now.words.now p.0 }
    {
        let view = View {
            job: self.pass.job,
            words: self.words,
        };
        index::pattern_hash(&view, p)
    }

    // Whether the windows that end just beyond len words from a pair of positions have the same hash.
    fn ends_alike(&self, p: PatternAt, t: TextAt, len: usize) -> bool
        requires { (t.0 < self.now.pass.job.m) × (self.now.pass.s ≤ len + 1) × (p.0 + (len + 1 - self.now.pass.s) ≤ self.now.pass.job.n) }
        ensures { result ≡ eqb (text_hash self.now.pass.job self.now.words.now (t.0 + (len + 1 - self.now.pass.s))) (pattern_hash self.now.pass.job self.now.words.now (p.0 + (len + 1 - self.now.pass.s))) }
    {
        let from = len + 1 - self.pass.s;
        self.same_hash(PatternAt(p.0 + from), TextAt(t.0 + from))
    }

    // Whether a run at a pair of positions may be longer than what was found. Such a run begins with a window of s words and goes on beyond
    // what was found, so the windows that begin and those that end there have the same hashes, and the words at every offset before match;
    // the one is asked at which the last run that was measured ended.
    fn may_be_longer(&self, p: PatternAt, t: TextAt, walk: Walk) -> bool
        requires { (p.0 < self.now.pass.job.n) × (t.0 < self.now.pass.job.m) × Within self.now.pass p.0 walk }
        ensures { result ≡ may_be_longer self.now.pass self.now.words.now p.0 t.0 walk }
    {
        if !self.same_hash(p, t) {
            return false;
        }
        if !self.ends_alike(p, t, walk.found.len) {
            return false;
        }
        let on_pattern = p.0 + walk.ended;
        let on_text = self.pass.job.n + t.0 + walk.ended;
        symbol::equal_calls(self.words[on_pattern], self.words[on_text])
    }

    // Visits a position of the text: the run there is measured where it is not passed over and may be longer than what was found.
    fn visit(&self, p: PatternAt, t: TextAt, walk: Walk) -> Walk
        requires { (p.0 < self.now.pass.job.n) × (t.0 < self.now.pass.job.m) × Within self.now.pass p.0 walk }
        ensures { result ≡ visited self.now.pass self.now.words.now p.0 t walk }
    {
        if t.0 < walk.past {
            return walk;
        }
        if !self.may_be_longer(p, t, walk) {
            return walk;
        }
        let len = self.run_at(p, t, walk.found.len);
        after_run(walk, t, len)
    }

    // How a search begins: what was found is a word less than a window, and no position is passed over.
    fn begin(&self, p: PatternAt) -> Walk
        requires { p.0 < self.now.pass.job.n }
        ensures { Begun self.now.pass self.now.words.now p.0 result }
    {
        let from = p.0;
        let n = self.pass.job.n;
        Walk {
            found: Found {
                t: TextAt(0),
                len: self.pass.s - 1,
            },
            ended: 0,
            again: sweep::repeats(&self.words[from..n]),
            past: 0,
        }
    }

    // Searches row p for its longest run, where it has at least s words, and the first position on the text that has it; or the first
    // run of at least cap words that is met. Only the positions in the bucket of p's window are visited.
    fn row_search(&self, p: PatternAt, cap: usize) -> Walk
        requires { Indexed self.now.pass self.now.words.now self.now.heads.now × (p.0 < self.now.pass.job.n) }
        ensures { Reached (drop p.0 (state self.now.pass.job self.now.words.now).pattern) (state self.now.pass.job self.now.words.now).text (self.now.pass.s - 1) cap result.found }
    {
        let view = View {
            job: self.pass.job,
            words: self.words,
        };
        let mut walk = self.begin(p);
        let own = self.pattern_hash(p);
        let bucket = index::bucket_of(own, self.pass.buckets);
        let mut t = index::first_text(self.heads, bucket);
        while t.0 < view.job.m && walk.found.len < view.job.m - t.0 && walk.found.len < cap {
            walk = self.visit(p, t, walk);
            t = index::next_text(&view, t);
        }
        walk
    }

    // Remembers a row at the place of its window's hash, where its longest run is shorter than cap.
    fn remember(&self, last: &mut [u16; 1024], p: PatternAt, len: usize, cap: usize)
        requires { p.0 < self.now.pass.job.n }
        ensures { last.new ≡ when (ltb len cap) (set last.old (place (pattern_hash self.now.pass.job self.now.words.now p.0)) p.0) last.old }
    {
        if cap <= len {
            return;
        }
        let at = index::place_of(self.pattern_hash(p));
        last[at] = p.0 as u16;
    }

    // Searches row p, and remembers it.
    fn search_row(&self, last: &mut [u16; 1024], p: PatternAt, cap: usize) -> Found
        requires { Indexed self.now.pass self.now.words.now self.now.heads.now × (p.0 < self.now.pass.job.n) }
        ensures { Reached (drop p.0 (state self.now.pass.job self.now.words.now).pattern) (state self.now.pass.job self.now.words.now).text (self.now.pass.s - 1) cap result }
    {
        let found = self.row_search(p, cap).found;
        self.remember(last, p, found.len, cap);
        found
    }

    // What the row that is remembered at the place of its window's hash tells of row p, of which no run exceeds cap: nothing, and then it
    // is cap, where the window of that row has another hash.
    fn told(&self, last: &[u16; 1024], p: PatternAt, from: PatternAt, cap: usize) -> usize
        requires { p.0 < self.now.pass.job.n }
        ensures { result ≡ told_by self.now.pass self.now.words.now last.now p.0 from.0 cap }
    {
        let own = self.pattern_hash(p);
        let q = last_row(last, index::place_of(own));
        if self.pass.job.n <= q.0 {
            return cap;
        }
        if self.pattern_hash(q) != own {
            return cap;
        }
        let view = View {
            job: self.pass.job,
            words: self.words,
        };
        sweep::bound_by(&view, p, q, from, cap)
    }

    // The first run of cap words of row p, which has none that is longer; else a length below cap that no run of it exceeds, as its free
    // words tell it, or another row, or a search.
    pub fn find(&self, last: &mut [u16; 1024], p: PatternAt, cap: usize) -> Found
        requires { Indexed self.now.pass self.now.words.now self.now.heads.now × (p.0 < self.now.pass.job.n) × (self.now.pass.s ≤ cap) × UpperFrom self.now.pass.job self.now.words.now 0 }
        ensures { Looked (state self.now.pass.job self.now.words.now) p.0 cap result }
    {
        let view = View {
            job: self.pass.job,
            words: self.words,
        };
        let free = sweep::free_words(&view, p, cap);
        let known = self.told(last, p, PatternAt(0), free);
        if known < cap {
            return Found {
                t: TextAt(0),
                len: known,
            };
        }
        self.search_row(last, p, cap)
    }

    // Whether the run at t of the row after p goes on with the words one position before it. The plain engine's has no hash to ask, and a
    // word of the two sequences is compared here and in `visit` alone.
    fn goes_on(&self, p: PatternAt, t: TextAt) -> bool
        requires { p.0 < self.now.pass.job.n }
        ensures { result ≡ goes_on self.now.pass.job self.now.words.now p.0 t.0 }
    {
        let before = sweep::one_before(t, self.pass.job.m);
        if self.pass.job.m <= before.0 {
            return false;
        }
        if !self.same_hash(p, before) {
            return false;
        }
        let on_pattern = p.0;
        let on_text = self.pass.job.n + before.0;
        symbol::equal_calls(self.words[on_pattern], self.words[on_text])
    }

    // A length up to cap that no run of the row at p exceeds, where none exceeds cap: as another row tells it, or cap itself, or as a
    // search finds it. Cap is taken over only where the run of the row after began at the text's beginning, so that it could not go on.
    fn capped(&self, last: &mut [u16; 1024], p: PatternAt, after: TextAt, cap: usize) -> Found
        requires { Indexed self.now.pass self.now.words.now self.now.heads.now × (p.0 < self.now.pass.job.n) × (self.now.pass.s ≤ cap) × RowBound self.now.pass.job (state self.now.pass.job self.now.words.now) p.0 cap × UpperFrom self.now.pass.job self.now.words.now (p.0 + 1) }
        ensures { RowBound self.now.pass.job (state self.now.pass.job self.now.words.now) p.0 result.len }
    {
        let known = self.told(last, p, PatternAt(p.0 + 1), cap);
        if known < cap || sweep::taken_over(after, self.pass.s, cap) {
            return Found {
                t: TextAt(0),
                len: known,
            };
        }
        self.search_row(last, p, cap)
    }

    // A length that no run of the row at p exceeds, from that of the row after it: a run is at most one word longer than the run one
    // position on, and has fewer than s words where the filter does not know the row's window.
    fn row_bound(
        &self,
        filter: &[u8; 4096],
        last: &mut [u16; 1024],
        p: PatternAt,
        after: Found,
    ) -> Found
        requires { Indexed self.now.pass self.now.words.now self.now.heads.now × Filtered self.now.pass self.now.words.now filter.now × (p.0 < self.now.pass.job.n) × RowBound self.now.pass.job (state self.now.pass.job self.now.words.now) (p.0 + 1) after.len × UpperFrom self.now.pass.job self.now.words.now (p.0 + 1) }
        ensures { RowBound self.now.pass.job (state self.now.pass.job self.now.words.now) p.0 result.len }
    {
        let at = p.0;
        if !symbol::is_call(self.words[at]) {
            return Found {
                t: TextAt(0),
                len: 0,
            };
        }
        let cap = after.len + 1;
        if self.goes_on(p, after.t) {
            return Found {
                t: TextAt(after.t.0 - 1),
                len: cap,
            };
        }
        if cap < self.pass.s {
            return Found {
                t: TextAt(0),
                len: cap,
            };
        }
        if index::entry_of(filter, self.pattern_hash(p)) != 2 {
            return Found {
                t: TextAt(0),
                len: self.pass.s - 1,
            };
        }
        self.capped(last, p, after.t, cap)
    }
}

// How the fast engine searches rows: by an index; and for each place of a window's hash it remembers a row, which may tell of another.
#[derive(Drop)]
pub struct Finder {
    pub index: Index,
    pub last: [u16; 1024],
}

impl Engine for Finder {
    ghost use Rattle.std.proofs.Common.{subst};
    ghost use Rattle.index.proofs.Kept.{indexed_unmoved, filtered_unmoved};

    ghost Tables = { Index };

    ghost tables = { λ e. e.index };

    ghost Serves = { λ e j ws. Serving e.index.pass e.index.heads j ws };

    ghost Fills = { λ e j ws. Filtered e.index.pass ws e.index.filter };

    ghost least = { λ e j. e.index.pass.s };

    fn least_run(&self, job: Job) -> usize {
        self.index.pass.s
    }

    fn row_bound(&mut self, view: &View<'_>, p: PatternAt, after: Found) -> Found {
        let look = Lookup {
            pass: self.index.pass,
            words: view.words,
            heads: &self.index.heads,
        };
        look.row_bound(&self.index.filter, &mut self.last, p, after)
    }

    fn find(&mut self, view: &View<'_>, p: PatternAt, cap: usize) -> Found {
        let look = Lookup {
            pass: self.index.pass,
            words: view.words,
            heads: &self.index.heads,
        };
        look.find(&mut self.last, p, cap)
    }

    ghost enough = { λ e j ws s. record { some = e.index.pass.one; long = subst (λ k. k.minimum ≤ e.index.pass.s) s.job e.index.pass.enough } };

    ghost kept = { λ e j ws ws' k s. record { job = s.job; indexed = indexed_unmoved e.index.pass j ws ws' s.job k.shrinks k.hashes k.links e.index.heads s.indexed } };

    ghost fills_kept = { λ e j ws ws' k s f. filtered_unmoved e.index.pass j ws ws' s.job k.shrinks k.hashes k.links e.index.filter f };
}
