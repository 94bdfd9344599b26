// The index of a pass: the hash of each free window, and for each bucket the positions of the text whose windows fall into it, in
// rising order. Only windows of the text are linked whose hash the pattern may have. Windows are found by the chains of free words.
#![tactic(auto)]

ghost use Rattle.std.specs.Prelude.{◌≡◌, ℕ, ◌+◌, ◌-◌, ◌≤◌, ◌<◌, get_or, set, replicate};
ghost use Rattle.window.specs.Hash.{bucket};
ghost use Rattle.bounds.specs.Workspace.{Space, state, bounds_from};
ghost use Rattle.index.specs.Indexed.{pattern_hash, text_hash, link, slot, place};
ghost use Rattle.index.specs.Built.{free_at, AllFree, PartHashed, Stretched, RaisedFrom, RowsFrom, Entered, LinkedFrom, Linked, TextsFrom, Built};

mod pass;

use bounds::{Job, View};
use chain::Stretch;
pub use pass::Pass;
use tile::{PatternAt, TextAt};

// The index of a pass: for each bucket the first position of the text in it, and for each entry of the filter what has it.
#[derive(Drop)]
pub struct Index {
    pub pass: Pass,
    pub heads: [u16; 1024],
    pub filter: [u8; 4096],
}

// The bucket of a hash.
pub fn bucket_of(h: u32, buckets: usize) -> usize
    requires { (1 ≤ buckets) × (buckets ≤ 1024) }
    ensures { (result ≡ bucket buckets h) × (result < 1024) }
{
    (h as usize) % buckets
}

// The entry of the filter that a hash has.
fn slot_of(h: u32) -> usize
    ensures { (result ≡ slot h) × (result < 4096) }
{
    (h.wrapping_mul(2654435769) / 0x10_0000) as usize
}

// The place of a hash among 1,024.
pub fn place_of(h: u32) -> usize
    ensures { (result ≡ place h) × (result < 1024) }
{
    slot_of(h) / 4
}

// The hash of the pattern's window at a position. This and the next two differ in an offset alone, but one function for them would take
// a bare number, and not a position of the sequence that it reads.
pub fn pattern_hash(view: &View, p: PatternAt) -> u32
    requires { p.0 < view.now.job.n + view.now.job.m }
    ensures { result ≡ pattern_hash view.now.job view.now.words.now p.0 }
{
    let at = view.job.n + view.job.m + p.0;
    view.words[at]
}

// The hash of the text's window at a position.
pub fn text_hash(view: &View, t: TextAt) -> u32
    requires { t.0 < view.now.job.n + view.now.job.m }
    ensures { result ≡ text_hash view.now.job view.now.words.now t.0 }
{
    let at = view.job.n + view.job.m + view.job.n + t.0;
    view.words[at]
}

// The next position of the text in the same bucket; after the last, 2,048, which is past every text: links are words of the workspace, and
// one comparison with the text's length tells of the end and of too few words alike.
pub fn next_text(view: &View, t: TextAt) -> TextAt
    requires { t.0 < view.now.job.m }
    ensures { result.0 ≡ link view.now.job view.now.words.now t.0 }
{
    let at = 2 * (view.job.n + view.job.m) + view.job.n + t.0;
    TextAt(view.words[at] as usize)
}

// Hashes the windows of some of the words of the two sequences, which stand side by side.
fn hash_part(ws: &mut [u32], pass: Pass, from: usize, count: usize)
    requires { Space pass.job ws.old × (pass.s ≤ count) × (from + count ≤ pass.job.n + pass.job.m) }
    ensures { PartHashed pass from count ws.old ws.new }
{
    let words = pass.job.n + pass.job.m;
    window::hash_windows(
        &mut ws[from..],
        count,
        words,
        pass.weight,
        pass.multiplier,
        pass.s,
    );
}

// How many calls stand in the text from t on without a gap, where after that many stand from the next position on.
fn free_from(view: &View, t: TextAt, after: usize) -> usize
    requires { (t.0 < view.now.job.m) × (after ≡ free_at view.now.job view.now.words.now (t.0 + 1)) }
    ensures { result ≡ free_at view.now.job view.now.words.now t.0 }
{
    let at = view.job.n + t.0;
    if !symbol::is_call(view.words[at]) {
        return 0;
    }
    after + 1
}

// The first position of the text in a bucket; where there is none, 2,048, which is past every text: a head is two bytes of fixed memory.
pub fn first_text(heads: &[u16; 1024], bucket: usize) -> TextAt
    requires { bucket < 1024 }
    ensures { result.0 ≡ get_or heads.now bucket 0 }
{
    TextAt(heads[bucket] as usize)
}

// The entry of the filter for a hash: 0 where the pattern has no free window with that entry, 1 where it has one, and 2 where a
// window of the text is linked that has it too. Numbers and not an enum: `Filtered` and `Built` speak of them, and the table is begun as zeros.
pub fn entry_of(filter: &[u8; 4096], h: u32) -> u8
    ensures { result ≡ get_or filter.now (slot h) 0 }
{
    filter[slot_of(h)]
}

// Sets where a position of the text points on to.
fn set_link(ws: &mut [u32], job: Job, t: TextAt, value: u32)
    requires { Space job ws.old × (t.0 < job.m) }
    ensures { ws.new ≡ set ws.old (bounds_from job + job.n + t.0) value }
{
    let at = 2 * (job.n + job.m) + job.n + t.0;
    ws[at] = value;
}

impl Index {
    // Sets the entries of the pattern's windows from one position up to another, from right to left. It makes the view itself: of one
    // that is passed it would have to be said that its comparison is the pass's.
    fn raise_rows(&mut self, ws: &[u32], from: PatternAt, to: PatternAt)
        requires { Space self.old.pass.job ws.now × (from.0 ≤ to.0) × ((q : ℕ) → from.0 ≤ q → q < to.0 → AllFree self.old.pass.s (state self.old.pass.job ws.now).pattern q) × RaisedFrom self.old.pass ws.now self.old.filter to.0 }
        ensures pass_kept { self.new.pass ≡ self.old.pass }
        ensures heads_kept { self.new.heads ≡ self.old.heads }
        ensures raised_from { RaisedFrom self.old.pass ws.now self.new.filter from.0 }
    {
        let view = View {
            job: self.pass.job,
            words: ws,
        };
        let filter = &mut self.filter;
        for p in (from.0..to.0).rev() {
            let h = pattern_hash(&view, PatternAt(p));
            filter[slot_of(h)] = 1;
        }
    }

    // Hashes the windows of a stretch of the pattern, which is long enough for one, and sets their entries.
    fn enter_rows(&mut self, ws: &mut [u32], rows: Stretch<PatternAt>)
        requires { Stretched (state self.old.pass.job ws.old).pattern rows.from.0 rows.to.0 × (self.old.pass.s ≤ rows.to.0 - rows.from.0) × RowsFrom self.old.pass ws.old self.old.filter rows.to.0 }
        ensures pass_kept { self.new.pass ≡ self.old.pass }
        ensures heads_kept { self.new.heads ≡ self.old.heads }
        ensures state_unchanged { state self.new.pass.job ws.new ≡ state self.old.pass.job ws.old }
        ensures rows_from { RowsFrom self.new.pass ws.new self.new.filter rows.from.0 }
    {
        let from = rows.from.0;
        let to = rows.to.0;
        hash_part(ws, self.pass, from, to - from);
        self.raise_rows(ws, rows.from, PatternAt(to + 1 - self.pass.s));
    }

    // Hashes the windows of a stretch of the pattern and sets their entries; where the stretch is too short it has none.
    fn hash_row_stretch(&mut self, ws: &mut [u32], rows: Stretch<PatternAt>)
        requires { (rows.from.0 ≤ rows.to.0) × (0 < rows.to.0 → Stretched (state self.old.pass.job ws.old).pattern rows.from.0 rows.to.0) × RowsFrom self.old.pass ws.old self.old.filter rows.to.0 }
        ensures pass_kept { self.new.pass ≡ self.old.pass }
        ensures heads_kept { self.new.heads ≡ self.old.heads }
        ensures state_unchanged { state self.new.pass.job ws.new ≡ state self.old.pass.job ws.old }
        ensures rows_from { RowsFrom self.new.pass ws.new self.new.filter rows.from.0 }
    {
        if rows.to.0 - rows.from.0 < self.pass.s {
            return;
        }
        self.enter_rows(ws, rows);
    }

    // Hashes the windows of the pattern that are free, stretch by stretch, and sets their entries. `link_windows` goes through the text
    // likewise: a walk that both call would take what a stretch needs and keeps as contracts of a closure, and is no shorter.
    fn hash_rows(&mut self, ws: &mut [u32])
        requires { Space self.old.pass.job ws.old × (self.old.filter ≡ replicate 4096 0) }
        ensures pass_kept { self.new.pass ≡ self.old.pass }
        ensures heads_kept { self.new.heads ≡ self.old.heads }
        ensures state_unchanged { state self.new.pass.job ws.new ≡ state self.old.pass.job ws.old }
        ensures rows_from { RowsFrom self.new.pass ws.new self.new.filter 0 }
    {
        let mut end = PatternAt(self.pass.job.n);
        while 0 < end.0 {
            let view = View {
                job: self.pass.job,
                words: ws,
            };
            let rows = view.rows_before(end);
            self.hash_row_stretch(ws, rows);
            end = rows.from;
        }
    }

    // Links the text's window at t to the head of its bucket and makes it the head, where its s words are free and the pattern may
    // have its hash.
    fn link_window(&mut self, ws: &mut [u32], t: TextAt, free: usize)
        requires { Space self.old.pass.job ws.old × (t.0 < self.old.pass.job.m) }
        ensures pass_kept { self.new.pass ≡ self.old.pass }
        ensures entered { Entered self.old.pass t.0 free ws.old self.old.heads self.old.filter ws.new self.new.heads self.new.filter }
    {
        if free < self.pass.s {
            return;
        }
        let view = View {
            job: self.pass.job,
            words: ws,
        };
        let h = text_hash(&view, t);
        if entry_of(&self.filter, h) == 0 {
            return;
        }
        let bucket = bucket_of(h, self.pass.buckets);
        set_link(ws, self.pass.job, t, self.heads[bucket] as u32);
        self.heads[bucket] = t.0 as u16;
        self.filter[slot_of(h)] = 2;
    }

    // Links the windows of a stretch of the text, from right to left.
    fn link_stretch(&mut self, ws: &mut [u32], texts: Stretch<TextAt>)
        requires { Space self.old.pass.job ws.old × (texts.from.0 ≤ texts.to.0) × (0 ≡ free_at self.old.pass.job ws.old texts.to.0) × LinkedFrom self.old.pass ws.old self.old.heads self.old.filter texts.to.0 }
        ensures pass_kept { self.new.pass ≡ self.old.pass }
        ensures linked { Linked self.new.pass ws.old ws.new self.new.heads self.new.filter texts.from.0 }
    {
        let mut free = 0;
        for t in (texts.from.0..texts.to.0).rev() {
            let view = View {
                job: self.pass.job,
                words: ws,
            };
            free = free_from(&view, TextAt(t), free);
            self.link_window(ws, TextAt(t), free);
        }
    }

    // Hashes and links the windows of a stretch of the text, which is long enough for one.
    fn enter_texts(&mut self, ws: &mut [u32], texts: Stretch<TextAt>)
        requires { Stretched (state self.old.pass.job ws.old).text texts.from.0 texts.to.0 × (self.old.pass.s ≤ texts.to.0 - texts.from.0) × TextsFrom self.old.pass ws.old self.old.heads self.old.filter texts.to.0 }
        ensures pass_kept { self.new.pass ≡ self.old.pass }
        ensures state_unchanged { state self.new.pass.job ws.new ≡ state self.old.pass.job ws.old }
        ensures texts_from { TextsFrom self.new.pass ws.new self.new.heads self.new.filter texts.from.0 }
    {
        let from = texts.from.0;
        let pass = self.pass;
        hash_part(ws, pass, pass.job.n + from, texts.to.0 - from);
        self.link_stretch(ws, texts);
    }

    // Hashes and links the windows of a stretch of the text; where the stretch is too short it has none.
    fn link_text_stretch(&mut self, ws: &mut [u32], texts: Stretch<TextAt>)
        requires { (texts.from.0 ≤ texts.to.0) × (0 < texts.to.0 → Stretched (state self.old.pass.job ws.old).text texts.from.0 texts.to.0) × TextsFrom self.old.pass ws.old self.old.heads self.old.filter texts.to.0 }
        ensures pass_kept { self.new.pass ≡ self.old.pass }
        ensures state_unchanged { state self.new.pass.job ws.new ≡ state self.old.pass.job ws.old }
        ensures texts_from { TextsFrom self.new.pass ws.new self.new.heads self.new.filter texts.from.0 }
    {
        if texts.to.0 - texts.from.0 < self.pass.s {
            return;
        }
        self.enter_texts(ws, texts);
    }

    // Hashes and links the text's windows that are free, stretch by stretch, from right to left, so that each chain rises.
    fn link_windows(&mut self, ws: &mut [u32])
        requires { (self.old.heads ≡ replicate 1024 2048) × RowsFrom self.old.pass ws.old self.old.filter 0 }
        ensures pass_kept { self.new.pass ≡ self.old.pass }
        ensures state_unchanged { state self.new.pass.job ws.new ≡ state self.old.pass.job ws.old }
        ensures texts_from { TextsFrom self.new.pass ws.new self.new.heads self.new.filter 0 }
    {
        let mut end = TextAt(self.pass.job.m);
        while 0 < end.0 {
            let view = View {
                job: self.pass.job,
                words: ws,
            };
            let texts = view.text_before(end);
            self.link_text_stretch(ws, texts);
            end = texts.from;
        }
    }

    // Hashes every free window of s words, and links those of the text by bucket whose hash the pattern may have. Windows are taken from
    // the stretches of free words. Nothing must have been entered before.
    pub fn build(&mut self, ws: &mut [u32])
        requires { Space self.old.pass.job ws.old × (self.old.heads ≡ replicate 1024 2048) × (self.old.filter ≡ replicate 4096 0) }
        ensures pass_kept { self.new.pass ≡ self.old.pass }
        ensures built { Built self.old.pass ws.old ws.new self.new.heads self.new.filter }
    {
        self.hash_rows(ws);
        self.link_windows(ws);
    }
}
