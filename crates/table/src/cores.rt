// What other crates call once a table is checked. No entry points: each says what it requires.
ghost use Rattle.std.specs.Prelude.{◌≡◌, ◌+◌, ◌*◌, ◌/◌, ◌<◌, ◌≤◌, length, slice_index};
ghost use Rattle.columns.specs.Columns.{listed, over, sort_by, wiped, NeverFalls};
ghost use Rattle.columns.specs.Counting.{many, bit};
ghost use Rattle.columns.specs.Rows.{first_of, row_set};
ghost use Rattle.table.specs.Hidden.{hidden_in};
ghost use Rattle.table.specs.Lts.{lts, lts_of, Valid};
ghost use Rattle.table.specs.Reach.{takes, edge, reaches};
ghost use Rattle.table.specs.Search.{Search, appended};
ghost use Rattle.table.specs.Stretch.{ByTarget, StartsOf, first_row, first_into, next_incoming};
ghost use Rattle.table.specs.Turned.{RowsTurned, TurnedWithStarts};

use crate::{Lts, Table};
use columns::cells::{at, clear, count_up};
use columns::sorting::Keys;

// Where the rows of s begin: how many of the first m rows have a source below s.
fn first_row(source: &[u16], m: usize, s: usize) -> usize
    requires { (m ≤ length source.now) × NeverFalls source.now m }
    ensures { result ≡ first_row source.now m s }
{
    source[..m].partition_point(|&x| (x as usize) < s)
}

// Where the rows of s end, found from a row at or before that: the next row whose source is above s, or m.
fn run_end(source: &[u16], m: usize, s: usize, from: usize) -> usize
    requires { (m ≤ length source.now) × NeverFalls source.now m × (from ≤ first_row source.now m (s + 1)) }
    ensures { result ≡ first_row source.now m (s + 1) }
{
    (from..m).find(|&i| s < at(source, i)).unwrap_or(m)
}

// A run of rows, or of places in a list of rows: those from `first` to before `end`.
#[derive(Clone, Copy, PartialEq, Eq, Debug)]
pub struct Stretch {
    pub first: usize,
    pub end: usize,
}

// The rows of s among the first m: their beginning is searched for, and the end found by walking them.
pub fn rows_of(source: &[u16], m: usize, s: usize) -> Stretch
    requires { (m ≤ length source.now) × NeverFalls source.now m × (s < 65536) }
    ensures { (result.first ≡ first_row source.now m s) × (result.end ≡ first_row source.now m (s + 1)) }
{
    let first = first_row(source, m, s);
    let end = run_end(source, m, s, first);
    Stretch { first, end }
}

// Where the rows of each state begin, state after state, over the whole of `starts`: the rows are walked once.
fn list_starts(source: &[u16], m: usize, starts: &mut [u16])
    requires { (m ≤ length source.now) × NeverFalls source.now m × (m < 65536) }
    ensures { starts.new ≡ listed (length starts.old) (first_row source.now m) }
{
    let mut i = 0;
    for (s, start) in starts.iter_mut().enumerate() {
        *start = i as u16;
        i = run_end(source, m, s, i);
    }
}

// The rows of s among the first m: read off `starts`, and searched for where that has no cell for them.
fn rows_at(source: &[u16], m: usize, starts: &[u16], s: usize) -> Stretch
    requires m_in_bounds { (m ≤ length source.now) × NeverFalls source.now m × (s < 65536) }
    requires starts_of { StartsOf source.now m starts.now }
    ensures { (result.first ≡ first_row source.now m s) × (result.end ≡ first_row source.now m (s + 1)) }
{
    if starts.len() <= s + 1 {
        return rows_of(source, m, s);
    }
    let first = at(starts, s);
    let end = at(starts, s + 1);
    Stretch { first, end }
}

// The first of h rows listed by target whose target is not below u; h if there is none.
fn first_into(target: &[u16], order: &[u16], h: usize, u: usize) -> usize
    requires { ByTarget target.now order.now h }
    ensures { result ≡ first_into target.now order.now h u }
{
    let mut low = 0;
    let mut high = h;
    while low < high {
        let mid = low + (high - low) / 2;
        let i = at(order, mid);
        if at(target, i) < u {
            low = mid + 1;
        } else {
            high = mid;
        }
    }
    low
}

// Where the rows into u end, found from a place at or before that: the next place whose row leads above u, or h.
fn into_end(target: &[u16], order: &[u16], h: usize, u: usize, from: usize) -> usize
    requires { ByTarget target.now order.now h × (from ≤ first_into target.now order.now h (u + 1)) }
    ensures { result ≡ first_into target.now order.now h (u + 1) }
{
    (from..h)
        .find(|&k| u < at(target, at(order, k)))
        .unwrap_or(h)
}

// The rows into u, as places in a list of h rows by target: the incoming list, or a part of it. Their beginning is searched for, and the
// end found by walking them.
pub fn incoming_rows_of(target: &[u16], order: &[u16], h: usize, u: usize) -> Stretch
    requires { ByTarget target.now order.now h }
    ensures { (result.first ≡ first_into target.now order.now h u) × (result.end ≡ first_into target.now order.now h (u + 1)) }
{
    let first = first_into(target, order, h, u);
    let end = into_end(target, order, h, u, first);
    Stretch { first, end }
}

// The least of the first m rows, at or after `from`, whose target is u; m if there is none. The incoming rows of a state
// come by ascending source, then label.
pub fn next_incoming(target: &[u16], m: usize, u: usize, from: usize) -> usize
    requires { (m ≤ length target.now) × (from ≤ m) }
    ensures { result ≡ next_incoming target.now m u from }
{
    (from..m).find(|&i| at(target, i) == u).unwrap_or(m)
}

// The numbers of the first rows, as many as `order` has cells, by target, then source, then label. Of `spare` the first cells are
// used, half as many as `order` has, and zero then.
pub fn sort_incoming(
    source: &[u16],
    label: &[u16],
    target: &[u16],
    order: &mut [u16],
    spare: &mut [u16],
)
    requires { (length order.old ≤ 65536) × (length order.old ≤ 2 * length spare.old + 1) }
    ensures order_value { order.new ≡ sort_by target.now source.now label.now (listed (length order.old) (λ k. k)) }
    ensures spare_value { spare.new ≡ wiped (length order.old / 2) spare.old }
{
    count_up(&mut *order);
    let keys = Keys {
        first: target,
        second: source,
        third: label,
    };
    keys.sort(order, spare);
}

// Whether row i is taken: any row, or a hidden one only.
pub fn taken(label: &[u16], hidden: bool, i: usize) -> bool
    requires { i < length label.now }
    ensures { result ≡ takes hidden (slice_index label.now i) }
{
    !hidden || at(label, i) == 0
}

// Whether row i is hidden, and the state that it has in the column `ends`, its target or its source, is one of block b.
pub fn hidden_in(label: &[u16], ends: &[u16], element_to_block: &[u16], b: usize, i: usize) -> bool
    requires { (i < length label.now) × (i < length ends.now) × (slice_index ends.now i < length element_to_block.now) }
    ensures { result ≡ hidden_in label.now ends.now element_to_block.now b i }
{
    if at(label, i) != 0 {
        return false;
    }
    at(element_to_block, at(ends, i)) == b
}

// Marks state u and puts it behind the first `tail` cells of the queue, unless it is marked already. Returns the queue's new
// length.
pub fn append(u: usize, marks: &mut [u16], queue: &mut [u16], tail: usize) -> usize
    requires { (u < length marks.old) × (u < 65536) × (tail < 65536) × (slice_index marks.old u ≡ 0 → tail < length queue.old) }
    ensures { (result, (marks.new, queue.new)) ≡ appended u marks.old queue.old tail }
{
    if at(&*marks, u) != 0 {
        return tail;
    }
    marks[u] = 1;
    queue[tail] = u as u16;
    tail + 1
}

impl Lts<'_> {
    // Marks what the state at `head` of the queue leads to, and appends what is new. Returns the queue's new length.
    fn visit(
        &self,
        starts: &[u16],
        hidden: bool,
        marks: &mut [u16],
        queue: &mut [u16],
        head: usize,
        tail: usize,
    ) -> usize
        requires valid { Valid (lts_of self.now) × (head < tail) × StartsOf self.now.source.now self.now.table.m starts.now }
        requires fact { Search (edge (lts_of self.now) hidden) self.now.table.n (slice_index queue.old 0) marks.old queue.old head tail }
        ensures { Search (edge (lts_of self.now) hidden) self.now.table.n (slice_index queue.old 0) marks.new queue.new (head + 1) result }
    {
        let s = at(queue, head);
        let rows = rows_at(self.source, self.table.m as usize, starts, s);
        let mut high = tail;
        for i in rows.first..rows.end {
            if taken(self.label, hidden, i) {
                high = append(at(self.target, i), marks, queue, high);
            }
        }
        high
    }

    // The states that a state reaches, along all rows or hidden rows only: 1 for each in `marks`, 0 for each other. Returns how
    // many. The rows of a state are read off `starts`, or searched for where that has no cell for them. The first n cells of `queue`
    // are used.
    pub fn reach(
        &self,
        starts: &[u16],
        hidden: bool,
        state: usize,
        marks: &mut [u16],
        queue: &mut [u16],
    ) -> usize
        requires valid { Valid (lts_of self.now) × (state < self.now.table.n) × StartsOf self.now.source.now self.now.table.m starts.now }
        requires marks_len { (length marks.old ≡ self.now.table.n) × (self.now.table.n ≤ length queue.old) }
        ensures value { result ≡ many self.now.table.n (reaches (lts_of self.now) hidden state) }
        ensures marks_value { marks.new ≡ listed self.now.table.n (λ u. bit (reaches (lts_of self.now) hidden state u)) }
    {
        clear(&mut *marks);
        marks[state] = 1;
        queue[0] = state as u16;
        let mut head = 0;
        let mut tail = 1;
        while head < tail {
            tail = self.visit(starts, hidden, &mut *marks, &mut *queue, head, tail);
            head += 1;
        }
        tail
    }

    // The rows turned round, ascending again, over the first cells of the three columns named `back`: along them lead the ways back.
    // Returns their header. Behind the first m cells of `back_label` and `back_target` stands where the rows of each state begin, turned
    // round and as they are. The cells of `order` and `spare` that are used are zero then.
    pub fn turn_rows(
        &self,
        back_source: &mut [u16],
        back_label: &mut [u16],
        back_target: &mut [u16],
        order: &mut [u16],
        spare: &mut [u16],
    ) -> Table
        requires valid { Valid (lts_of self.now) }
        requires m_in_bounds { (self.now.table.m ≤ length back_source.old) × (self.now.table.m ≤ length back_label.old) }
        requires m_in_bounds_2 { (self.now.table.m ≤ length back_target.old) × (self.now.table.m ≤ length order.old)
            × (self.now.table.m ≤ 2 * length spare.old + 1) }
        ensures fact { TurnedWithStarts (lts_of self.now) (lts result back_source.new back_label.new back_target.new) }
        ensures order_value { (order.new ≡ wiped self.now.table.m order.old) × (spare.new ≡ wiped (self.now.table.m / 2) spare.old) }
        ensures back_source_value { let turned = row_set self.now.table.m self.now.target.now self.now.label.now self.now.source.now in
            back_source.new ≡ over (first_of turned) back_source.old }
        ensures labels_value { (result.labels ≡ self.now.table.labels) × (result.initial ≡ self.now.table.initial) }
    {
        let m = self.table.m as usize;
        let turned = Keys {
            first: self.target,
            second: self.label,
            third: self.source,
        };
        let r = turned.row_set(
            m,
            &mut *back_source,
            &mut *back_label,
            &mut *back_target,
            order,
            spare,
        );
        list_starts(&*back_source, r, &mut back_label[m..]);
        list_starts(self.source, m, &mut back_target[m..]);
        Table {
            m: r as u16,
            ..self.table
        }
    }

    // Of rows turned round: the states that reach a state of the table t that was turned, along all rows or hidden rows only: 1 for each in
    // `marks`, 0 for each other. `reach` goes along the turned rows. Returns how many. The first n cells of `queue` are used.
    pub fn reach_back(
        &self,
        starts: &[u16],
        hidden: bool,
        state: usize,
        marks: &mut [u16],
        queue: &mut [u16],
    ) -> usize
        requires valid { Valid (lts_of self.now) × (state < self.now.table.n) }
        requires marks_len { (length marks.old ≡ self.now.table.n) × (self.now.table.n ≤ length queue.old) }
        requires starts_of { StartsOf self.now.source.now self.now.table.m starts.now }
        ensures value { (t : _) → RowsTurned t (lts_of self.now) → result ≡ many t.n (λ s. reaches t hidden s state) }
        ensures marks_value { (t : _) → RowsTurned t (lts_of self.now) → marks.new ≡ listed t.n (λ s. bit (reaches t hidden s state)) }
    {
        self.reach(starts, hidden, state, marks, queue)
    }
}
