// Rows in three columns as a set: ascending, none twice.
ghost use Rattle.std.specs.Prelude.{◌≡◌, map, ◌+◌, ◌*◌, ◌/◌, ◌≤◌, length};
ghost use Rattle.columns.specs.Columns.{over, wiped, cell};
ghost use Rattle.columns.specs.Rows.{firsts_by, pick_rows, picked, row_set, first_of, second_of, third_of};

use crate::cells::{cell_of, clear, count_up};
use crate::sorting::Keys;

// The cells that the numbers of `order` name, over the first ones of `to`.
pub fn gather(a: &[u16], order: &[u16], to: &mut [u16])
    requires { length order.now ≤ length to.old }
    ensures { to.new ≡ over (map (cell a.now) order.now) to.old }
{
    for (i, &number) in order.iter().enumerate() {
        to[i] = cell_of(a, number);
    }
}

impl Keys<'_> {
    // Of sorted numbers one for each row, over the first ones. Returns how many.
    pub fn distinct(&self, order: &mut [u16]) -> usize
        ensures value { result ≡ length (firsts_by self.now.first.now self.now.second.now self.now.third.now order.old) }
        ensures order_value { order.new ≡ over (firsts_by self.now.first.now self.now.second.now self.now.third.now order.old) order.old }
    {
        if order.len() == 0 {
            return 0;
        }
        let mut last = order[0];
        let mut r = 1;
        for i in 1..order.len() {
            let x = order[i];
            if self.comes_before(last, x) {
                order[r] = x;
                last = x;
                r += 1;
            }
        }
        r
    }

    // Numbers of the first rows of the columns, as many as `order` has cells: one for each row, in the order of the rows, over
    // the first cells of `order`. Returns how many.
    pub fn pick_rows(&self, order: &mut [u16], spare: &mut [u16]) -> usize
        requires { (length order.old ≤ 65536) × (length order.old ≤ 2 * length spare.old + 1) }
        ensures value { result ≡ length (pick_rows (length order.old) self.now.first.now self.now.second.now self.now.third.now) }
        ensures order_value { order.new ≡ picked (length order.old) self.now.first.now self.now.second.now self.now.third.now }
        ensures spare_value { spare.new ≡ wiped (length order.old / 2) spare.old }
    {
        count_up(&mut *order);
        self.sort(&mut *order, spare);
        self.distinct(&mut *order)
    }

    // The rows that the numbers of `order` name, over the first cells of x, y and z.
    pub fn write_rows(&self, order: &[u16], x: &mut [u16], y: &mut [u16], z: &mut [u16])
        requires { (length order.now ≤ length x.old) × (length order.now ≤ length y.old) × (length order.now ≤ length z.old) }
        ensures x_value { x.new ≡ over (map (cell self.now.first.now) order.now) x.old }
        ensures y_value { y.new ≡ over (map (cell self.now.second.now) order.now) y.old }
        ensures z_value { z.new ≡ over (map (cell self.now.third.now) order.now) z.old }
    {
        gather(self.first, order, x);
        gather(self.second, order, y);
        gather(self.third, order, z);
    }

    // The first m rows of the columns as a set: ascending, none twice, over the first cells of x, y and z. Returns how many.
    // The cells of `order` and `spare` that are used are zero then.
    pub fn row_set(
        &self,
        m: usize,
        x: &mut [u16],
        y: &mut [u16],
        z: &mut [u16],
        order: &mut [u16],
        spare: &mut [u16],
    ) -> usize
        requires m_in_bounds { (m ≤ length self.now.first.now) × (m ≤ length self.now.second.now) × (m ≤ length self.now.third.now) }
        requires m_in_bounds_2 { (m ≤ length x.old) × (m ≤ length y.old) × (m ≤ length z.old) }
        requires m_in_bounds_3 { (m ≤ length order.old) × (m ≤ 2 * length spare.old + 1) × (m ≤ 65536) }
        ensures value { result ≡ length (row_set m self.now.first.now self.now.second.now self.now.third.now) }
        ensures x_value { x.new ≡ over (first_of (row_set m self.now.first.now self.now.second.now self.now.third.now)) x.old }
        ensures y_value { y.new ≡ over (second_of (row_set m self.now.first.now self.now.second.now self.now.third.now)) y.old }
        ensures z_value { z.new ≡ over (third_of (row_set m self.now.first.now self.now.second.now self.now.third.now)) z.old }
        ensures order_value { (order.new ≡ wiped m order.old) × (spare.new ≡ wiped (m / 2) spare.old) }
    {
        let r = self.pick_rows(&mut order[..m], spare);
        self.write_rows(&order[..r], x, y, z);
        clear(&mut order[..m]);
        r
    }
}
