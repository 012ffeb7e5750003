// A tenant's estate, by a queue of rows each of which enters it once: a row brings in every slot of a CNode that it names, its descendants,
// and every row that names the same typed object.
ghost use Rattle.std.specs.Prelude.{◌≤◌};

use crate::output::Pen;
use crate::tree::{has_row, next_row};
use model::{Cap, Kind, Row};
use std::io::Write;
use table::caps::same_object;
use table::figures::MOST_ROWS;
use table::size::slots_of;
use table::{Column, cap_at, row_of, word};

// The rows that have entered: marked, and in the first `count` places of the queue.
#[derive(Drop)]
struct Estate {
    marks: [bool; MOST_ROWS],
    queue: [u32; MOST_ROWS],
    count: usize,
    ghost in_queue: { count ≤ 4096 },
}

// A row of the table is deeper than a depth.
fn is_deeper(table: &[u32], row: u32, depth: u32) -> bool {
    has_row(table, row) && depth < word(table, Row(row), Column::Depth)
}

// Two capabilities name the same typed object.
fn same_typed(a: Cap, b: Cap) -> bool {
    !a.is(Kind::Untyped) && same_object(a, b)
}

impl Estate {
    // Row k enters the queue, unless it was there.
    fn enter(&mut self, k: usize) {
        if k < MOST_ROWS && self.count < MOST_ROWS && !self.marks[k] {
            self.marks[k] = true;
            self.queue[self.count] = k as u32;
            self.count += 1;
        }
    }

    // The slots of a CNode enter.
    fn enter_slots(&mut self, cap: Cap) {
        if cap.is(Kind::CNode) && cap.size <= 12 {
            let first = row_of(cap.address).0 as usize;
            for i in 0..slots_of(cap) as usize {
                self.enter(first + i);
            }
        }
    }

    // The descendants of a row enter: the unbroken run after it with greater depth.
    fn enter_descendants(&mut self, table: &[u32], row: u32, depth: u32) {
        let mut at = next_row(table, row);
        for _ in 0..MOST_ROWS {
            if !is_deeper(table, at, depth) {
                return;
            }
            self.enter(at as usize);
            at = next_row(table, at);
        }
    }

    // Every row that names the typed object of a capability enters.
    fn enter_naming(&mut self, table: &[u32], cap: Cap) {
        let rows = (table.len() / 8).min(MOST_ROWS);
        for k in 0..rows {
            if same_typed(cap, cap_at(table, Row(k as u32))) {
                self.enter(k);
            }
        }
    }

    // What a row brings in enters.
    fn bring(&mut self, table: &[u32], row: u32) {
        if !has_row(table, row) {
            return;
        }
        let cap = cap_at(table, Row(row));
        if cap.is(Kind::Empty) {
            return;
        }
        self.enter_slots(cap);
        self.enter_descendants(table, row, word(table, Row(row), Column::Depth));
        self.enter_naming(table, cap);
    }

    // The rows of the queue bring in theirs, until none is left.
    fn close(&mut self, table: &[u32]) {
        // not a `for`: the queue grows as its rows are taken
        let mut done = 0;
        while done < self.count {
            self.bring(table, self.queue[done]);
            done += 1;
        }
    }
}

// The rows of the estate of a row, ascending, as a line. It stands apart for its large arrays.
#[inline(never)]
pub fn put_estate<W: Write, const PAGE: usize>(pen: &mut Pen<W, PAGE>, table: &[u32], row: u32) {
    let mut estate = Estate {
        marks: [false; MOST_ROWS],
        queue: [0; MOST_ROWS],
        count: 0,
    };
    estate.enter(row as usize);
    estate.close(table);
    pen.put_text(b"estate");
    for (k, &marked) in estate.marks.iter().enumerate() {
        if marked {
            pen.put_byte(b' ');
            pen.put_number(k as u64);
        }
    }
    pen.put_byte(b'\n');
}
