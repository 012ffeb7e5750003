// The tables as lines of text.
#![tactic(auto, unfolding(crate::specs::Writing::wrote), using(crate::proofs::Writing::wrote_append))]

ghost use Rattle.std.specs.Prelude.{◌≡◌, ◌+◌, ◌*◌, ◌≤◌, length};
ghost use Rattle.console.specs.Show.{all_zero, answer_text, row_text, show_text};
ghost use Rattle.console.specs.Writing.{Writes};

use crate::output::Pen;
use std::io::Write;

// The six words of an answer, as a line.
#[tactic(auto, using(crate::proofs::Writing::wrote_append, crate::proofs::Shown::answer_line))]
pub fn put_answer<W: Write, const PAGE: usize>(pen: &mut Pen<W, PAGE>, words: [u32; 6])
    ensures { Writes pen.old (answer_text words) pen.new }
{
    pen.put_number(words[0].into());
    pen.put_numbers(&words[1..6]);
    pen.put_byte(b'\n');
}

// All words are 0.
fn all_zero(words: &[u32]) -> bool
    ensures { result ≡ all_zero words.now }
{
    words.iter().all(|&word| word == 0)
}

// Row k, if a word of it is not 0.
#[tactic(auto, unfolding(crate::specs::Writing::wrote), using(crate::proofs::Writing::wrote_append, crate::proofs::Shown::row_hidden, crate::proofs::Shown::row_line))]
fn show_row<W: Write, const PAGE: usize>(pen: &mut Pen<W, PAGE>, table: &[u32], k: usize)
    requires { k * 8 + 8 ≤ length table.now }
    ensures { Writes pen.old (row_text table.now k) pen.new }
{
    let row = &table[k * 8..k * 8 + 8];
    if all_zero(row) {
        return;
    }
    pen.put_text(b"row ");
    pen.put_number(k as u64);
    pen.put_numbers(row);
    pen.put_byte(b'\n');
}

// The control words, each row with a word that is not 0, and `end`.
#[tactic(auto, unfolding(crate::specs::Show::show_text, crate::specs::Writing::wrote), using(crate::proofs::Writing::wrote_append))]
pub fn show<W: Write, const PAGE: usize>(pen: &mut Pen<W, PAGE>, table: &[u32], control: &[u32; 4])
    ensures { Writes pen.old (show_text table.now control.now) pen.new }
{
    pen.put_text(b"control");
    pen.put_numbers(control);
    pen.put_byte(b'\n');
    for k in 0..table.len() / 8 {
        show_row(pen, table, k);
    }
    pen.put_text(b"end\n");
}
