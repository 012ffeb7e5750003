// What a line asks for is done.
ghost use Rattle.std.specs.Prelude.{◌≡◌, ◌≤◌, drop, length, nat_le, slice_index, take};
ghost use Rattle.console.specs.Asking.{command_of};
ghost use Rattle.console.specs.Obeying.{Lending, Obeys, Replies, fitted, is_told, lend_if, lending, line_reply, line_told, on_ask_line, on_boot, on_row, on_show, on_size, on_tree, reply};
ghost use Rattle.console.specs.Writing.{Writes};

use crate::asking::{BadLine, Command, command_of};
use crate::estate::put_estate;
use crate::line::Line;
use crate::output::Pen;
use crate::show::{put_answer, show};
use crate::tree::{draw, has_row};
use std::io::Write;
use std::marker::Model;
use table::figures::Memory;

// What is kept from line to line: the words of a table of any length, of which the first `lent` are lent, and the control words.
#[derive(Clone, Copy)]
pub struct Desk<const WORDS: usize> {
    table: [u32; WORDS],
    control: [u32; 4],
    lent: usize,
}

impl<const WORDS: usize> Model for Desk<WORDS> {
    ghost Value = { Lending };

    ghost view = { λ d. lending d.table d.control d.lent };

    ghost inverse = { λ s. record { table = s.table; control = s.control; lent = s.count } };

    ghost invariant = { λ d. d.lent ≤ WORDS };
}

impl<const WORDS: usize> Desk<WORDS> {
    // Nothing is lent.
    pub fn new() -> Self
        ensures { result.count ≡ 0 }
    {
        Desk {
            table: [0; WORDS],
            control: [0; 4],
            lent: 0,
        }
    }

    // The first words of the table become 0 and are lent, if it has as many; else what was lent stays so. Whether it has.
    fn lend(&mut self, words: usize) -> bool
        ensures lent { self.new ≡ lend_if self.old words }
        ensures fits { result ≡ nat_le words (length self.old.table) }
    {
        let fits = words <= WORDS;
        if fits {
            self.table[..words].fill(0);
            self.lent = words;
        }
        fits
    }

    // What is lent: the words of the table, and the control words.
    fn lent(&self) -> (&[u32], &[u32; 4])
        ensures words { result.0.now ≡ take self.now.count self.now.table }
        ensures control { result.1.now ≡ self.now.control }
        ensures room { self.now.count ≤ length self.now.table }
    {
        (&self.table[..self.lent], &self.control)
    }

    // Boot's table: for an m in range a zero table of the length that fits, else what was lent.
    #[tactic(auto, unfolding(crate::specs::Obeying::fitted))]
    fn fit(&mut self, m: u32)
        ensures { self.new ≡ fitted self.old m }
    {
        if let Some(memory) = Memory::of(m) {
            self.lend(memory.table_words());
        }
    }

    // `boot M R`
    #[tactic(auto, unfolding(crate::specs::Obeying::on_boot, crate::specs::Obeying::boot_lent))]
    fn boot<W: Write, const PAGE: usize>(&mut self, m: u32, radix: u32, pen: &mut Pen<W, PAGE>)
        ensures { Replies (on_boot self.old m radix) self.new pen.old pen.new }
    {
        self.fit(m);
        // a copy is lent: the check does not cover two fields lent behind one reference
        let mut control = self.control;
        let answer = zhvanirek_core::boot(&mut self.table[..self.lent], &mut control, m, radix);
        self.control = control;
        put_answer(pen, zhvanirek_core::answer_words(answer));
    }

    // `size N`: a table of N zero words, and control words 0.
    #[tactic(auto, unfolding(crate::specs::Obeying::on_size))]
    fn size<W: Write, const PAGE: usize>(&mut self, n: u32, pen: &mut Pen<W, PAGE>)
        ensures { Replies (on_size self.old n) self.new pen.old pen.new }
    {
        if !self.lend(n as usize) {
            return pen.put_text(b"bad\n");
        }
        self.control = [0; 4];
        pen.put_text(b"ok\n");
    }

    // `row K A B C D E F G H`: sets row K, if it is wholly in the lent table.
    #[tactic(auto, unfolding(crate::specs::Obeying::on_row))]
    fn row<W: Write, const PAGE: usize>(&mut self, numbers: &[u32; 17], pen: &mut Pen<W, PAGE>)
        ensures { Replies (on_row self.old (slice_index numbers.now 0) (take 8 (drop 1 numbers.now))) self.new pen.old pen.new }
    {
        let from = numbers[0] as usize * 8;
        if self.lent < from + 8 {
            return pen.put_text(b"bad\n");
        }
        // a slice: the check does not lend the middle of an array whose length is a parameter
        let table: &mut [u32] = &mut self.table;
        table[from..from + 8].copy_from_slice(&numbers[1..9]);
        pen.put_text(b"ok\n");
    }

    // `ask CALLER W0 W1 ..`: a request of the words after the first of a line's numbers.
    #[tactic(auto, unfolding(crate::specs::Obeying::on_ask_line, crate::specs::Obeying::on_ask))]
    fn ask<W: Write, const PAGE: usize>(&mut self, line: &Line, pen: &mut Pen<W, PAGE>)
        ensures { Replies (on_ask_line self.old line.now.numbers line.now.count) self.new pen.old pen.new }
    {
        let numbers: &[u32] = &line.numbers;
        if line.count < 1 || numbers.len() < line.count {
            return pen.put_text(b"bad\n");
        }
        // a copy is lent, as in `boot`
        let mut control = self.control;
        let answer = zhvanirek_core::request(
            &mut self.table[..self.lent],
            &mut control,
            numbers[0],
            &numbers[1..line.count],
        );
        self.control = control;
        put_answer(pen, zhvanirek_core::answer_words(answer));
    }

    // `show`
    #[tactic(auto, unfolding(crate::specs::Obeying::on_show))]
    fn show<W: Write, const PAGE: usize>(&self, pen: &mut Pen<W, PAGE>)
        ensures { Writes pen.old (on_show self.now).text pen.new }
    {
        let (table, control) = self.lent();
        show(pen, table, control);
    }

    // `tree`, of tables that are well-formed.
    #[tactic(auto, unfolding(crate::specs::Obeying::on_tree))]
    fn tree<W: Write, const PAGE: usize>(&self, pen: &mut Pen<W, PAGE>)
        ensures { Writes pen.old (on_tree self.now).text pen.new }
    {
        let (table, control) = self.lent();
        if !rules::check(table, control) {
            return pen.put_text(b"bad\n");
        }
        let [_, _, head, count] = *control;
        draw(pen, table, head, count);
    }

    // `estate ROW`, of tables that are well-formed and have that row.
    fn estate<W: Write, const PAGE: usize>(&self, row: u32, pen: &mut Pen<W, PAGE>) {
        let (table, control) = self.lent();
        if !has_row(table, row) || !rules::check(table, control) {
            return pen.put_text(b"bad\n");
        }
        put_estate(pen, table, row);
    }

    // A command is done, with a line's numbers.
    #[tactic(auto, unfolding(crate::specs::Obeying::reply, crate::specs::Obeying::on_control, crate::specs::Obeying::on_show, crate::specs::Obeying::on_tree))]
    fn run<W: Write, const PAGE: usize>(
        &mut self,
        command: Command,
        line: &Line,
        pen: &mut Pen<W, PAGE>,
    )
        ensures { Obeys (is_told command) (reply command self.old line.now.numbers line.now.count) self.new pen.old pen.new }
    {
        let n = &line.numbers;
        match command {
            Command::Boot => self.boot(n[0], n[1], pen),
            Command::Size => self.size(n[0], pen),
            Command::Control => {
                self.control = [n[0], n[1], n[2], n[3]];
                pen.put_text(b"ok\n");
            }
            Command::Row => self.row(n, pen),
            Command::Ask => self.ask(line, pen),
            Command::Show => self.show(pen),
            Command::Tree => self.tree(pen),
            Command::Estate => self.estate(n[0], pen),
        }
    }

    // Does what a line asks for. It stands apart, so that what is done for each byte stays small.
    #[inline(never)]
    #[tactic(auto, unfolding(crate::specs::Writing::wrote))]
    pub fn obey<W: Write, const PAGE: usize>(&mut self, line: &Line, pen: &mut Pen<W, PAGE>)
        ensures { Obeys (line_told (command_of line.now)) (line_reply (command_of line.now) self.old line.now.numbers line.now.count) self.new pen.old pen.new }
    {
        match command_of(line) {
            Ok(Some(command)) => self.run(command, line, pen),
            Ok(None) => {}
            Err(BadLine) => pen.put_text(b"bad\n"),
        }
    }
}
