// The derivation tree, drawn for a person: a line for each listed row, indented by its depth.
#![tactic(auto, unfolding(crate::specs::Writing::wrote), using(crate::proofs::Writing::wrote_append))]

ghost use Rattle.std.specs.Prelude.{◌≡◌, ◌+◌, ◌*◌, ◌++◌, length, nat_le};
ghost use Rattle.console.specs.Drawn.{badge_text, bytes_text, cap_text, details_text, drawn_row, indent, kind_text, named, next_row, rights_name, rights_text, tree_text};
ghost use Rattle.console.specs.Writing.{Writes, ascii, decimal};

use crate::output::Pen;
use model::{Cap, Kind, Row};
use std::io::Write;
use table::{Column, cap_at, word};

// The table has a row.
pub fn has_row(table: &[u32], row: u32) -> bool
    ensures { result ≡ nat_le (row * 8 + 8) (length table.now) }
{
    row as usize * 8 + 8 <= table.len()
}

// The row after a row in the list; a row out of the table is its own.
pub fn next_row(table: &[u32], row: u32) -> u32
    ensures { result ≡ next_row table.now row }
{
    if has_row(table, row) {
        return word(table, Row(row), Column::Next);
    }
    row
}

// Two spaces for each depth.
fn put_indent<W: Write, const PAGE: usize>(pen: &mut Pen<W, PAGE>, depth: u32)
    ensures { Writes pen.old (indent depth) pen.new }
{
    for _ in 0..depth {
        pen.put_text(b"  ");
    }
}

// A name and a number.
fn put_named<W: Write, const PAGE: usize>(pen: &mut Pen<W, PAGE>, name: &[u8], n: u32)
    ensures { Writes pen.old (name.now ++ decimal n) pen.new }
{
    pen.put_text(name);
    pen.put_number(n.into());
}

// The name of a kind.
#[tactic(auto, unfolding(crate::specs::Drawn::kind_text))]
fn put_kind<W: Write, const PAGE: usize>(pen: &mut Pen<W, PAGE>, kind: u32)
    ensures { Writes pen.old (kind_text kind) pen.new }
{
    match Kind::try_from(kind) {
        Ok(Kind::Untyped) => pen.put_text(b"Untyped"),
        Ok(Kind::Tcb) => pen.put_text(b"TCB"),
        Ok(Kind::Endpoint) => pen.put_text(b"Endpoint"),
        Ok(Kind::Notification) => pen.put_text(b"Notification"),
        Ok(Kind::CNode) => pen.put_text(b"CNode"),
        _ => pen.put_text(b"Frame"),
    }
}

// The name of rights: write 1, read 2, grant 4.
#[tactic(auto, unfolding(crate::specs::Drawn::rights_name))]
fn put_rights_name<W: Write, const PAGE: usize>(pen: &mut Pen<W, PAGE>, rights: u32)
    ensures { Writes pen.old (rights_name rights) pen.new }
{
    match rights {
        0 => pen.put_text(b"none"),
        1 => pen.put_text(b"write"),
        2 => pen.put_text(b"read"),
        3 => pen.put_text(b"write+read"),
        4 => pen.put_text(b"grant"),
        5 => pen.put_text(b"write+grant"),
        6 => pen.put_text(b"read+grant"),
        _ => pen.put_text(b"write+read+grant"),
    }
}

// Rights.
fn put_rights<W: Write, const PAGE: usize>(pen: &mut Pen<W, PAGE>, rights: u32)
    ensures { Writes pen.old (rights_text rights) pen.new }
{
    pen.put_text(b" rights ");
    put_rights_name(pen, rights);
}

// The bytes of an Untyped, from its size.
fn put_bytes<W: Write, const PAGE: usize>(pen: &mut Pen<W, PAGE>, size: u32)
    ensures { Writes pen.old (bytes_text size) pen.new }
{
    pen.put_text(b" bytes ");
    if size < 64 {
        pen.put_number(table::size::pow2(size));
    }
}

// The badge and the rights of an Endpoint or a Notification.
fn put_badge<W: Write, const PAGE: usize>(pen: &mut Pen<W, PAGE>, cap: Cap)
    ensures { Writes pen.old (badge_text cap) pen.new }
{
    put_named(pen, b" badge ", cap.third);
    put_rights(pen, cap.fourth);
}

// What a capability holds beside its kind and address.
#[tactic(auto, unfolding(crate::specs::Drawn::details_text, crate::specs::Writing::wrote), using(crate::proofs::Writing::wrote_append))]
fn put_details<W: Write, const PAGE: usize>(pen: &mut Pen<W, PAGE>, cap: Cap)
    ensures { Writes pen.old (details_text cap) pen.new }
{
    match Kind::try_from(cap.kind) {
        Ok(Kind::Untyped) => {
            put_bytes(pen, cap.size);
            put_named(pen, b" watermark ", cap.third);
        }
        Ok(Kind::Tcb) => {}
        Ok(Kind::Endpoint | Kind::Notification) => put_badge(pen, cap),
        Ok(Kind::CNode) => {
            put_named(pen, b" radix ", cap.size);
            put_named(pen, b" guard ", cap.third);
            put_named(pen, b" size ", cap.fourth);
        }
        _ => put_rights(pen, cap.fourth),
    }
}

// The start of a row's line: its depth and its number.
fn put_row<W: Write, const PAGE: usize>(pen: &mut Pen<W, PAGE>, row: u32, depth: u32)
    ensures { Writes pen.old (indent depth ++ named "row " row ++ ascii " ") pen.new }
{
    put_indent(pen, depth);
    put_named(pen, b"row ", row);
    pen.put_byte(b' ');
}

// The rest of a row's line: its capability.
fn put_cap<W: Write, const PAGE: usize>(pen: &mut Pen<W, PAGE>, cap: Cap)
    ensures { Writes pen.old (cap_text cap) pen.new }
{
    put_kind(pen, cap.kind);
    put_named(pen, b" address ", cap.address.0);
    put_details(pen, cap);
    pen.put_byte(b'\n');
}

// The line of a row of the table.
#[tactic(auto, unfolding(crate::specs::Drawn::drawn_row, crate::specs::Writing::wrote), using(crate::proofs::Writing::wrote_append))]
fn draw_row<W: Write, const PAGE: usize>(pen: &mut Pen<W, PAGE>, table: &[u32], row: u32)
    ensures { Writes pen.old (drawn_row table.now row) pen.new }
{
    if !has_row(table, row) {
        return;
    }
    put_row(pen, row, word(table, Row(row), Column::Depth));
    put_cap(pen, cap_at(table, Row(row)));
}

// A line for each of the listed rows, from the head on, and `end`.
pub fn draw<W: Write, const PAGE: usize>(
    pen: &mut Pen<W, PAGE>,
    table: &[u32],
    head: u32,
    count: u32,
)
    ensures { Writes pen.old (tree_text table.now head count) pen.new }
{
    let mut row = head;
    for _ in 0..count {
        draw_row(pen, table, row);
        row = next_row(table, row);
    }
    pen.put_text(b"end\n");
}
