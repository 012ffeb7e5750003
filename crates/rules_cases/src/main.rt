// The check on the tables of document 01's cases, on each rule broken alone, and on sound tables that no request makes.
#![tactic(auto)]

ghost use Rattle.std.specs.Prelude.{◌<◌};

use model::NONE;

// Writes a line: the text, and the verdict. A write that fails is passed over, and the next one is tried.
fn line(rt: &impl Print, text: &str, good: bool) {
    let verdict = if good { "well-formed" } else { "broken" };
    let _ = print!(rt; "{text}");
    let _ = println!(rt; ": {verdict}");
}

// Row k with other words.
fn put(t: &mut [u32; 512], k: usize, words: [u32; 8])
    requires { k < 64 }
{
    t[k * 8..k * 8 + 8].copy_from_slice(&words);
}

// The boot state for m = 10 and r = 4.
fn booted() -> [u32; 512] {
    let mut t = [0u32; 512];
    put(&mut t, 0, [5, 0, 4, 0, 28, 1, NONE, 0]);
    put(&mut t, 1, [1, 256, 8, 0, 0, 2, 0, 0]);
    put(&mut t, 2, [1, 512, 9, 0, 0, NONE, 1, 0]);
    t
}

// The state after case 1: CNodes in rows 3 and 4, made from the Untyped in row 1.
fn after_case_1() -> [u32; 512] {
    let mut t = booted();
    put(&mut t, 1, [1, 256, 8, 128, 0, 3, 0, 0]);
    put(&mut t, 3, [5, 256, 2, 0, 0, 4, 1, 1]);
    put(&mut t, 4, [5, 320, 2, 0, 0, 2, 3, 1]);
    put(&mut t, 2, [1, 512, 9, 0, 0, NONE, 4, 0]);
    t
}

// The verdict on tables.
fn verdict(t: [u32; 512], control: [u32; 4]) -> bool {
    rules::check(&t, &control)
}

// The verdict on the state after case 1 with another word in a row.
fn with_word(k: usize, i: usize, w: u32) -> bool
    requires { (k < 64) × (i < 8) }
{
    let mut t = after_case_1();
    t[k * 8 + i] = w;
    verdict(t, [10, 4, 0, 5])
}

// The verdict on the state after case 1 with other control words.
fn with_control(control: [u32; 4]) -> bool {
    verdict(after_case_1(), control)
}

// The verdict on the state after case 1 with a row more after row 4.
fn with_row(k: u32, kind: u32, address: u32, size: u32, fourth: u32, depth: u32) -> bool
    requires { k < 64 }
{
    let mut t = after_case_1();
    t[37] = k;
    put(
        &mut t,
        k as usize,
        [kind, address, size, 0, fourth, 2, 4, depth],
    );
    t[22] = k;
    verdict(t, [10, 4, 0, 6])
}

// The verdict on an Untyped in row 5 that covers the one in row 1, with rows 3 and 4 at depths 2 and d below it.
fn nested(d: u32) -> bool {
    let mut t = booted();
    put(&mut t, 1, [1, 256, 8, 256, 0, 5, 0, 0]);
    put(&mut t, 5, [1, 256, 8, 128, 0, 3, 1, 1]);
    put(&mut t, 3, [5, 256, 2, 0, 0, 4, 5, 2]);
    put(&mut t, 4, [5, 320, 2, 0, 0, 2, 3, d]);
    put(&mut t, 2, [1, 512, 9, 0, 0, NONE, 4, 0]);
    verdict(t, [10, 4, 0, 6])
}

// The verdict on an Endpoint in row k, made from the Untyped in row 2.
fn endpoint_in(k: u32) -> bool
    requires { k < 64 }
{
    let mut t = after_case_1();
    put(&mut t, 2, [1, 512, 9, 16, 0, k, 4, 0]);
    put(&mut t, k as usize, [3, 512, 4, 0, 7, NONE, 2, 1]);
    verdict(t, [10, 4, 0, 6])
}

fn sound(rt: &impl Print) {
    line(rt, "no row", verdict([0u32; 512], [10, 4, NONE, 0]));
    line(rt, "boot", verdict(booted(), [10, 4, 0, 3]));
    line(rt, "case 1", verdict(after_case_1(), [10, 4, 0, 5]));
    line(rt, "a guard of 18 bits", with_word(0, 3, 262143));
    line(rt, "a boot radix of 5", with_control([10, 5, 0, 5]));
    line(rt, "siblings that name one CNode", with_word(4, 1, 256));
    line(
        rt,
        "siblings that name one CNode, another between",
        with_row(5, 5, 256, 2, 0, 1),
    );
    line(rt, "a copy of a CNode", with_row(5, 5, 320, 2, 0, 2));
    line(
        rt,
        "two rows of depth 0 for one CNode",
        with_row(5, 5, 0, 4, 28, 0),
    );
    line(rt, "an Untyped in an Untyped", nested(2));
    line(rt, "an Endpoint in the boot CNode", endpoint_in(5));
    line(rt, "an Endpoint in the CNode of row 4", endpoint_in(20));
}

fn control_words(rt: &impl Print) {
    line(rt, "m of 9", with_control([9, 4, 0, 5]));
    line(rt, "m of 17", with_control([17, 4, 0, 5]));
    line(rt, "m of 11", with_control([11, 4, 0, 5]));
    line(rt, "a boot radix of 3", with_control([10, 3, 0, 5]));
    line(rt, "a boot radix of 6", with_control([10, 6, 0, 5]));
    line(rt, "another head", with_control([10, 4, 1, 5]));
    line(rt, "no head", with_control([10, 4, NONE, 5]));
    line(rt, "a head past the table", with_control([10, 4, 64, 5]));
    line(rt, "a count of one less", with_control([10, 4, 0, 4]));
    line(rt, "a count of one more", with_control([10, 4, 0, 6]));
    line(rt, "the greatest count", with_control([10, 4, 0, NONE]));
}

fn rows(rt: &impl Print) {
    line(rt, "kind 7", with_word(4, 0, 7));
    line(rt, "a CNode of radix 0", with_word(3, 2, 0));
    line(rt, "an Untyped of all memory", with_word(2, 2, 10));
    line(rt, "an Untyped off its size", with_word(1, 1, 264));
    line(rt, "an Untyped past memory", with_word(2, 1, 1024));
    line(rt, "a watermark of 120", with_word(1, 3, 120));
    line(rt, "a watermark past the size", with_word(1, 3, 272));
    line(rt, "a guard of 19 bits", with_word(0, 3, 262144));
    line(rt, "guard size and radix of 33", with_word(0, 4, 29));
    line(rt, "a guard of no bits", with_word(3, 3, 1));
    line(rt, "rights of an Untyped", with_word(2, 4, 1));
    line(rt, "an empty row with a depth", with_word(5, 7, 1));
}

fn list(rt: &impl Print) {
    line(rt, "a row passed over", with_word(1, 5, 4));
    line(rt, "another previous row", with_word(3, 6, 0));
    line(rt, "a row before the head", with_word(0, 6, 4));
    line(rt, "a depth of 1 at the head", with_word(0, 7, 1));
    line(rt, "a depth that grows by 2", with_word(3, 7, 2));
    line(rt, "a list that comes back", with_word(2, 5, 0));
    line(rt, "a row that follows itself", with_word(3, 5, 3));
    line(rt, "a next row past the table", with_word(3, 5, 64));
    line(rt, "a list that ends past the table", with_word(2, 5, 64));
    line(rt, "a list that ends early", with_word(4, 5, NONE));
}

fn rows_against_rows(rt: &impl Print) {
    line(
        rt,
        "a child that ends past the watermark",
        with_word(1, 3, 112),
    );
    line(rt, "a child before its Untyped", with_word(4, 1, 192));
    line(
        rt,
        "a child of a CNode for another CNode",
        with_word(4, 7, 2),
    );
    line(
        rt,
        "an Untyped over a sibling",
        with_row(5, 1, 256, 6, 0, 1),
    );
    line(
        rt,
        "an Untyped inside a sibling",
        with_row(5, 1, 272, 4, 0, 1),
    );
    line(
        rt,
        "two rows of depth 0 for one Untyped",
        with_row(5, 1, 512, 9, 0, 0),
    );
    line(
        rt,
        "a CNode over the boot CNode",
        with_row(5, 5, 0, 3, 28, 0),
    );
    line(
        rt,
        "a sibling of the Untyped that holds its object",
        nested(1),
    );
    line(rt, "a row in an Untyped", endpoint_in(40));
}

fn main(rt: HostRuntime) {
    sound(&rt);
    control_words(&rt);
    rows(&rt);
    list(&rt);
    rows_against_rows(&rt);
}
