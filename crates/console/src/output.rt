// Text that is written: bytes are collected on a page, which is handed on when it is full and at the end of each turn.
ghost use Rattle.std.specs.Prelude.{◌≡◌, ◌≤◌, ⊤, [], ◌∷◌, false};

use std::alloc::AllocError;
use std::io::Write;

// A writer with a page of any length before it, whose bytes before `at` are still to be handed on. `lost` says that a write failed.
#[derive(Drop)]
pub struct Pen<W, const PAGE: usize> {
    writer: W,
    page: [u8; PAGE],
    at: usize,
    // a flag and no result: what writes cannot fail, and what it leaves on the page is promised on every run
    lost: bool,
    ghost on_page: { at ≤ PAGE },
}

// A pen on a writer that can be copied can be copied too, with its page.
impl<W: Copy, const PAGE: usize> Clone for Pen<W, PAGE> {
    ghost is_clone = { λ pen copy. copy ≡ pen };

    ghost is_infallible = { λ _. ⊤ };

    fn clone(&self) -> Result<Self, AllocError> {
        Ok(*self)
    }
}

impl<W: Copy, const PAGE: usize> Copy for Pen<W, PAGE> {}

impl<W: Write, const PAGE: usize> Pen<W, PAGE> {
    ghost use Rattle.console.specs.Writing.{HandsOn, Writes, decimal, spaced};

    // An empty page before a writer.
    pub fn new(writer: W) -> Self
        ensures writer { result.writer ≡ writer }
        ensures start { result.at ≡ 0 }
        ensures kept { result.lost ≡ false }
    {
        Pen {
            writer,
            page: [0; PAGE],
            at: 0,
            lost: false,
        }
    }

    // A write failed.
    pub fn has_lost(&self) -> bool
        ensures { result ≡ self.now.lost }
    {
        self.lost
    }

    // Hands on what the page holds. It stands apart, so that the test for a full page is inlined.
    #[cold]
    #[inline(never)]
    fn hand_on(&mut self)
        ensures { HandsOn W.contents self.old self.new }
    {
        self.lost |= self.writer.write_all(&self.page[..self.at]).is_err();
        self.at = 0;
    }

    // Hands on what the page holds, and what the writer holds back.
    pub fn flush(&mut self)
        ensures { HandsOn W.contents self.old self.new }
    {
        self.hand_on();
        self.lost |= self.writer.flush().is_err();
    }

    // A byte: a full page is handed on first; a page of no bytes takes none.
    #[tactic(auto, unfolding(crate::specs::Writing::byte_on, crate::specs::Writing::wrote))]
    pub fn put_byte(&mut self, byte: u8)
        ensures { Writes self.old (byte ∷ []) self.new }
    {
        if PAGE <= self.at {
            self.hand_on();
        }
        if self.at < PAGE {
            self.page[self.at] = byte;
            self.at += 1;
        }
    }

    // The bytes of a text.
    #[tactic(auto, unfolding(crate::specs::Writing::wrote), using(crate::proofs::Writing::wrote_append, crate::proofs::Writing::take_more))]
    pub fn put_text(&mut self, text: &[u8])
        ensures { Writes self.old text.now self.new }
    {
        for &byte in text {
            self.put_byte(byte);
        }
    }

    // A number in decimal.
    #[tactic(auto, using(crate::proofs::Writing::printed))]
    pub fn put_number(&mut self, n: u64)
        ensures { Writes self.old (decimal n) self.new }
    {
        let mut digits = [0u8; 20];
        let k = io::decimal(n, &mut digits);
        self.put_text(&digits[..k]);
    }

    // Numbers, with a space before each.
    #[tactic(auto, unfolding(crate::specs::Writing::wrote), using(crate::proofs::Writing::wrote_append, crate::proofs::Writing::spaced_more))]
    pub fn put_numbers(&mut self, numbers: &[u32])
        ensures { Writes self.old (spaced numbers.now) self.new }
    {
        for &n in numbers {
            self.put_byte(b' ');
            self.put_number(n.into());
        }
    }
}
