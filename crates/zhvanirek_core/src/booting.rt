// The tables of a fresh host, word by word.
ghost use Rattle.std.specs.Prelude.{◌≡◌, ◌*◌, ◌<◌, length, slice_index};
ghost use Rattle.model.specs.Edition.{edition32};
ghost use Rattle.model.specs.Tables as tables;
ghost use Rattle.model.proofs.Words.Rows.{row_at};
ghost use Rattle.zhvanirek_core.specs.Booting.{Range, boot_table};

use model::{Kind, NONE};

// A fresh host: an m and an r that Boot takes.
#[derive(Clone, Copy)]
pub struct Fresh {
    pub m: u32,
    pub r: u32,
    ghost range: { Range m r },
}

impl Fresh {
    // The eight words of row k.
    fn row(self, k: u32) -> [u32; 8]
        requires { k < tables.rows edition32 self.m }
        ensures { result ≡ row_at (boot_table self.m self.r) k }
    {
        if k == 0 {
            return [Kind::CNode as u32, 0, self.r, 0, 32 - self.r, 1, NONE, 0];
        }
        let last = self.m - self.r - 4;
        if last < k {
            return [0; 8];
        }
        let size = self.r + 3 + k;
        let next = if k == last { NONE } else { k + 1 };
        [Kind::Untyped as u32, 1 << size, size, 0, 0, next, k - 1, 0]
    }

    // Word j of the table.
    fn word(self, j: usize) -> u32
        requires { j < 8 * tables.rows edition32 self.m }
        ensures { result ≡ slice_index (boot_table self.m self.r) j }
    {
        let k = j / 8;
        let i = j % 8;
        let row = self.row(k as u32);
        row[i]
    }

    // Every word of the table.
    pub fn fill(self, table: &mut [u32])
        requires { length table.old ≡ 8 * tables.rows edition32 self.m }
        ensures { table.new ≡ boot_table self.m self.r }
    {
        for j in 0..table.len() {
            table[j] = self.word(j);
        }
    }
}
