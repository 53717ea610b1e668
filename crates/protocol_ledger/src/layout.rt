//! Where the words of a table lie.

ghost use Rattle.std.specs.Prelude.{◌≡◌, ◌≤◌, ◌<◌, ◌+◌, ◌*◌, length};
ghost use Rattle.protocol_ledger.specs.Short.{AreStarts, Fits, HasWords, even, row_len, rows_of, short_place, words_below};

use crate::sheet::{LIVES, NACKS};
use protocol_values::Row;

/// Where each thread's words start, and where they all end.
pub type Starts = [u32; 65];

/// For how many offers a row has room, and for how many rows each thread has words. A row that has none is Fresh for good.
#[derive(Clone, Copy, Debug)]
pub struct Layout {
    pub offers: usize,
    pub lens: [u16; 64],
}

impl Layout {
    /// All threads have words for so many rows.
    pub fn even(offers: usize, rows: u16) -> Layout
        ensures { result ≡ even offers rows }
    {
        Layout {
            offers,
            lens: [rows; 64],
        }
    }

    /// How many words a row has.
    pub fn row_len(&self) -> usize
        requires { self.now.offers ≤ 8 }
        ensures { result ≡ row_len self.now.offers }
    {
        2 + 4 * self.offers
    }

    /// Where each thread's words start: behind those of the threads before.
    pub fn starts(&self) -> Starts
        requires { Fits self.now 1024 }
        ensures { AreStarts self.now result }
    {
        let mut starts = [0; 65];
        for thread in 0..64 {
            let len = usize::from(self.lens[thread]) * self.row_len() + NACKS + LIVES;
            starts[thread + 1] = starts[thread] + len as u32;
        }
        starts
    }

    /// Where the row's word at a place lies, of words that start so.
    pub fn place(&self, starts: &Starts, row: Row, place: usize) -> usize
        requires starts { AreStarts self.now starts.now }
        requires fits { Fits self.now 1024 }
        requires row { (row.thread < 64) × HasWords self.now row }
        requires place { place < row_len self.now.offers }
        ensures { result ≡ short_place self.now row place }
    {
        starts[usize::from(row.thread)] as usize + row.sync as usize * self.row_len() + place
    }

    /// Where the words behind a thread's rows lie, of words that start so.
    pub fn behind(&self, starts: &Starts, thread: usize) -> usize
        requires starts { AreStarts self.now starts.now }
        requires fits { Fits self.now 1024 }
        requires thread { thread < 64 }
        ensures { result ≡ words_below self.now thread + rows_of self.now thread * row_len self.now.offers }
    {
        starts[thread] as usize + usize::from(self.lens[thread]) * self.row_len()
    }
}
