// Jobs built in memory, byte by byte.

ghost use Rattle.std.specs.Prelude.{◌≡◌, ◌+◌, ◌*◌, ◌≤◌, length};

// A job of so many rows and columns, whose least state is `first`. The first rows, `grid` of them, lie on a grid over two columns, with
// `side` states in the second and the first state behind. The rows past the grid are all at its first place, with 110, 101 and 011 behind.
#[derive(Clone, Copy)]
pub(crate) struct Grid {
    pub(crate) rows: usize,
    pub(crate) width: usize,
    pub(crate) grid: usize,
    pub(crate) side: usize,
    pub(crate) first: u8,
    ghost some_width: { 1 ≤ width },
    ghost some_side: { 1 ≤ side },
    ghost fits: { 12 + 2 * width + rows * width ≤ 16525 },
}

impl Grid {
    pub(crate) fn size(self) -> usize
        ensures { result ≡ 12 + 2 * self.width + self.rows * self.width }
    {
        12 + 2 * self.width + self.rows * self.width
    }

    // Byte i of the header, at epsilon 0, or of the weights behind it, each 1.
    fn head(self, i: usize) -> u8 {
        let x = match i {
            0 => self.rows,
            1 => self.rows / 256,
            2 => self.width,
            4 => 0,
            6 => 12,
            8 => 12 + 2 * self.width,
            10 => self.size(),
            11 => self.size() / 256,
            _ => 1 - i % 2,
        };
        (x % 256) as u8
    }

    // The state of row k in column c.
    fn state(self, k: usize, c: usize) -> u8 {
        let x = if k < self.grid {
            match c {
                0 => k / self.side,
                1 => k % self.side,
                _ => 0,
            }
        } else if (c < 2) | (c % 8 + (k - self.grid) % 8 == 4) {
            0
        } else {
            1
        };
        self.first % 128 + (x % 64) as u8
    }

    fn byte(self, i: usize) -> u8 {
        let states = 12 + 2 * self.width;
        if i < states {
            return self.head(i);
        }
        let at = i - states;
        self.state(at / self.width, at % self.width)
    }

    // What lies behind the last row is of no job.
    pub(crate) fn built(self) -> [u8; 16525]
        ensures { length result ≡ 16525 }
    {
        let mut job = [0u8; 16525];
        for (i, byte) in job.iter_mut().enumerate() {
            *byte = self.byte(i);
        }
        job
    }
}
