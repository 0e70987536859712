// The room of lent memory: numbers of 16 bits in bytes, eight bytes at once, clearing to the end, copying into a part. Its corners write
// numbers in decimals (`decimals`) and read them (`numerals`). Leaf code: every other room reads and writes through it, and it knows
// nothing of jobs or types.

#![tactic(auto)]

pub mod decimals;
pub mod numerals;

ghost use Rattle.std.specs.Prelude.{◌≡◌, [], ◌∷◌, ◌+◌, ◌≤◌, ◌<◌, length, replicate};
ghost use Rattle.rules.specs.Result.{words};
ghost use Rattle.memory.specs.Placed.{placed};
ghost use Rattle.memory.specs.Word.{WordAt, EightAt};

// The number of 16 bits at a byte, low byte first.
pub fn word_at(b: &[u8], i: usize) -> usize
    requires { i + 1 < length b.now }
    ensures { WordAt b.now i result }
{
    u16::from_le_bytes([b[i], b[i + 1]]) as usize
}

// Eight bytes as one number, low byte first: the compiler makes one load of it.
pub fn eight_at(b: &[u8], i: usize) -> u64
    requires { i + 8 ≤ length b.now }
    ensures { EightAt b.now i result }
{
    u64::from_le_bytes(<[u8; 8]>::try_from(&b[i..i + 8]).unwrap())
}

// Writes a number of 16 bits at a byte, low byte first.
pub fn put_word(b: &mut [u8], i: usize, x: usize)
    requires { (i + 1 < length b.old) × (x ≤ 65535) }
    ensures { b.new ≡ placed b.old i (words (x ∷ [])) }
{
    let [low, high] = (x as u16).to_le_bytes();
    b[i] = low;
    b[i + 1] = high;
}

// Three numbers of 16 bits, one behind the other: so the blocks have a header, a record and a link.
pub fn put_three(out: &mut [u8], at: usize, x: usize, y: usize, z: usize)
    requires { (at + 6 ≤ length out.old) × (x ≤ 65535) × (y ≤ 65535) × (z ≤ 65535) }
    ensures { out.new ≡ placed out.old at (words (x ∷ y ∷ z ∷ [])) }
{
    put_word(out, at, x);
    put_word(out, at + 2, y);
    put_word(out, at + 4, z);
}

// One value to the end, whatever stood there.
pub fn clear<T: Copy>(cells: &mut [T], blank: T)
    ensures { cells.new ≡ replicate (length cells.old) blank }
{
    // `fill` asks that a clone of the value cannot fail and is the value, which a `T: Copy` does not say
    for i in 0..cells.len() {
        cells[i] = blank;
    }
}

// Copies all of s into the part of b that begins at a byte. The rest of b stays.
pub fn copy(s: &[u8], b: &mut [u8], at: usize)
    requires { at + length s.now ≤ length b.old }
    ensures { b.new ≡ placed b.old at s.now }
{
    // by `copy_from_slice` the archive for C needs `memmove` as well
    for i in 0..s.len() {
        b[at + i] = s[i];
    }
}
