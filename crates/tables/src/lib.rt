// A name packed into four words, and tables of names: packing, a name at a place, its place in a table.
#![tactic(auto)]

ghost use Rattle.std.specs.Prelude.{◌≡◌, ◌+◌, ◌*◌, ◌≤◌, ◌<◌, length, take, drop};
ghost use Rattle.tables.specs.Names.{value, packed, found_in, name_at, row_of};

// A name of at most 32 bytes, eight to a word, the first lowest, and zeros past its end.
#[derive(Clone, Copy, PartialEq, Eq)]
pub struct Name {
    pub first: u64,
    pub second: u64,
    pub third: u64,
    pub fourth: u64,
}

// Up to eight bytes as one number, the first lowest.
fn word(part: &[u8]) -> u64
    requires { length part.now ≤ 8 }
    ensures { result ≡ value part.now }
{
    let mut n: u64 = 0;
    for i in (0..part.len()).rev() {
        n = n * 256 + part[i] as u64;
    }
    n
}

// The eight bytes from a place on as one number.
fn eight(field: &[u8], at: usize) -> u64
    requires { at + 8 ≤ length field.now }
    ensures { result ≡ value (take 8 (drop at field.now)) }
{
    u64::from_le_bytes([
        field[at],
        field[at + 1],
        field[at + 2],
        field[at + 3],
        field[at + 4],
        field[at + 5],
        field[at + 6],
        field[at + 7],
    ])
}

// The eight bytes from a place on as one number, fewer where the field ends before.
fn word_at(field: &[u8], at: usize) -> u64
    requires { at ≤ 24 }
    ensures { result ≡ value (take 8 (drop at field.now)) }
{
    let end = field.len();
    if end <= at {
        return 0;
    }
    if at + 8 <= end {
        return eight(field, at);
    }
    if 8 <= end {
        return eight(field, end - 8) >> (8 * (at + 8 - end));
    }
    word(&field[at..])
}

// A field packed into words; a name loses nothing.
pub fn pack(field: &[u8]) -> Name
    ensures { result ≡ packed field.now }
{
    Name {
        first: word_at(field, 0),
        second: word_at(field, 8),
        third: word_at(field, 16),
        fourth: word_at(field, 24),
    }
}

// A table of names, four words each, and how many there are.
#[derive(Clone, Copy)]
pub struct Names<'a> {
    pub words: &'a [u64],
    pub count: usize,
    pub ghost within: { 4 * count ≤ length words.now },
}

impl<'a> Names<'a> {
    ghost use Rattle.tables.specs.Listed.{rows_of};

    // The name at a place of the table.
    pub fn row(self, place: usize) -> Name
        requires { place < self.count }
        ensures { result ≡ row_of (drop (4 * place) self.entry.words.now) }
    {
        let at = 4 * place;
        Name {
            first: self.words[at],
            second: self.words[at + 1],
            third: self.words[at + 2],
            fourth: self.words[at + 3],
        }
    }

    // The name at a place, and the name of no bytes where there is none.
    pub fn at(self, place: usize) -> Name
        ensures { result ≡ name_at (rows_of self.entry) place }
    {
        if place < self.count {
            return self.row(place);
        }
        pack(b"")
    }

    // The place of a name, none where it stands nowhere.
    pub fn find(self, name: Name) -> Option<usize>
        ensures { result ≡ found_in (rows_of self.entry) name }
    {
        for place in 0..self.count {
            if self.row(place) == name {
                return Some(place);
            }
        }
        None
    }
}
