// Whether a name stands twice in a field of names joined by commas.
//
// The names are taken in blocks: the names of a block are put into a tree, and the later names are only looked up in it.
// A number mixed from a name's bytes says under which head of the tree it stands, so that few names stand under one head.
// They are told apart byte by byte, so that even a text all of whose names stand under one head does not make the time quadratic.
#![tactic(auto)]

ghost use Rattle.std.specs.Prelude.{suc, ◌<◌, ◌≤◌, length, get_or, [], ◌≡◌};
ghost use Rattle.text.specs.Pieces.{split, repeated};
ghost use Rattle.distinct.specs.Names.{symbol, before};
ghost use Rattle.distinct.specs.Tree.{Tree, Planted, Blank};
ghost use Rattle.distinct.specs.Answers.{Laid, Named, Searched, Filled, Met, Parted};

// Where a name ends, and the head of the tree under which it stands.
#[derive(Clone, Copy)]
struct Name {
    end: usize,
    head: usize,
}

// Where a name is missing in the tree: the slot whose link would have it found, and the place to which that link would lead.
#[derive(Clone, Copy)]
struct Gap {
    slot: usize,
    at: usize,
}

// The byte at a place, and a comma past the last byte.
fn symbol_at(field: &[u8], at: usize) -> u8
    ensures { result ≡ symbol field.now at }
{
    field.get(at).copied().unwrap_or(b',')
}

// The link in a slot, and 0 past the last slot.
fn link_at(links: &[u16], slot: usize) -> usize
    ensures { result ≡ get_or links.now slot 0 }
{
    links.get(slot).copied().unwrap_or(0) as usize
}

// The end and the head of the name that begins at a place. One walk for both: to find the comma first would read a name twice.
fn name_at(field: &[u8], heads: usize, from: usize) -> Name
    requires { (length field.now ≤ 32768) × (from ≤ length field.now) × (heads ≤ 4096) × (before field.now from ≡ []) }
    ensures { Named field.now heads from result }
{
    let factor = 40503 + 2 * field.len();
    let mut at = from;
    let mut sum = 0;
    loop {
        let byte = symbol_at(field, at);
        if byte == b',' {
            let head = sum * heads / 65536;
            return Name { end: at, head };
        }
        sum = (sum + byte as usize) * factor % 65536;
        at += 1;
    }
}

// Looks for the name that begins at a place, from a head of the tree on: the gap where it is missing, none where it is found.
// It goes on in the name and in the tree at once, and by no count.
fn seek(field: &[u8], links: &[u16], heads: usize, head: usize, from: usize) -> Option<Gap>
    requires { (length field.now ≤ 32768) × (from ≤ length field.now) × (heads ≤ 4096) × (head < heads) × Planted field.now links.now heads from }
    ensures { Searched field.now links.now heads head from result }
{
    let first = link_at(links, head);
    if first == 0 {
        return Some(Gap {
            slot: head,
            at: from,
        });
    }
    let mut place = first - 1;
    let mut at = from;
    loop {
        let byte = symbol_at(field, at);
        if symbol_at(field, place) == byte {
            if byte == b',' {
                return None;
            }
            at += 1;
            place += 1;
        } else {
            let slot = heads + place;
            let next = link_at(links, slot);
            if next == 0 {
                return Some(Gap { slot, at });
            }
            place = next - 1;
        }
    }
}

// Puts names into the tree, which has no link yet, as long as there is a slot for the next link.
// Answers the place up to which the names are in it, none where one stands twice. It goes by the names' ends, each found by `name_at`.
fn fill(field: &[u8], links: &mut [u16], heads: usize) -> Option<usize>
    requires { (length field.now ≤ 32768) × Laid links.old heads × Blank links.old }
    ensures { Filled field.now links.new heads result }
{
    let mut from = 0;
    while from <= field.len() {
        let name = name_at(field, heads, from);
        let gap = seek(field, links, heads, name.head, from)?;
        let slot = gap.slot;
        if links.len() <= slot {
            return Some(from);
        }
        links[slot] = (gap.at + 1) as u16;
        from = name.end + 1;
    }
    Some(from)
}

// Whether a name from a place on is in the tree of the names before it. It goes by the names' ends, as `fill` does.
fn meets(field: &[u8], links: &[u16], heads: usize, limit: usize) -> bool
    requires { (length field.now ≤ 32768) × (limit ≤ suc (length field.now)) × Laid links.now heads × Tree field.now links.now heads limit }
    ensures { Met field.now limit result }
{
    let mut from = limit;
    while from <= field.len() {
        let name = name_at(field, heads, from);
        if seek(field, links, heads, name.head, from).is_none() {
            return true;
        }
        from = name.end + 1;
    }
    false
}

// Takes the first block of a field, with links to work in that are all 0.
// Answers the place where the next block begins, none where a name of the block stands twice.
fn block_with(field: &[u8], links: &mut [u16], heads: usize) -> Option<usize>
    requires { (length field.now ≤ 32768) × Laid links.old heads × Blank links.old }
    ensures { Parted field.now result }
{
    let limit = fill(field, links, heads)?;
    if meets(field, links, heads, limit) {
        return None;
    }
    Some(limit)
}

// The same, with links of its own.
// A short field gets fewer links, since clearing them takes longer than reading it.
fn block(field: &[u8]) -> Option<usize>
    requires { length field.now ≤ 32768 }
    ensures { Parted field.now result }
{
    if field.len() < 192 {
        let mut few = [0u16; 256];
        return block_with(field, &mut few, 64);
    }
    if field.len() < 1536 {
        let mut some = [0u16; 2048];
        return block_with(field, &mut some, 512);
    }
    let mut many = [0u16; 5632];
    block_with(field, &mut many, 1408)
}

// Whether some name stands twice in a field of names joined by commas. It goes by the ends of blocks, each found by `block`.
pub fn repeats(field: &[u8]) -> bool
    requires { length field.now ≤ 32768 }
    ensures { result ≡ repeated (split 44 field.now) }
{
    let mut base = 0;
    while base <= field.len() {
        let Some(limit) = block(&field[base..]) else {
            return true;
        };
        base += limit;
    }
    false
}
